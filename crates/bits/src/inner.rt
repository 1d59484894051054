// What the crates above do with bitboards in their loops: total, and no door.
ghost use Rattle.bits.specs.Promises.{Unites, ReadsBitboard};

// The squares of a and of b together.
pub fn union(a: u64, b: u64) -> u64
    ensures { Unites a b result }
{
    a | b
}

// A bitboard of a list; the empty one past its end.
pub fn at(bitboards: &[u64], i: usize) -> u64
    ensures { ReadsBitboard bitboards.now i result }
{
    if i < bitboards.len() {
        return bitboards[i];
    }
    0
}
