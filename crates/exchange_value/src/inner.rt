// S(0) and the stopping point, for the crates above: total, no door.
ghost use Rattle.std.specs.Prelude.{◌≡◌, cond, eqb, ◌-◌};
ghost use Rattle.exchange_value.specs.Promises.{Settles, Stops};

// a - b, or 0 where b is as large.
fn less(a: u32, b: u32) -> u32
    ensures { result ≡ a - b }
{
    if b < a {
        return a - b;
    }
    0
}

// S(0) of the captures that take these values; 0 of none.
pub fn settle(values: &[u16]) -> i32
    ensures { Settles values.now result }
{
    if values.len() == 0 {
        return 0;
    }
    // What the captures from k on are worth if the first of them is made only where that pays.
    let mut next: u32 = 0;
    for k in (1..values.len()).rev() {
        next = less(values[k] as u32, next);
    }
    (values[0] as i32) - (next as i32)
}

// The k-th where it does not pay, else the one found before.
fn earlier(pays: u32, k: usize, found: usize) -> usize
    ensures { result ≡ cond (eqb pays 0) k found }
{
    if pays == 0 {
        return k;
    }
    found
}

// Where an exchange stops: before the earliest capture after the first that does not pay, by its number, the first being 0; none where all are played.
pub fn stop(values: &[u16]) -> Option<usize>
    ensures { Stops values.now result }
{
    if values.len() == 0 {
        return None;
    }
    let mut pays: u32 = 0;
    let mut found: usize = 0;
    for k in (1..values.len()).rev() {
        pays = less(values[k] as u32, pays);
        found = earlier(pays, k, found);
    }
    if found == 0 {
        return None;
    }
    Some(found)
}
