// The state that a question names, whether a line could say it or not.
use crate::byte;
use position::State;
use position_further::Rights;
use replay_question::NUMBERS;

// In a question no square is 255.
const NONE: u8 = 255;

// Side, rights as a sum of 1 K, 2 Q, 4 k, 8 q, square, half moves, moves.
pub(crate) fn named(n: [u64; NUMBERS]) -> State {
    State {
        side: byte(n[0]),
        rights: rights(n[1]),
        passant: passant(byte(n[2])),
        halfmoves: counter(n[3]),
        moves: counter(n[4]),
    }
}

fn rights(n: u64) -> Rights {
    Rights {
        white_short: n & 1 != 0,
        white_long: n & 2 != 0,
        black_short: n & 4 != 0,
        black_long: n & 8 != 0,
    }
}

fn passant(square: u8) -> Option<u8> {
    if square == NONE {
        return None;
    }
    Some(square)
}

// The number in 16 bits; the largest of them where it is larger.
fn counter(n: u64) -> u16 {
    if n > 65535 {
        return 65535;
    }
    n as u16
}
