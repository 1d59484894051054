// Questions of bitboards: count, scan, next, shift and one square.
use crate::reply::{Reply, byte, yes_or_no};
use refusal::Refusal;
use replay_question::NUMBERS;
use text_in::inner::is;

pub(crate) fn answer(word: &[u8], n: [u64; NUMBERS]) -> Reply {
    if is(word, b"count") {
        return Reply::Natural(bits::count(n[0]) as u64);
    }
    if is(word, b"scan") {
        return Reply::Natural(bits::scan(n[0]) as u64);
    }
    if is(word, b"next") {
        return next(bits::next(n[0]));
    }
    if is(word, b"shift") {
        return changed(bits::shift(n[1], by(n[0])));
    }
    of_square(word, byte(n[0]), n[1])
}

fn of_square(word: &[u8], square: u8, b: u64) -> Reply {
    if is(word, b"from_square") {
        return changed(bits::from_square(square));
    }
    if is(word, b"get") {
        return got(bits::get(b, square));
    }
    if is(word, b"set") {
        return changed(bits::set(b, square));
    }
    if is(word, b"toggle") {
        return changed(bits::toggle(b, square));
    }
    if is(word, b"reset") {
        return changed(bits::reset(b, square));
    }
    Reply::Nothing
}

// A shift from its 64 bits; 64 where it is farther than that.
fn by(n: u64) -> i8 {
    if n < 64 {
        return n as i8;
    }
    let m = 18446744073709551615 - n;
    if m < 64 {
        return (63 - m) as i8 - 64;
    }
    64
}

fn next(next: Option<(u8, u64)>) -> Reply {
    match next {
        Some((square, rest)) => Reply::Two(square as u64, rest),
        None => Reply::Nobody,
    }
}

fn changed(changed: Result<u64, Refusal>) -> Reply {
    match changed {
        Ok(b) => Reply::Natural(b),
        Err(r) => Reply::Refused(r),
    }
}

fn got(got: Result<bool, Refusal>) -> Reply {
    match got {
        Ok(t) => yes_or_no(t),
        Err(r) => Reply::Refused(r),
    }
}
