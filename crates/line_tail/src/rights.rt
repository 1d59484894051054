// Castling rights as a word: a dash, or letters in the order KQkq.
ghost use Rattle.std.specs.Prelude.{◌≡◌};
ghost use Rattle.line_tail.specs.Words.{starts_with, taken_off, rights_of, are_rights};

use position_further::Rights;
use text_in::inner::is;

fn starts_with(s: &[u8], letter: u8) -> bool
    ensures { result ≡ starts_with letter s.now }
{
    if s.len() == 0 {
        return false;
    }
    s[0] == letter
}

// The word without the letter at its front, where it stands there.
fn taken_off(s: &[u8], letter: u8) -> &[u8]
    ensures { result.now ≡ taken_off letter s.now }
{
    if s.len() == 0 {
        return s;
    }
    if s[0] != letter {
        return s;
    }
    &s[1..]
}

// The rights whose letters stand there.
pub(crate) fn rights(s: &[u8]) -> Rights
    ensures { result ≡ rights_of s.now }
{
    let a = taken_off(s, b'K');
    let b = taken_off(a, b'Q');
    let c = taken_off(b, b'k');
    Rights {
        white_short: starts_with(s, b'K'),
        white_long: starts_with(a, b'Q'),
        black_short: starts_with(b, b'k'),
        black_long: starts_with(c, b'q'),
    }
}

// And nothing else does.
pub(crate) fn are_rights(s: &[u8]) -> bool
    ensures { result ≡ are_rights s.now }
{
    if is(s, b"-") {
        return true;
    }
    let a = taken_off(s, b'K');
    let b = taken_off(a, b'Q');
    let c = taken_off(b, b'k');
    let d = taken_off(c, b'q');
    d.len() == 0
}
