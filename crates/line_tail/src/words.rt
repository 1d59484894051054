// The words of a text, parted by spaces; a word that is not given is empty.
ghost use Rattle.std.specs.Prelude.{◌≡◌};
ghost use Rattle.line_tail.specs.Words.{word_of, after_word};
ghost use Rattle.line_tail.specs.Tail.{both_given};

use text_in::inner::{skip_spaces, text_after, text_before};

// The first word, and what follows it.
pub(crate) fn first(s: &[u8]) -> &[u8]
    ensures { result.now ≡ word_of s.now }
{
    text_before(skip_spaces(s), b' ')
}

pub(crate) fn rest(s: &[u8]) -> &[u8]
    ensures { result.now ≡ after_word s.now }
{
    text_after(skip_spaces(s), b' ')
}

// Where the one is given, so is the other.
pub(crate) fn both_given(s: &[u8], t: &[u8]) -> bool
    ensures { result ≡ both_given s.now t.now }
{
    if s.len() == 0 {
        return true;
    }
    t.len() != 0
}
