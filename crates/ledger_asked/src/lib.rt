// What a call of the ledger program asks for, by its first two arguments.
#![tactic(auto)]

ghost use Rattle.ledger_asked.specs.Called.{AsksFor};

use line_profile::Profile;
use text_in::inner::is;

// The first argument that may name a file: after the program's name, or after the option and its value.
const FILES: usize = 1;

const FILES_BEHIND: usize = 3;

// The profile, and the first argument that names a file, if there is one; none for a profile that there is not. The arguments come as words, empty where
// there is none. A profile that is not known is never taken for no profile.
pub fn read_call(first: &[u8], second: &[u8]) -> Option<(Profile, usize)>
    ensures { AsksFor first.now second.now result }
{
    if !is(first, b"--profile") {
        return Some((Profile::Any, FILES));
    }
    if is(second, b"real-play") {
        return Some((Profile::RealPlay, FILES_BEHIND));
    }
    None
}
