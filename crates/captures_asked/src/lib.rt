// What a call of the captures program asks for, by its arguments.
#![tactic(auto)]

ghost use Rattle.captures_asked.specs.Called.{AsksMode};

use exchange_start::Mode;
use text_in::inner::is;

// The arguments of a call without options, and of one with an option: the program's name is the first.
const BARE: usize = 1;

const WITH_OPTION: usize = 2;

// The mode of the exchanges, by how many arguments there are and the one after the program's name as a word; none for a call that there is not. What is not
// known is never taken for a mode.
pub fn read_call(count: usize, option: &[u8]) -> Option<Mode>
    ensures { AsksMode count option.now result }
{
    if count <= BARE {
        return Some(Mode::First);
    }
    if count > WITH_OPTION {
        return None;
    }
    if is(option, b"--second") {
        return Some(Mode::Second);
    }
    None
}
