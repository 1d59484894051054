// A mode of the exchange as a number that C hands over.
#![tactic(auto)]

ghost use Rattle.abi_modes.specs.Modes.{NamesMode};

use exchange_start::Mode;
use refusal::Refusal;

const FIRST: u8 = 0;

const SECOND: u8 = 1;

// 0 and 1; any other number is SHAPE.
pub fn mode_of(number: u8) -> Result<Mode, Refusal>
    ensures { NamesMode number result }
{
    if number == FIRST {
        return Ok(Mode::First);
    }
    if number == SECOND {
        return Ok(Mode::Second);
    }
    Err(Refusal::Shape)
}
