// Whether the output of a program that leaves refused lines out stands, and whether its caller allows that.
#![tactic(auto)]

ghost use Rattle.sift_allowed.specs.Settled.{OutputStands};

use std::env::FillError;
use std::rt::Env;
use text_in::inner::is;

// Whether the output stands: no line was refused, or refused lines are allowed.
pub fn settled(refused: u64, allowed: bool) -> bool
    ensures { OutputStands refused allowed result }
{
    if refused == 0 {
        return true;
    }
    allowed
}

// Whether the one argument there may be allows refused lines.
pub fn allows<R: Env>(rt: &R) -> bool {
    let mut name = io::buffer();
    match rt.arg(1, &mut name) {
        Ok(n) => is(&name[..n], b"allow"),
        Err(FillError::NotPresent) => false,
        Err(FillError::TooLong) => false,
    }
}
