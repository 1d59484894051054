// The end of a file that another may follow: what is fed after it, so that its last line ends there and says what it says.
#![tactic(auto)]

ghost use Rattle.ledger_files.specs.Files.{EndsFile};

use ledger_feed::SoFar;

// What ends the line that a file leaves unfinished: nothing where there is none, an LF, or CR LF where it ends in a CR. One CR before an
// LF is dropped, so the line keeps its own.
#[derive(Clone, Copy)]
pub enum Ending {
    Nothing,
    Lf,
    CrLf,
}

pub fn closing(state: SoFar) -> Ending
    ensures { EndsFile state result }
{
    if state.held == 0 {
        return Ending::Nothing;
    }
    if state.cr {
        return Ending::CrLf;
    }
    Ending::Lf
}
