// The sum over a collection, read piece by piece: what line_cut finds to be a line is read, scored and added.
#![tactic(auto)]

ghost use Rattle.score_collection.specs.Promises.{Begins, Gathers, EndsCollection};

use line_cut::{Begun, LINE};
use refusal::Refusal;
use score_errors::Totals;

pub mod inner;

// What lines came to: the totals, how many lines were refused, and whether a count had no room for one more.
#[derive(Clone, Copy)]
pub struct Sum {
    pub totals: Totals,
    pub refused: u64,
    pub full: bool,
}

// The lines so far, and what is known of the unfinished one beside its bytes in the line buffer.
#[derive(Clone, Copy)]
pub struct Gathered {
    pub begun: Begun,
    pub sum: Sum,
}

// Before anything was read.
pub fn begin() -> Gathered
    ensures { Begins result }
{
    Gathered {
        begun: Begun { held: 0, cr: false },
        sum: Sum {
            totals: score_errors::start(),
            refused: 0,
            full: false,
        },
    }
}

// Takes a piece of any size. SHAPE.
pub fn feed(gathered: Gathered, line: &mut [u8], chunk: &[u8]) -> Result<Gathered, Refusal>
    ensures { Gathers gathered line.old chunk.now result line.new }
{
    if line.len() != LINE {
        return Err(Refusal::Shape);
    }
    let expected = score_expected::inner::table();
    Ok(inner::take(gathered, line, chunk, &expected))
}

// The end of the input: an unfinished line ends there. The totals of the whole collection, and how many of its lines were refused: SHAPE, MANY.
pub fn end(gathered: Gathered, line: &[u8]) -> Result<(Totals, u64), Refusal>
    ensures { EndsCollection gathered line.now result }
{
    if line.len() != LINE {
        return Err(Refusal::Shape);
    }
    let expected = score_expected::inner::table();
    let begun = gathered.begun;
    let held = begun.held;
    inner::outcome(inner::counted(gathered.sum, line, 0 < held, held, &expected))
}
