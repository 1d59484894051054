// What is made of a loaded line, in a form that the caller chooses: one arm a form.
#![tactic(auto)]

ghost use Rattle.sift_form.specs.Promises.{TakesRoom, MakesForm};

use position::State;

// The forms: a sample for a fit; the line written back, with LF; the record of a store.
#[derive(Clone, Copy)]
pub enum Form {
    Sample,
    Text,
    Record,
}

// The most bytes that are made of a line.
pub fn room(form: Form) -> usize
    ensures { TakesRoom form result }
{
    match form {
        Form::Sample => fit_sample::SAMPLE,
        Form::Text => line_spell::inner::ENDED,
        Form::Record => store_record::inner::RECORD,
    }
}

// What is made of a position that a line gave, put into a lent buffer; of one that is at odds with itself nothing is.
pub fn make(
    form: Form,
    bitboards: &[u64],
    board: &[u8],
    state: State,
    half: u8,
    out: &mut [u8],
    at: usize,
) -> Option<usize>
    ensures { MakesForm form bitboards.now board.now state half out.old out.new at result }
{
    match form {
        Form::Sample => fit_sample::inner::put(bitboards, board, state, half, out, at),
        Form::Text => line_spell::inner::ended(board, state, half, out, at),
        Form::Record => {
            let record = store_record::inner::pack(board, state.side, half);
            text_out::put(out, at, &record)
        }
    }
}
