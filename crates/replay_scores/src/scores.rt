// Questions of the score: square weights, verdict, material, score.
use crate::byte;
use crate::reply::Reply;
use position::State;
use refusal::Refusal;
use replay_question::NUMBERS;
use score::Scored;
use score_verdict::Verdict;
use text_in::inner::is;

pub(crate) fn answer(
    word: &[u8],
    n: [u64; NUMBERS],
    bitboards: &[u64],
    board: &[u8],
    state: State,
) -> Reply {
    if is(word, b"eval") {
        return scored(score::eval(bitboards, board, state));
    }
    if is(word, b"ending") {
        return ended(score_verdict::eval_ending(bitboards, board, state));
    }
    if is(word, b"material") {
        return weighed(score_material::eval_material(bitboards, board, state, byte(n[0])));
    }
    if is(word, b"pst") {
        return weight(byte(n[0]), byte(n[1]), byte(n[2]));
    }
    Reply::Nothing
}

fn weight(code: u8, square: u8, phase: u8) -> Reply {
    let table = score_pst::inner::table();
    Reply::Score(score_pst::inner::weight(&table, code, square, phase))
}

pub(crate) fn scored(scored: Result<Scored, Refusal>) -> Reply {
    match scored {
        Ok(Scored::Lost) => Reply::Word(Some(Verdict::Lost)),
        Ok(Scored::Won) => Reply::Word(Some(Verdict::Won)),
        Ok(Scored::Drawn) => Reply::Word(Some(Verdict::Drawn)),
        Ok(Scored::Score(z)) => Reply::Score(z),
        Err(r) => Reply::Refused(r),
    }
}

fn ended(ending: Result<Option<Verdict>, Refusal>) -> Reply {
    match ending {
        Ok(verdict) => Reply::Word(verdict),
        Err(r) => Reply::Refused(r),
    }
}

fn weighed(material: Result<i16, Refusal>) -> Reply {
    match material {
        Ok(total) => Reply::Score(total),
        Err(r) => Reply::Refused(r),
    }
}
