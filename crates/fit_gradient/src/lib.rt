// One line's part of the gradient, as `compute_gradient` has it, added to 779 sums that are lent: one rounding for each operation.
#![tactic(auto)]

ghost use Rattle.std.specs.Prelude.{◌≡◌, true, T, pos, length, get_or, ◌+◌, ◌*◌, ◌<◌};
ghost use Rattle.trace_list.specs.Ones.{over};
ghost use Rattle.trace_list.specs.Form.{is_list, list_places};
ghost use Rattle.fit_gradient.specs.Gradient.{count_part, mobility_part, named_parts, first_raised};
ghost use Rattle.fit_gradient.specs.Marks.{parts_of, both_raised, colour_part, marked_by, entry_by, squares_by};
ghost use Rattle.trace_counts.specs.Ranges.{are_entries};
ghost use Rattle.trace_marks.specs.Marks.{groups_of, fold_from};
ghost use Rattle.fit_gradient.specs.Promises.{AddsTrace};
ghost use Rattle.fit_gradient.specs.Lists.{mark_one, AddsList};

use chess::color::Color;
use chess::inner::index;
use chess::piece::Piece;
use places::entry::Entry;
use places::weight::{SquareWeight, Weight};
use refusal::Refusal;
use trace_counts::Trace;
use trace_list::{BYTES, PER_ENTRY};
use trace_marks::GROUP;

// The kinds whose attacked squares are weighed.
const KNIGHT: usize = chess::kind::KNIGHT as usize;

const BISHOP: usize = chess::kind::BISHOP as usize;

const ROOK: usize = chess::kind::ROOK as usize;

const QUEEN: usize = chess::kind::QUEEN as usize;

// The difference of two counts, times the coefficient. It is taken in 64 bits, where no two counts overflow.
fn count_part(coefficient: f64, counts: [i32; 2]) -> f64
    ensures { result ≡ count_part coefficient counts }
{
    coefficient * (counts[0] as i64 - counts[1] as i64) as f64
}

fn mobility_part(coefficient: f64, mobility: [i32; Piece::COUNT], kind: usize) -> f64
    requires { kind < 6 }
    ensures { result ≡ mobility_part coefficient (get_or mobility (2 * kind) (pos 0)) (get_or mobility (2 * kind + 1) (pos 0)) }
{
    let white = mobility[Color::COUNT * kind];
    let black = mobility[Color::COUNT * kind + 1];
    coefficient * (white as i64 - black as i64) as f64 / 10.0
}

// What each weight that has a name is raised by.
fn named_parts(trace: Trace, coefficient: f64) -> [f64; Weight::NAMED]
    ensures { result ≡ named_parts trace coefficient }
{
    let pawns = trace.pawns;
    let knights = trace.knights;
    let bishops = trace.bishops;
    let rooks = trace.rooks;
    let queens = trace.queens;
    let bishop_pair = trace.bishop_pair;
    let mobility = trace.mobility;
    [
        count_part(coefficient, pawns),
        count_part(coefficient, knights),
        count_part(coefficient, bishops),
        count_part(coefficient, rooks),
        count_part(coefficient, queens),
        count_part(coefficient, bishop_pair),
        mobility_part(coefficient, mobility, KNIGHT),
        mobility_part(coefficient, mobility, BISHOP),
        mobility_part(coefficient, mobility, ROOK),
        mobility_part(coefficient, mobility, QUEEN),
        coefficient * trace.side as f64,
    ]
}

fn named_added(parts: &[f64; Weight::NAMED], gradient: &mut [f64])
    requires { length gradient.old ≡ 779 }
    ensures { (gradient.new ≡ first_raised parts.now gradient.old 11) × (length gradient.new ≡ 779) }
{
    for (i, part) in parts.iter().enumerate() {
        gradient[i] = gradient[i] + *part;
    }
}

// What an entry raises its two weights by, by its colour.
#[derive(Clone, Copy)]
struct Parts {
    white_opening: f64,
    white_ending: f64,
    black_opening: f64,
    black_ending: f64,
}

fn square_parts(coefficient: f64, x: f64) -> Parts
    ensures { result ≡ parts_of coefficient x }
{
    Parts {
        white_opening: coefficient * 1.0 * 1.0 * (2.0 - x) / (2.0 - 32.0),
        white_ending: coefficient * 1.0 * 1.0 * (x - 32.0) / (2.0 - 32.0),
        black_opening: coefficient * -1.0 * 1.0 * (2.0 - x) / (2.0 - 32.0),
        black_ending: coefficient * -1.0 * 1.0 * (x - 32.0) / (2.0 - 32.0),
    }
}

// The weights of the entry at k are raised.
fn raise(gradient: &mut [f64], k: usize, opening: f64, ending: f64)
    requires { (length gradient.old ≡ 779) × (k < 768) }
    ensures { (gradient.new ≡ both_raised gradient.old k opening ending) × (length gradient.new ≡ 779) }
{
    let at = Weight::NAMED
        + k / SquareWeight::PER_KIND * SquareWeight::PER_KIND
        + k % Entry::PER_KIND / Entry::PER_SQUARE;
    let later = at + SquareWeight::PER_PHASE;
    gradient[at] = gradient[at] + opening;
    gradient[later] = gradient[later] + ending;
}

// White's part or Black's, by the colour of the entry at k; a choice, and no jump that would have to be guessed.
fn of_colour(k: usize, white: f64, black: f64) -> f64
    ensures { result ≡ colour_part k white black }
{
    if k % Color::COUNT == 0 { white } else { black }
}

// Nothing where the entry is 0.
fn mark(gradient: &mut [f64], parts: Parts, k: usize, entry: i32)
    requires { (length gradient.old ≡ 779) × (k < 768) }
    ensures { (gradient.new ≡ marked_by parts gradient.old k entry) × (length gradient.new ≡ 779) }
{
    if entry == 0 {
        return;
    }
    let opening = of_colour(k, parts.white_opening, parts.black_opening);
    let ending = of_colour(k, parts.white_ending, parts.black_ending);
    raise(gradient, k, opening, ending);
}

// A group's entries, one after the other: those that are 0 are passed over.
fn group_marked(gradient: &mut [f64], parts: Parts, entries: &[i32], group: usize)
    requires { (length gradient.old ≡ 779) × (length entries.now ≡ 768) × (group < 48) × (are_entries entries.now ≡ true) }
    ensures { (gradient.new ≡ fold_from (entry_by parts entries.now) gradient.old (16 * group) 16) × (length gradient.new ≡ 779) }
{
    let mut rest = trace_marks::ones(entries, group);
    loop {
        let n = bits::next(rest);
        let Some((j, r)) = n else {
            return;
        };
        let k = GROUP * group + (j as usize);
        mark(gradient, parts, k, entries[k]);
        rest = r;
    }
}

// All 768, one after the other: the groups that have a 1.
fn squares_added(gradient: &mut [f64], parts: Parts, entries: &[i32], groups: u64)
    requires { (length gradient.old ≡ 779) × (length entries.now ≡ 768) × (are_entries entries.now ≡ true) × (groups ≡ groups_of entries.now 48) }
    ensures { gradient.new ≡ squares_by parts entries.now gradient.old 768 }
{
    let mut rest = groups;
    loop {
        let n = bits::next(rest);
        let Some((group, r)) = n else {
            return;
        };
        group_marked(gradient, parts, entries, group as usize);
        rest = r;
    }
}

// The 768 entries and the 779 sums are lent. SHAPE, then TRACE.
pub fn add(
    trace: Trace,
    entries: &[i32],
    coefficient: f64,
    gradient: &mut [f64],
) -> Result<(), Refusal>
    ensures { AddsTrace trace entries.now coefficient gradient.old result gradient.new }
{
    if entries.len() != Entry::COUNT {
        return Err(Refusal::Shape);
    }
    if gradient.len() != Weight::COUNT {
        return Err(Refusal::Shape);
    }
    let seen = trace_marks::seen(entries);
    if trace.in_ranges() & seen.entries {
        let named = named_parts(trace, coefficient);
        let squares = square_parts(coefficient, trace.piece_count as f64);
        named_added(&named, gradient);
        squares_added(gradient, squares, entries, seen.groups);
        return Ok(());
    }
    Err(Refusal::Trace)
}

// The entries of a list, one after the other. White's part and Black's stand side by side and are picked by the colour: there is no jump on it to be
// guessed, and no part is worked out again.
fn list_added(gradient: &mut [f64], parts: Parts, used: usize, bytes: &[u8; BYTES])
    requires { (length gradient.old ≡ 779) × T (is_list used bytes.now) }
    ensures { gradient.new ≡ over (mark_one parts) gradient.old (list_places bytes.now used) }
{
    let opening = [parts.white_opening, parts.black_opening];
    let ending = [parts.white_ending, parts.black_ending];
    for i in 0..used {
        let at = PER_ENTRY * i;
        let k = places::inner::entry(bytes[at], bytes[at + 1], bytes[at + 2]);
        raise(
            gradient,
            k,
            opening[k % Color::COUNT],
            ending[k % Color::COUNT],
        );
    }
}

// The same from a list: the list and the 779 sums are lent. SHAPE, TRACE, then ENTRY.
pub fn add_list(
    trace: Trace,
    used: u8,
    bytes: &[u8; BYTES],
    coefficient: f64,
    gradient: &mut [f64],
) -> Result<(), Refusal>
    ensures { AddsList trace used bytes.now coefficient gradient.old result gradient.new }
{
    if gradient.len() != Weight::COUNT {
        return Err(Refusal::Shape);
    }
    if trace.in_ranges() {
        if trace_list::is_list(used, bytes) {
            let named = named_parts(trace, coefficient);
            let squares = square_parts(coefficient, trace.piece_count as f64);
            named_added(&named, gradient);
            list_added(gradient, squares, index(used), bytes);
            return Ok(());
        }
        return Err(Refusal::Entry);
    }
    Err(Refusal::Trace)
}
