// The doors to a position and a line, exported for C and Rust: each calls the function of its name in `abi`,
// and promises what that promises.
#![tactic(auto)]

ghost use Rattle.abi.specs.Promises.{PieceAttacks, AttacksTo, IsAttacked, IsCheck, Lvp, See, ReadsLine, GivesPart, EvalsEnding, EvalsMaterial, Evals};

use abi::lines::Line;
use abi_codes::Code;
use abi_states::State;
use chess::kind::Kind;
use line::Part;

#[unsafe(no_mangle)]
pub extern "C" fn chess_piece_attacks(
    piece: u8,
    square: u8,
    occupied: u64,
    squares: &mut u64,
) -> Code
    ensures { PieceAttacks piece square occupied squares.old result squares.new }
{
    abi::attacks::chess_piece_attacks(piece, square, occupied, squares)
}

#[unsafe(no_mangle)]
pub extern "C" fn chess_attacks_to(
    bitboards: &[u64],
    board: &[u8],
    state: State,
    square: u8,
    occupied: u64,
    squares: &mut u64,
) -> Code
    ensures { AttacksTo bitboards.now board.now state square occupied squares.old result squares.new }
{
    abi::attacks::chess_attacks_to(bitboards, board, state, square, occupied, squares)
}

#[unsafe(no_mangle)]
pub extern "C" fn chess_is_attacked(
    bitboards: &[u64],
    board: &[u8],
    state: State,
    square: u8,
    color: u8,
    attacked: &mut bool,
) -> Code
    ensures { IsAttacked bitboards.now board.now state square color attacked.old result attacked.new }
{
    abi::attacks::chess_is_attacked(bitboards, board, state, square, color, attacked)
}

#[unsafe(no_mangle)]
pub extern "C" fn chess_is_check(
    bitboards: &[u64],
    board: &[u8],
    state: State,
    color: u8,
    check: &mut bool,
) -> Code
    ensures { IsCheck bitboards.now board.now state color check.old result check.new }
{
    abi::attacks::chess_is_check(bitboards, board, state, color, check)
}

#[unsafe(no_mangle)]
pub extern "C" fn chess_lvp(
    bitboards: &[u64],
    board: &[u8],
    state: State,
    order: &[u8; Kind::COUNT],
    color: u8,
    attacks: u64,
    occupied: u64,
    found: &mut bool,
    square: &mut u8,
    kind: &mut u8,
) -> Code
    ensures { Lvp order.now bitboards.now board.now state color attacks occupied found.old square.old kind.old result found.new square.new kind.new }
{
    abi::exchanges::chess_lvp(
        bitboards, board, state, order, color, attacks, occupied, found, square, kind,
    )
}

#[unsafe(no_mangle)]
pub extern "C" fn chess_see(
    bitboards: &[u64],
    board: &[u8],
    state: State,
    mode: u8,
    order: &[u8; Kind::COUNT],
    from: u8,
    to: u8,
    worth: &mut i16,
) -> Code
    ensures { See mode order.now bitboards.now board.now state from to worth.old result worth.new }
{
    abi::exchanges::chess_see(bitboards, board, state, mode, order, from, to, worth)
}

#[unsafe(no_mangle)]
pub extern "C" fn chess_read_line(line: &[u8], bitboards: &mut [u64], board: &mut [u8]) -> Line
    ensures { ReadsLine line.now bitboards.old board.old result bitboards.new board.new }
{
    abi::lines::chess_read_line(line, bitboards, board)
}

#[unsafe(no_mangle)]
pub extern "C" fn chess_position_field(line: &[u8]) -> Part
    ensures { GivesPart line.now result }
{
    abi::lines::chess_position_field(line)
}

#[unsafe(no_mangle)]
pub extern "C" fn chess_eval_ending(
    bitboards: &[u64],
    board: &[u8],
    state: State,
    verdict: &mut u8,
) -> Code
    ensures { EvalsEnding bitboards.now board.now state verdict.old result verdict.new }
{
    abi::scores::chess_eval_ending(bitboards, board, state, verdict)
}

#[unsafe(no_mangle)]
pub extern "C" fn chess_eval_material(
    bitboards: &[u64],
    board: &[u8],
    state: State,
    color: u8,
    material: &mut i16,
) -> Code
    ensures { EvalsMaterial bitboards.now board.now state color material.old result material.new }
{
    abi::scores::chess_eval_material(bitboards, board, state, color, material)
}

#[unsafe(no_mangle)]
pub extern "C" fn chess_eval(
    bitboards: &[u64],
    board: &[u8],
    state: State,
    verdict: &mut u8,
    score: &mut i16,
) -> Code
    ensures { Evals bitboards.now board.now state verdict.old score.old result verdict.new score.new }
{
    abi::scores::chess_eval(bitboards, board, state, verdict, score)
}
