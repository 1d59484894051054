// On any bitboards: total, and no door.
ghost use Rattle.std.specs.Prelude.{◌≡◌, ◌≤◌};
ghost use Rattle.score_tally.specs.PrivateWalked.{Small, together_of, sums_of, side_with, both_with};
ghost use Rattle.score_tally.specs.Promises.{Tallies};

use crate::{BISHOP_MOBILITY, KNIGHT_MOBILITY, QUEEN_MOBILITY, ROOK_MOBILITY, Sides};
use attack::inner::{occupied, standing};
use chess::color::{BLACK, WHITE};
use chess::kind::{BISHOP, KING, KNIGHT, PAWN, QUEEN, ROOK};
use score_material::inner::{material, pair};
use score_taper::Side;
use score_walks::Walked;
use score_walks::inner::{bishops, kings, knights, pawns, queens, rooks};
use score_weights::inner::{ending, opening};

// A colour's six boards: their words, added, and their mobility in tenths.
#[derive(Clone, Copy)]
struct ColorSums {
    words: u64,
    mobility: u32,
}

// The sums of a colour's six boards.
fn together(
    pawns: u64,
    knights: Walked,
    bishops: Walked,
    rooks: Walked,
    queens: Walked,
    kings: u64,
) -> ColorSums
    requires { (pawns ≤ 70385185865024) × Small knights × Small bishops × Small rooks × Small queens × (kings ≤ 70385185865024) }
    ensures { result ≡ together_of pawns knights bishops rooks queens kings }
{
    ColorSums {
        words: pawns + knights.words + bishops.words + rooks.words + queens.words + kings,
        mobility: knights.attacked * KNIGHT_MOBILITY
            + bishops.attacked * BISHOP_MOBILITY
            + rooks.attacked * ROOK_MOBILITY
            + queens.attacked * QUEEN_MOBILITY,
    }
}

fn sums(bitboards: &[u64], color: u8, occupied: u64) -> ColorSums
    ensures { result ≡ sums_of bitboards.now color occupied }
{
    let pawns = pawns(standing(bitboards, PAWN, color), color);
    let knights = knights(standing(bitboards, KNIGHT, color), color);
    let bishops = bishops(standing(bitboards, BISHOP, color), color, occupied);
    let rooks = rooks(standing(bitboards, ROOK, color), color, occupied);
    let queens = queens(standing(bitboards, QUEEN, color), color, occupied);
    let kings = kings(standing(bitboards, KING, color), color);
    together(pawns, knights, bishops, rooks, queens, kings)
}

// A colour's side, once its sums are made.
fn side(bitboards: &[u64], color: u8, opening: i32, ending: i32, mobility: u32) -> Side
    ensures { result ≡ side_with bitboards.now color opening ending mobility }
{
    Side {
        opening,
        ending,
        material: material(bitboards, color) + pair(bitboards, color),
        mobility,
    }
}

// Both colours' sides, once their sums are made.
fn both(bitboards: &[u64], position: [[i32; 2]; 2], mobility: [u32; 2]) -> Sides
    ensures { result ≡ both_with bitboards.now position mobility }
{
    Sides {
        white: side(
            bitboards,
            WHITE,
            position[0][0],
            position[0][1],
            mobility[0],
        ),
        black: side(
            bitboards,
            BLACK,
            position[1][0],
            position[1][1],
            mobility[1],
        ),
    }
}

// What both colours bring.
pub fn tally(bitboards: &[u64]) -> Sides
    ensures { Tallies bitboards.now result }
{
    let occupied = occupied(bitboards);
    let white = sums(bitboards, WHITE, occupied);
    let black = sums(bitboards, BLACK, occupied);
    let mut position = [[0i32; 2]; 2];
    position[0][0] += opening(white.words);
    position[0][1] += ending(white.words);
    position[1][0] += opening(black.words);
    position[1][1] += ending(black.words);
    both(bitboards, position, [white.mobility, black.mobility])
}
