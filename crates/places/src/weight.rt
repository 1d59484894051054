// The places of the weights: eleven that are named, then the square weights at 128·kind + 64·phase + square from 11.
ghost use Rattle.places.specs.Places.{AllNamed, SquareWeightOf, SquareWeightIndex, WeightOf, WeightIndex};

use crate::inner;
use crate::phase::Phase;
use chess::kind::Kind;
use chess::square::Square;

// The places of the named weights as plain numbers: pawn to queen, the bishop pair, mobility, tempo.
pub const P: usize = 0;

pub const N: usize = 1;

pub const B: usize = 2;

pub const R: usize = 3;

pub const Q: usize = 4;

pub const BP: usize = 5;

pub const MOB_N: usize = 6;

pub const MOB_B: usize = 7;

pub const MOB_R: usize = 8;

pub const MOB_Q: usize = 9;

pub const T: usize = 10;

// A square weight among the 768.
#[derive(Clone, Copy)]
pub struct SquareWeight(usize);

impl SquareWeight {
    pub const COUNT: usize = Kind::COUNT * SquareWeight::PER_KIND;

    pub const PER_KIND: usize = Phase::COUNT * SquareWeight::PER_PHASE;

    pub const PER_PHASE: usize = Square::COUNT;

    pub fn of(kind: Kind, phase: Phase, square: Square) -> SquareWeight
        ensures { SquareWeightOf kind phase square result }
    {
        SquareWeight(inner::weight(kind.index(), phase.index(), square.index()))
    }

    pub fn index(self) -> usize
        ensures { SquareWeightIndex self result }
    {
        self.0
    }
}

// A weight among all 779.
#[derive(Clone, Copy)]
pub struct Weight(usize);

impl Weight {
    // How many have a name.
    pub const NAMED: usize = 11;

    pub const COUNT: usize = Weight::NAMED + SquareWeight::COUNT;

    pub const P: Weight = Weight(P);

    pub const N: Weight = Weight(N);

    pub const B: Weight = Weight(B);

    pub const R: Weight = Weight(R);

    pub const Q: Weight = Weight(Q);

    pub const BP: Weight = Weight(BP);

    pub const MOB_N: Weight = Weight(MOB_N);

    pub const MOB_B: Weight = Weight(MOB_B);

    pub const MOB_R: Weight = Weight(MOB_R);

    pub const MOB_Q: Weight = Weight(MOB_Q);

    pub const T: Weight = Weight(T);

    // Those that have a name, in document 01's order: entry k is place k.
    #[rattlefmt::skip]
    pub const ALL_NAMED: [Weight; Weight::NAMED] = [
        Weight::P, Weight::N, Weight::B, Weight::R, Weight::Q, Weight::BP,
        Weight::MOB_N, Weight::MOB_B, Weight::MOB_R, Weight::MOB_Q, Weight::T,
    ];

    pub fn all_named() -> [Weight; Weight::NAMED]
        ensures { AllNamed result }
    {
        Weight::ALL_NAMED
    }

    pub fn of(square: SquareWeight) -> Weight
        ensures { WeightOf square result }
    {
        let at = square.0;
        if at < SquareWeight::COUNT {
            return Weight(Weight::NAMED + at);
        }
        Weight(Weight::NAMED)
    }

    pub fn index(self) -> usize
        ensures { WeightIndex self result }
    {
        self.0
    }
}
