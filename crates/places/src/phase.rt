// A phase of the game: the opening is 0, the ending 1.
ghost use Rattle.places.specs.Phases.{AllPhases, NewPhase, PhaseIndex};

use refusal::Refusal;

// The phases as plain numbers.
pub const OPENING: u8 = 0;

pub const ENDING: u8 = 1;

// `new` and the constants make no number out of range.
#[derive(Clone, Copy)]
pub struct Phase(u8);

impl Phase {
    pub const COUNT: usize = 2;

    pub const OPENING: Phase = Phase(OPENING);

    pub const ENDING: Phase = Phase(ENDING);

    // Both, the opening first: entry k is phase k.
    pub const ALL: [Phase; Phase::COUNT] = [Phase::OPENING, Phase::ENDING];

    pub fn all() -> [Phase; Phase::COUNT]
        ensures { AllPhases result }
    {
        Phase::ALL
    }

    // Any other number is refused as SHAPE.
    pub fn new(index: u8) -> Result<Phase, Refusal>
        ensures { NewPhase index result }
    {
        if Phase::ENDING.0 < index {
            return Err(Refusal::Shape);
        }
        Ok(Phase(index))
    }

    pub fn index(self) -> u8
        ensures { PhaseIndex self result }
    {
        self.0
    }
}
