// What was read of a line, judged by a profile: total, and no door.
ghost use Rattle.line_profile.specs.Promises.{JudgesRead, JudgesPlayed};

use crate::Profile;
use position::State;
use refusal::Refusal;

// A refusal stays as it is; a position must keep the rules.
fn played(answer: Result<(State, u8), Refusal>, bitboards: &[u64]) -> Result<(State, u8), Refusal>
    ensures { JudgesPlayed bitboards.now answer result }
{
    let (state, _) = answer?;
    position_profile::inner::judge(bitboards, state)?;
    answer
}

// What was read under a profile, the bitboards of its position beside it.
pub fn under(
    profile: Profile,
    answer: Result<(State, u8), Refusal>,
    bitboards: &[u64],
) -> Result<(State, u8), Refusal>
    ensures { JudgesRead profile bitboards.now answer result }
{
    match profile {
        Profile::Any => answer,
        Profile::RealPlay => played(answer, bitboards),
    }
}
