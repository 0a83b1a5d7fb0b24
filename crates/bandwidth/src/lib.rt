// A preference that follows bandwidth: a lost link lowers it by a step, a mended one raises it. The sum is what a returning router takes as its
// administrative preference.
#![tactic(auto)]

ghost use Rattle.std.specs.Prelude.{◌≡◌};
ghost use Rattle.bandwidth.specs.Bandwidth.{add_step, sum_of, GivesBack, KeepsOrder};

use refusals::Refusal;

pub const MAX_PREFERENCE: u16 = 65_535;

pub const MIN_STEP: i32 = -65_535;

pub const MAX_STEP: i32 = 65_535;

// Adds a step upon a preference: 19 for a step outside -65,535 to 65,535, else the sum, stopped at 0 and at 65,535. A step and the same step the
// other way give back the preference exactly if the first did not stop short; a larger preference or a larger step never gives a smaller sum.
#[tactic(auto, using(crate::proofs::Laws::step_laws))]
pub fn add_step(preference: u16, step: i32) -> Result<u16, Refusal>
    ensures answer { sum_of result ≡ add_step preference step }
    ensures gives_back { GivesBack preference }
    ensures keeps_order { KeepsOrder preference step }
{
    if step < MIN_STEP || MAX_STEP < step {
        return Err(Refusal::StepOutOfRange);
    }
    let sum = preference as i32 + step;
    if sum < 0 {
        return Ok(0);
    }
    if (MAX_PREFERENCE as i32) < sum {
        return Ok(MAX_PREFERENCE);
    }
    Ok(sum as u16)
}
