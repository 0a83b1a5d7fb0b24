// What users link for ranges of tags (document 02, M-109), through `segment`: the setting of the ranges upon the state of a segment. It promises that it is one more call of the
// list.
#![tactic(auto)]

ghost use Rattle.refusals.specs.Numbers.{number_of};
ghost use Rattle.settings.specs.Settings.{ranges_given};
ghost use Rattle.segment_state.specs.State.{segment_in, ValidSegment, SetTold};
ghost use Rattle.demand3.specs.Calls as calls;
ghost use Rattle.demand3.specs.Demand3.{Follows};

use refusals::Refusal;
use segment_state::SETTINGS;

// Sets the ranges of tags that a run of numbers names, three to a range: its first tag, its last tag, and 2 (Highest-Preference) or 3 (Lowest-Preference). They replace all that
// were set, and an empty run clears them: 20 for ranges that overlap, run backwards or name a reserved tag, for more than 16, for a number that is neither 2 nor 3, and for a
// run that is no whole number of ranges; the old ones are then kept. It acts at once upon routes that are present.
pub fn set_ranges(s: &mut [u32], run: &[u32]) -> Result<(), Refusal>
    requires { ValidSegment s.old }
    ensures answer { SetTold (ranges_given (segment_in s.old).settings run.now) (segment_in s.old).table (number_of result) s.new }
    ensures kept { ValidSegment s.new }
    ensures call { calls.Changes (segment_in s.old) (calls.set_ranges run.now) (number_of result) (segment_in s.new) }
    ensures follows { Follows (segment_in s.old) (calls.set_ranges run.now) (calls.change_reply (number_of result)) (segment_in s.new) }
{
    settings::set_ranges(&mut s[SETTINGS..], run)
}
