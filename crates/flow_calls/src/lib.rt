// What users link for multicast flows (document 02, M-106), through `segment`: the setting of the algorithm numbers and the elections for the flows (S,G) and (*,G), upon the
// state of a segment. Each call promises that it is one more call of the list.
#![tactic(auto)]

ghost use Rattle.std.specs.Prelude.{◌≡◌};
ghost use Rattle.std.specs.Int.Count.{ones};
ghost use Rattle.ready.specs.Ready.{ready_in};
ghost use Rattle.refusals.specs.Numbers.{number_of};
ghost use Rattle.settings.specs.Settings.{numbers_set};
ghost use Rattle.segment_state.specs.State.{segment_in, ValidSegment, SetTold};
ghost use Rattle.answers.specs.Answers.{answer_of, Forwarder};
ghost use Rattle.election.specs.Queries.{by_source_group, by_any_source, method_of, candidates_of, elect_with, NoneNamed};
ghost use Rattle.demand3.specs.Calls as calls;
ghost use Rattle.demand3.specs.Demand3.{Follows};

use answers::Elected;
use refusals::Refusal;
use segment_state::SETTINGS;

// Sets the algorithm numbers of the elections by flow, that for (S,G) and that for (*,G): 15 unless they are two different ones from 4 to 30, and then the old ones are
// kept. It acts at once upon routes that are present.
pub fn set_flow_algorithms(s: &mut [u32], source_group: u8, any_source: u8) -> Result<(), Refusal>
    requires { ValidSegment s.old }
    ensures answer { SetTold (numbers_set (segment_in s.old).settings source_group any_source) (segment_in s.old).table (number_of result) s.new }
    ensures kept { ValidSegment s.new }
    ensures call { calls.Changes (segment_in s.old) (calls.set_numbers source_group any_source) (number_of result) (segment_in s.new) }
    ensures follows { Follows (segment_in s.old) (calls.set_numbers source_group any_source) (calls.change_reply (number_of result)) (segment_in s.new) }
{
    settings::set_numbers(&mut s[SETTINGS..], source_group, any_source)
}

// Elects the Designated Forwarder for the multicast flow (S,G) in a tag, by the octets of S and G: 10 and 11 as for a tag, then 18 unless S and G are both of 4 or both of
// 16 octets, 12 where no route is eligible. Where all routes carry the number that is set for (S,G) and one AC-DF bit, the number is told as the algorithm in use, and the
// flow has a forwarder of its own; otherwise the answer is that of `elect`.
pub fn elect_source_group(
    s: &[u32],
    source: &[u8],
    group: &[u8],
    tag: u32,
    ready: &[u32],
) -> Result<Elected, Refusal>
    requires { ValidSegment s.now }
    ensures answer { answer_of result ≡ elect_with (segment_in s.now).settings (by_source_group source.now group.now) (segment_in s.now).table.esi (segment_in s.now).table.entries tag (ready_in ready.now) }
    ensures counted { (answer_of result).n ≡ ones (answer_of result).candidates }
    ensures none_named { NoneNamed (segment_in s.now).settings (by_source_group source.now group.now) (segment_in s.now).table.entries tag (ready_in ready.now) (answer_of result) }
    ensures forwarder { (answer_of result).number ≡ 0 → Forwarder (method_of (segment_in s.now).settings (by_source_group source.now group.now) (segment_in s.now).table.esi (segment_in s.now).table.entries tag) (candidates_of (segment_in s.now).settings (segment_in s.now).table.entries (ready_in ready.now)) tag (answer_of result) }
    ensures call { calls.reply_to (segment_in s.now) (calls.elect (by_source_group source.now group.now) tag (ready_in ready.now)) ≡ calls.elect_reply (answer_of result) }
    ensures follows { Follows (segment_in s.now) (calls.elect (by_source_group source.now group.now) tag (ready_in ready.now)) (calls.elect_reply (answer_of result)) (segment_in s.now) }
{
    flow_election::elect_source_group(&s[..SETTINGS], &s[SETTINGS..], source, group, tag, ready)
}

// The same for the multicast flow (*,G), by the octets of G: 18 unless G is of 4 or of 16 octets.
pub fn elect_any_source(
    s: &[u32],
    group: &[u8],
    tag: u32,
    ready: &[u32],
) -> Result<Elected, Refusal>
    requires { ValidSegment s.now }
    ensures answer { answer_of result ≡ elect_with (segment_in s.now).settings (by_any_source group.now) (segment_in s.now).table.esi (segment_in s.now).table.entries tag (ready_in ready.now) }
    ensures counted { (answer_of result).n ≡ ones (answer_of result).candidates }
    ensures none_named { NoneNamed (segment_in s.now).settings (by_any_source group.now) (segment_in s.now).table.entries tag (ready_in ready.now) (answer_of result) }
    ensures forwarder { (answer_of result).number ≡ 0 → Forwarder (method_of (segment_in s.now).settings (by_any_source group.now) (segment_in s.now).table.esi (segment_in s.now).table.entries tag) (candidates_of (segment_in s.now).settings (segment_in s.now).table.entries (ready_in ready.now)) tag (answer_of result) }
    ensures call { calls.reply_to (segment_in s.now) (calls.elect (by_any_source group.now) tag (ready_in ready.now)) ≡ calls.elect_reply (answer_of result) }
    ensures follows { Follows (segment_in s.now) (calls.elect (by_any_source group.now) tag (ready_in ready.now)) (calls.elect_reply (answer_of result)) (segment_in s.now) }
{
    flow_election::elect_any_source(&s[..SETTINGS], &s[SETTINGS..], group, tag, ready)
}
