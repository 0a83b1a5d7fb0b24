// What users link: the calls of one segment, those for multicast flows (`flow_calls`), for ranges of tags (`range_calls`) and for the second in line (`backup_calls`, and `candidate_list` over a list of candidates), and those of the table of its Ethernet A-D routes
// (`circuit_calls`). The state of a segment is 490 words, its route table and what the operator has set, which the fresh call makes and the others are lent.
// The fresh call promises demand 3 of every list of calls; each call promises that it is one more call of the list.
#![tactic(auto)]

ghost use Rattle.std.specs.Prelude.{◌≡◌, ◌<◌, List, [], true, false};
ghost use Rattle.std.specs.Int.Count.{ones};
ghost use Rattle.refusals.specs.Numbers.{number_at, number_of, offset_at};
ghost use Rattle.address.specs.Address.{address_row};
ghost use Rattle.ready.specs.Ready.{ready_in};
ghost use Rattle.route.specs.Route.{Fault, route_number};
ghost use Rattle.table.specs.Table.{fresh_table, announced, withdrawn};
ghost use Rattle.settings.specs.Settings.{nothing_set, any_range};
ghost use Rattle.segment_state.specs.State.{fresh_segment, segment_in, ValidSegment, SegmentTold};
ghost use Rattle.answers.specs.Answers.{answer_of, Forwarder};
ghost use Rattle.election.specs.Election.{elect_of};
ghost use Rattle.election.specs.Queries.{plain, method_of, candidates_of, elect_with, NoneNamed};
ghost use Rattle.returning.specs.Returning.{returning_of, returning_with, sent_in};
ghost use Rattle.demand3.specs.Calls as calls;
ghost use Rattle.demand3.specs.Demand3.{Demand3, Follows, segment_after};
ghost use Rattle.bystander.specs.Bystander.{Undisturbed};
ghost use Rattle.non_revertive.specs.NonRevertive.{NonRevertive};
ghost use Rattle.one_forwarder.specs.OneForwarder.{Once, OneForwarder};
ghost use Rattle.demand3.specs.Values.{starred, all_right};

use address::Address;
use answers::Elected;
pub use backup_calls::{name_backup, name_backup_by_circuits};
pub use candidate_list::{Candidate, name_backup_in};
pub use circuit_calls::{announce_circuit, elect_by_circuits, fresh_circuits, withdraw_circuit};
pub use circuits::Scope;
pub use flow_calls::{elect_any_source, elect_source_group, set_flow_algorithms};
pub use range_calls::set_ranges;
use refusals::{Refusal, RefusalAt};
use returning::Pair;
use segment_state::SETTINGS;
pub use segment_state::WORDS;

// A fresh segment: whether the identifier is refused, and the words of its state, which has no route either way.
#[derive(Drop)]
pub struct Made {
    pub answer: Result<(), Refusal>,
    pub state: [u32; WORDS],
}

// A fresh segment for an identifier, with no route and none set. For a reserved identifier, or one that is not ten octets, 4 and the empty table of the all-zero one.
// It is the state that the empty list of calls leaves. Whatever list of calls follows, demand 3 holds of it; two boxes that hold the same name the same router, exactly one; and the
// definitions compute document 01's starred values.
pub fn fresh(esi: &[u8]) -> Made
    ensures answer { (number_of result.answer ≡ (fresh_table esi.now).number) × (segment_in result.state ≡ fresh_segment esi.now) }
    ensures kept { ValidSegment result.state }
    ensures starts { segment_in result.state ≡ segment_after esi.now [] }
    ensures demand3 { (cs : List calls.Call) → Demand3 esi.now cs }
    ensures one_forwarder { (cs ds : List calls.Call) → OneForwarder esi.now cs ds }
    ensures values { all_right starred ≡ true }
{
    let mut words = [0u32; WORDS];
    let answer = owner::give(&mut words[..SETTINGS], esi);
    Made {
        answer,
        state: words,
    }
}

// Announces a route with its communities. The route's own checks come first; then 5 for another identifier, 7 for a list of communities
// over 256 octets or not a multiple of 8, 8 for a new address where 64 are present. An address that is present has its entry replaced. The
// offset that the route's own checks give is passed on.
pub fn announce(s: &mut [u32], route: &[u8], communities: &[u8]) -> Result<(), RefusalAt>
    requires { ValidSegment s.old }
    ensures answer { SegmentTold (announced (segment_in s.old).table route.now communities.now) (segment_in s.old).settings (number_at result) (offset_at result) s.new }
    ensures kept { ValidSegment s.new }
    ensures call { calls.Changes (segment_in s.old) (calls.announce route.now communities.now) (number_at result) (segment_in s.new) }
    ensures follows { Follows (segment_in s.old) (calls.announce route.now communities.now) (calls.change_reply (number_at result)) (segment_in s.new) }
    ensures fault { Fault route.now (route_number route.now) (offset_at result) }
{
    announcing::announce(&mut s[..SETTINGS], route, communities)
}

// The same address, read field by field: of what is read it is known that its words are below 2^32, which the promises on withdrawals and returning routers rest on.
fn read(address: Address) -> Address
    ensures same { result ≡ address }
    ensures words { (address.w0 < 4294967296) × (address.w1 < 4294967296) × (address.w2 < 4294967296) × (address.w3 < 4294967296) }
{
    let family = address.family;
    Address {
        family: family,
        w0: address.w0,
        w1: address.w1,
        w2: address.w2,
        w3: address.w3,
    }
}

// Withdraws an address: 6 for address zero, 9 for one that is not present. The freed place is zero and can be filled again. Where all routes agree on another algorithm than 0,
// whoever else is elected stays elected.
pub fn withdraw(s: &mut [u32], address: Address) -> Result<(), Refusal>
    requires { ValidSegment s.old }
    ensures answer { SegmentTold (withdrawn (segment_in s.old).table (address_row address)) (segment_in s.old).settings (number_of result) 0 s.new }
    ensures kept { ValidSegment s.new }
    ensures call { calls.Changes (segment_in s.old) (calls.withdraw (address_row address)) (number_of result) (segment_in s.new) }
    ensures follows { Follows (segment_in s.old) (calls.withdraw (address_row address)) (calls.change_reply (number_of result)) (segment_in s.new) }
    ensures bystander { Undisturbed (segment_in s.old) (address_row address) (segment_in s.new) }
{
    let withdrawn = read(address);
    table::withdraw(&mut s[..SETTINGS], withdrawn)
}

// Elects the Designated Forwarder for a tag: 10 for tag 0 or 4,294,967,295, 11 for a ready list over 64 rows of five words, 12 where no route is eligible.
// An address that is named is that of a candidate; under algorithms 1 to 3 no candidate is better, and it is the only such. Exactly one router of the segment is named where a
// candidate is eligible, and otherwise none. With none set the answer is document 01's.
pub fn elect(s: &[u32], tag: u32, ready: &[u32]) -> Result<Elected, Refusal>
    requires { ValidSegment s.now }
    ensures answer { answer_of result ≡ elect_with (segment_in s.now).settings plain (segment_in s.now).table.esi (segment_in s.now).table.entries tag (ready_in ready.now) }
    ensures counted { (answer_of result).n ≡ ones (answer_of result).candidates }
    ensures none_named { NoneNamed (segment_in s.now).settings plain (segment_in s.now).table.entries tag (ready_in ready.now) (answer_of result) }
    ensures forwarder { (answer_of result).number ≡ 0 → Forwarder (method_of (segment_in s.now).settings plain (segment_in s.now).table.esi (segment_in s.now).table.entries tag) (candidates_of (segment_in s.now).settings (segment_in s.now).table.entries (ready_in ready.now)) tag (answer_of result) }
    ensures once { Once (segment_in s.now) plain tag (ready_in ready.now) (answer_of result) }
    ensures none_set { (segment_in s.now).settings ≡ nothing_set → answer_of result ≡ elect_of (segment_in s.now).table.esi (segment_in s.now).table.entries tag (ready_in ready.now) }
    ensures call { calls.reply_to (segment_in s.now) (calls.elect plain tag (ready_in ready.now)) ≡ calls.elect_reply (answer_of result) }
    ensures follows { Follows (segment_in s.now) (calls.elect plain tag (ready_in ready.now)) (calls.elect_reply (answer_of result)) (segment_in s.now) }
{
    election::elect(&s[..SETTINGS], &s[SETTINGS..], tag, ready)
}

// What a returning router advertises: 15 for an own algorithm that is not 2 or 3, 6 for address zero. With no range set the answer is document 01's. A
// router that announces what it is told here does not unseat a forwarder whose DP is set.
pub fn returning(
    s: &[u32],
    address: Address,
    algorithm: u8,
    preference: u16,
    dp: bool,
) -> Result<Pair, Refusal>
    requires { ValidSegment s.now }
    ensures answer { sent_in result ≡ returning_with (segment_in s.now).settings (segment_in s.now).table.entries (address_row address) algorithm preference dp }
    ensures no_range { any_range (segment_in s.now).settings ≡ false → sent_in result ≡ returning_of (segment_in s.now).table.entries (address_row address) algorithm preference dp }
    ensures call { calls.reply_to (segment_in s.now) (calls.returning (address_row address) algorithm preference dp) ≡ calls.returning_reply (sent_in result) }
    ensures follows { Follows (segment_in s.now) (calls.returning (address_row address) algorithm preference dp) (calls.returning_reply (sent_in result)) (segment_in s.now) }
    ensures non_revertive { dp ≡ true → NonRevertive (segment_in s.now) (address_row address) algorithm (sent_in result) }
{
    let own = read(address);
    returning::returning(
        &s[..SETTINGS],
        &s[SETTINGS..],
        own,
        algorithm,
        preference,
        dp,
    )
}
