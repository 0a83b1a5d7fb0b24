// What users link of the table of Ethernet A-D routes, through `segment`: its calls and the election over both tables. A table is 1,793 words, which the fresh call
// makes and the others are lent. The fresh call promises demand 3 of every list of calls; each call promises that it is one more call of the list.
#![tactic(auto)]

ghost use Rattle.std.specs.Prelude.{◌≡◌, List, []};
ghost use Rattle.std.specs.Int.Count.{ones};
ghost use Rattle.address.specs.Address.{address_row};
ghost use Rattle.segment_state.specs.State.{segment_in, ValidSegment};
ghost use Rattle.circuit_layout.specs.Circuits.{circuits_in, ValidCircuits};
ghost use Rattle.circuits.specs.Changes.{ad_announced, ad_withdrawn, AdTold};
ghost use Rattle.circuit_ready.specs.Routers.{ready_routers};
ghost use Rattle.refusals.specs.Numbers.{number_of};
ghost use Rattle.refusals.specs.Refusals.{ready_too_long};
ghost use Rattle.answers.specs.Answers.{answer_of, Forwarder};
ghost use Rattle.election.specs.Queries.{plain, method_of, candidates_of, NoneNamed};
ghost use Rattle.circuit_election.specs.Over.{elect_over};
ghost use Rattle.circuit_demand3.specs.Calls as calls;
ghost use Rattle.circuit_demand3.specs.Demand3.{circuits_after, CircuitFollows, CircuitsDemand3};

use address::Address;
use answers::Elected;
use circuits::{Scope, WORDS};
use refusals::Refusal;
use segment_state::SETTINGS;

// A fresh table of A-D routes, which holds none. It is the table that the empty list of calls leaves, and whatever list of calls follows, demand 3 holds of it.
pub fn fresh_circuits() -> [u32; WORDS]
    ensures answer { circuits_in result ≡ [] }
    ensures kept { ValidCircuits result }
    ensures starts { circuits_in result ≡ circuits_after [] }
    ensures demand3 { (cs : List calls.CircuitCall) → CircuitsDemand3 cs }
{
    circuits::fresh()
}

// Announces an A-D route: 6 for address zero, 10 for a reserved tag, 8 for a new route where 256 are present. One that is present is accepted again.
pub fn announce_circuit(t: &mut [u32], scope: Scope, address: Address) -> Result<(), Refusal>
    requires { ValidCircuits t.old }
    ensures answer { AdTold (ad_announced (circuits_in t.old) scope (address_row address)) (number_of result) t.new }
    ensures kept { ValidCircuits t.new }
    ensures call { calls.CircuitChanges (circuits_in t.old) (calls.announce scope address) (number_of result) (circuits_in t.new) }
    ensures follows { CircuitFollows (circuits_in t.old) (calls.announce scope address) (calls.change_reply (number_of result)) (circuits_in t.new) }
{
    circuits::announce(t, scope, address)
}

// Withdraws an A-D route: 6 for address zero, 10 for a reserved tag, 9 for one that is not present. Where a per-segment route goes, the per-instance ones of its
// address stay.
pub fn withdraw_circuit(t: &mut [u32], scope: Scope, address: Address) -> Result<(), Refusal>
    requires { ValidCircuits t.old }
    ensures answer { AdTold (ad_withdrawn (circuits_in t.old) scope (address_row address)) (number_of result) t.new }
    ensures kept { ValidCircuits t.new }
    ensures call { calls.CircuitChanges (circuits_in t.old) (calls.withdraw scope address) (number_of result) (circuits_in t.new) }
    ensures follows { CircuitFollows (circuits_in t.old) (calls.withdraw scope address) (calls.change_reply (number_of result)) (circuits_in t.new) }
{
    circuits::withdraw(t, scope, address)
}

// Elects over both tables: as the plain election with a ready list does with the list of those routers of the route table that are ready for the tag by their A-D
// routes. 10 for a reserved tag, 12 where no route is eligible; 11 is never answered.
pub fn elect_by_circuits(s: &[u32], circuits: &[u32], tag: u32) -> Result<Elected, Refusal>
    requires { ValidSegment s.now × ValidCircuits circuits.now }
    ensures answer { answer_of result ≡ elect_over (segment_in s.now).settings (segment_in s.now).table.esi (segment_in s.now).table.entries (circuits_in circuits.now) tag }
    ensures counted { (answer_of result).n ≡ ones (answer_of result).candidates }
    ensures none_named { NoneNamed (segment_in s.now).settings plain (segment_in s.now).table.entries tag (ready_routers (circuits_in circuits.now) tag (segment_in s.now).table.entries) (answer_of result) }
    ensures forwarder { (answer_of result).number ≡ 0 → Forwarder (method_of (segment_in s.now).settings plain (segment_in s.now).table.esi (segment_in s.now).table.entries tag) (candidates_of (segment_in s.now).settings (segment_in s.now).table.entries (ready_routers (circuits_in circuits.now) tag (segment_in s.now).table.entries)) tag (answer_of result) }
    ensures never_long { (answer_of result).number ≡ ready_too_long → ⊥ }
    ensures call { calls.circuit_reply (circuits_in circuits.now) (calls.elect (segment_in s.now) tag) ≡ calls.elect_reply (answer_of result) }
    ensures follows { CircuitFollows (circuits_in circuits.now) (calls.elect (segment_in s.now) tag) (calls.elect_reply (answer_of result)) (circuits_in circuits.now) }
{
    circuit_election::elect_by_circuits(&s[..SETTINGS], &s[SETTINGS..], circuits, tag)
}
