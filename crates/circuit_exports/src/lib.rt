// One call to a function, as in `exports`: those of the table of A-D routes, and the election over both tables. They are an archive of their own, so that each
// election is compiled as it is for a program that calls only that one.
#![tactic(auto)]

ghost use Rattle.std.specs.Prelude.{◌≡◌, []};
ghost use Rattle.address.specs.Address.{address_row};
ghost use Rattle.segment_state.specs.State.{segment_in, ValidSegment};
ghost use Rattle.circuit_layout.specs.Circuits.{circuits_in, ValidCircuits};
ghost use Rattle.circuits.specs.Changes.{ad_announced, ad_withdrawn, AdTold};
ghost use Rattle.circuit_election.specs.Over.{elect_over};
ghost use Rattle.export_forms.specs.Forms.{exported_answer, handed_in, scope_of};

use circuits::WORDS;
use export_forms::Answer;
use segment::Scope;

// What a route is announced for: one tag, or a whole segment.
fn scope_of(per_instance: bool, tag: u32) -> Scope
    ensures { result ≡ scope_of per_instance tag }
{
    if per_instance {
        return Scope::Instance(tag);
    }
    Scope::Segment
}

// `segment::fresh_circuits`, its table put into the words lent.
#[unsafe(no_mangle)]
pub extern "C" fn circuits_fresh(c: &mut [u32; WORDS])
    ensures answer { circuits_in c.new ≡ [] }
    ensures kept { ValidCircuits c.new }
{
    let words = segment::fresh_circuits();
    *c = words;
}

// `segment::announce_circuit`.
#[unsafe(no_mangle)]
pub extern "C" fn circuits_announce(
    c: &mut [u32],
    per_instance: bool,
    tag: u32,
    v6: bool,
    w0: u32,
    w1: u32,
    w2: u32,
    w3: u32,
) -> u8
    requires { ValidCircuits c.old }
    ensures answer { AdTold (ad_announced (circuits_in c.old) (scope_of per_instance tag) (address_row (handed_in v6 w0 w1 w2 w3))) result c.new }
    ensures kept { ValidCircuits c.new }
{
    let scope = scope_of(per_instance, tag);
    let address = export_forms::handed_in(v6, w0, w1, w2, w3);
    refusals::number(&segment::announce_circuit(c, scope, address))
}

// `segment::withdraw_circuit`.
#[unsafe(no_mangle)]
pub extern "C" fn circuits_withdraw(
    c: &mut [u32],
    per_instance: bool,
    tag: u32,
    v6: bool,
    w0: u32,
    w1: u32,
    w2: u32,
    w3: u32,
) -> u8
    requires { ValidCircuits c.old }
    ensures answer { AdTold (ad_withdrawn (circuits_in c.old) (scope_of per_instance tag) (address_row (handed_in v6 w0 w1 w2 w3))) result c.new }
    ensures kept { ValidCircuits c.new }
{
    let scope = scope_of(per_instance, tag);
    let address = export_forms::handed_in(v6, w0, w1, w2, w3);
    refusals::number(&segment::withdraw_circuit(c, scope, address))
}

// `segment::elect_by_circuits`.
#[unsafe(no_mangle)]
pub extern "C" fn segment_elect_by_circuits(s: &[u32], c: &[u32], tag: u32) -> Answer
    requires { ValidSegment s.now × ValidCircuits c.now }
    ensures { result ≡ exported_answer (elect_over (segment_in s.now).settings (segment_in s.now).table.esi (segment_in s.now).table.entries (circuits_in c.now) tag) }
{
    let a = segment::elect_by_circuits(s, c, tag);
    export_forms::exported(a)
}
