// One call to a function, as in `flow_exports`: the election for a multicast flow (*,G), an archive of its own again.
#![tactic(auto)]

ghost use Rattle.std.specs.Prelude.{◌≡◌};
ghost use Rattle.ready.specs.Ready.{ready_in};
ghost use Rattle.segment_state.specs.State.{segment_in, ValidSegment};
ghost use Rattle.election.specs.Queries.{by_any_source, elect_with};
ghost use Rattle.export_forms.specs.Forms.{exported_answer};

use export_forms::Answer;

// `segment::elect_any_source`.
#[unsafe(no_mangle)]
pub extern "C" fn segment_elect_any_source(
    s: &[u32],
    group: &[u8],
    tag: u32,
    ready: &[u32],
) -> Answer
    requires { ValidSegment s.now }
    ensures { result ≡ exported_answer (elect_with (segment_in s.now).settings (by_any_source group.now) (segment_in s.now).table.esi (segment_in s.now).table.entries tag (ready_in ready.now)) }
{
    let a = segment::elect_any_source(s, group, tag, ready);
    export_forms::exported(a)
}
