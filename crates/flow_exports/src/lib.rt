// One call to a function, as in `exports`: the setting of the numbers, and the election for a multicast flow (S,G). They are an archive of their own, so that each election is
// compiled as it is for a program that calls only that one.
#![tactic(auto)]

ghost use Rattle.std.specs.Prelude.{◌≡◌};
ghost use Rattle.ready.specs.Ready.{ready_in};
ghost use Rattle.settings.specs.Settings.{numbers_set};
ghost use Rattle.segment_state.specs.State.{segment_in, ValidSegment, SetTold};
ghost use Rattle.election.specs.Queries.{by_source_group, elect_with};
ghost use Rattle.export_forms.specs.Forms.{exported_answer};

use export_forms::Answer;

// `segment::set_flow_algorithms`.
#[unsafe(no_mangle)]
pub extern "C" fn segment_set_flow_algorithms(s: &mut [u32], source_group: u8, any_source: u8) -> u8
    requires { ValidSegment s.old }
    ensures answer { SetTold (numbers_set (segment_in s.old).settings source_group any_source) (segment_in s.old).table result s.new }
    ensures kept { ValidSegment s.new }
{
    refusals::number(&segment::set_flow_algorithms(s, source_group, any_source))
}

// `segment::elect_source_group`.
#[unsafe(no_mangle)]
pub extern "C" fn segment_elect_source_group(
    s: &[u32],
    source: &[u8],
    group: &[u8],
    tag: u32,
    ready: &[u32],
) -> Answer
    requires { ValidSegment s.now }
    ensures { result ≡ exported_answer (elect_with (segment_in s.now).settings (by_source_group source.now group.now) (segment_in s.now).table.esi (segment_in s.now).table.entries tag (ready_in ready.now)) }
{
    let a = segment::elect_source_group(s, source, group, tag, ready);
    export_forms::exported(a)
}
