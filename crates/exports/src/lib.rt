// One call to a function, for programs in Rust: benchmarks/ counts and times these, and its tests compare their answers with independent ones.
// They are not for a daemon: nothing tests that the words lent are those of a segment's state (`ValidSegment`), which benchmarks/src/proved.rs sees to by a type.
#![tactic(auto)]

ghost use Rattle.std.specs.Prelude.{◌≡◌};
ghost use Rattle.address.specs.Address.{address_row};
ghost use Rattle.ready.specs.Ready.{ready_in};
ghost use Rattle.table.specs.Table.{fresh_table, announced, withdrawn};
ghost use Rattle.settings.specs.Settings.{ranges_given};
ghost use Rattle.segment_state.specs.State.{fresh_segment, segment_in, ValidSegment, SegmentTold, SetTold};
ghost use Rattle.election.specs.Queries.{plain, elect_with};
ghost use Rattle.returning.specs.Returning.{returning_with};
ghost use Rattle.export_forms.specs.Forms.{exported_answer, handed_in};
ghost use Rattle.exports.specs.Exports.{sent_of};

use export_forms::Answer;
use segment::WORDS;

// The answers of the calls, laid out as C lays them out.
#[repr(C)]
#[derive(Clone, Copy)]
pub struct Verdict {
    pub number: u8,
    pub offset: usize,
}

#[repr(C)]
#[derive(Clone, Copy)]
pub struct Sent {
    pub number: u8,
    pub preference: u16,
    pub dp: bool,
}

// `segment::fresh`, its state put into the words lent.
#[unsafe(no_mangle)]
pub extern "C" fn segment_fresh(s: &mut [u32; WORDS], esi: &[u8]) -> u8
    ensures answer { (result ≡ (fresh_table esi.now).number) × (segment_in s.new ≡ fresh_segment esi.now) }
    ensures kept { ValidSegment s.new }
{
    let made = segment::fresh(esi);
    let words = made.state;
    *s = words;
    refusals::number(&made.answer)
}

// `segment::announce`.
#[unsafe(no_mangle)]
pub extern "C" fn segment_announce(s: &mut [u32], route: &[u8], communities: &[u8]) -> Verdict
    requires { ValidSegment s.old }
    ensures answer { SegmentTold (announced (segment_in s.old).table route.now communities.now) (segment_in s.old).settings result.number result.offset s.new }
    ensures kept { ValidSegment s.new }
{
    match segment::announce(s, route, communities) {
        Ok(()) => Verdict {
            number: 0,
            offset: 0,
        },
        Err(told) => Verdict {
            number: told.refusal.number(),
            offset: told.offset,
        },
    }
}

// `segment::withdraw`.
#[unsafe(no_mangle)]
pub extern "C" fn segment_withdraw(
    s: &mut [u32],
    v6: bool,
    w0: u32,
    w1: u32,
    w2: u32,
    w3: u32,
) -> u8
    requires { ValidSegment s.old }
    ensures answer { SegmentTold (withdrawn (segment_in s.old).table (address_row (handed_in v6 w0 w1 w2 w3))) (segment_in s.old).settings result 0 s.new }
    ensures kept { ValidSegment s.new }
{
    let address = export_forms::handed_in(v6, w0, w1, w2, w3);
    let answer = segment::withdraw(s, address);
    refusals::number(&answer)
}

// `segment::elect`.
#[unsafe(no_mangle)]
pub extern "C" fn segment_elect(s: &[u32], tag: u32, ready: &[u32]) -> Answer
    requires { ValidSegment s.now }
    ensures { result ≡ exported_answer (elect_with (segment_in s.now).settings plain (segment_in s.now).table.esi (segment_in s.now).table.entries tag (ready_in ready.now)) }
{
    let a = segment::elect(s, tag, ready);
    export_forms::exported(a)
}

// `segment::set_ranges`.
#[unsafe(no_mangle)]
pub extern "C" fn segment_set_ranges(s: &mut [u32], run: &[u32]) -> u8
    requires { ValidSegment s.old }
    ensures answer { SetTold (ranges_given (segment_in s.old).settings run.now) (segment_in s.old).table result s.new }
    ensures kept { ValidSegment s.new }
{
    refusals::number(&segment::set_ranges(s, run))
}

// `segment::returning`.
#[unsafe(no_mangle)]
pub extern "C" fn segment_returning(
    s: &[u32],
    v6: bool,
    w0: u32,
    w1: u32,
    w2: u32,
    w3: u32,
    algorithm: u8,
    preference: u16,
    dp: bool,
) -> Sent
    requires { ValidSegment s.now }
    ensures { result ≡ sent_of (returning_with (segment_in s.now).settings (segment_in s.now).table.entries (address_row (handed_in v6 w0 w1 w2 w3)) algorithm preference dp) }
{
    let address = export_forms::handed_in(v6, w0, w1, w2, w3);
    match segment::returning(s, address, algorithm, preference, dp) {
        Ok(sent) => Sent {
            number: 0,
            preference: sent.preference,
            dp: sent.dp,
        },
        Err(refusal) => Sent {
            number: refusal.number(),
            preference: 0,
            dp: false,
        },
    }
}
