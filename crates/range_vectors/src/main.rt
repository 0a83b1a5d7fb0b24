// Two halves of a segment's tags: the examples of RFC 9785, sections 4.2 and 4.3, with ranges of tags that name another algorithm, run and printed beside what they should be.
// PE1, PE2 and PE3 are the routers 1, 2 and 3.
#![tactic(auto)]

ghost use Rattle.std.specs.Prelude.{IfOk};
ghost use Rattle.segment_state.specs.State.{ValidSegment};

use example_tables::{HIGHEST, Table, empty_table, second_segment, with, without};
use range_lines::{DOWN, set, show};
use std::io;
use vector_lines::show_pair;

// What router 3 sends when it returns.
fn show_sent(
    rt: &impl Print,
    name: &[u8],
    t: &[u32],
    preference: u16,
    wanted: u16,
    wanted_dp: bool,
) -> io::Result<()>
    requires { ValidSegment t.now }
{
    let sent = segment::returning(
        t,
        example_tables::router(3),
        HIGHEST,
        preference,
        true,
    ).unwrap_or_default();
    show_pair(rt, name, sent.preference, sent.dp, wanted, wanted_dp)
}

// Section 4.2: ES3 of PE1 with (500, 0) and PE2 with (100, 0), and Lowest-Preference for the tags 2001 to 4000.
fn two_halves(rt: &impl Print) -> io::Result<()> {
    let es3 = with(
        with(empty_table(), 1, HIGHEST, 500, false),
        2,
        HIGHEST,
        100,
        false,
    );
    let mut t = es3.words;
    show(rt, b"4.2: tag 2001, none set", &t, 2001, 1, 2)?;
    set(
        rt,
        b"4.2: 2001 to 4000 Lowest",
        &mut t,
        &[2001, 4000, DOWN],
        0,
    )?;
    show(rt, b"4.2: tag 1", &t, 1, 1, 2)?;
    show(rt, b"4.2: tag 2000", &t, 2000, 1, 2)?;
    show(rt, b"4.2: tag 2001", &t, 2001, 2, 3)?;
    show(rt, b"4.2: tag 4000", &t, 4000, 2, 3)?;
    show(rt, b"4.2: tag 4001", &t, 4001, 1, 2)
}

// Who forwards tags 1 and 2 of section 4.3.
fn show_two(rt: &impl Print, first: &[u8], second: &[u8], t: &[u32], wanted: u64) -> io::Result<()>
    requires { ValidSegment t.now }
{
    show(rt, first, t, 1, wanted, 2)?;
    show(rt, second, t, 2, 1, 3)
}

// What PE3 sends beside PE1 and PE2, with its own pair and with three others.
fn show_returns(rt: &impl Print, t: &[u32]) -> io::Result<()>
    requires { ValidSegment t.now }
{
    show_sent(rt, b"4.3: PE3 back with (300, 1) sends", t, 300, 200, false)?;
    show_sent(rt, b"4.3: with (150, 1)", t, 150, 150, true)?;
    show_sent(rt, b"4.3: with (100, 1)", t, 100, 100, false)?;
    show_sent(rt, b"4.3: with (50, 1)", t, 50, 100, false)
}

// Section 4.3: vES2 with Lowest-Preference for tag 2. PE3 fails,
fn fails(rt: &impl Print) -> io::Result<Table>
    ensures { IfOk result (λ made. ValidSegment made.words) }
{
    let all = second_segment(HIGHEST, true);
    let mut t = all.words;
    let _ = segment::set_ranges(&mut t, &[2, 2, DOWN]);
    show_two(rt, b"4.3: tag 1", b"4.3: tag 2", &t, 3)?;
    Ok(without(Table { words: t }, 3))
}

// and comes back, and no forwarder changes.
fn comes_back(rt: &impl Print, failed: Table) -> io::Result<()>
    requires { ValidSegment failed.words }
{
    let left = failed.words;
    show_two(
        rt,
        b"4.3: PE3 failed, tag 1",
        b"4.3: PE3 failed, tag 2",
        &left,
        2,
    )?;
    show_returns(rt, &left)?;
    let back = with(failed, 3, HIGHEST, 200, false);
    let again = back.words;
    show_two(
        rt,
        b"4.3: PE3 back, tag 1",
        b"4.3: PE3 back, tag 2",
        &again,
        2,
    )
}

fn main(rt: HostRuntime) -> io::Result<()> {
    two_halves(&rt)?;
    let failed = fails(&rt)?;
    comes_back(&rt, failed)
}
