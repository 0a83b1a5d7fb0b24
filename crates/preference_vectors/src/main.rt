// Runs the worked example of RFC 9785, section 4.1, for tag 1, and prints each value beside what it should be: PE1, PE2 and PE3 are the routers 1, 2
// and 3. Beside it, steps of a bandwidth that stop at an end or are too long.
#![tactic(auto)]

ghost use Rattle.segment_state.specs.State.{ValidSegment};

use example_tables::{HIGHEST, LOWEST, Table, elected, empty_table, second_segment, with, without};
use std::io;
use vector_lines::{show_number, show_pair};

// vES1: 500 in PE1, 255 in PE2.
fn first_segment(algorithm: u8) -> Table
    ensures { ValidSegment result.words }
{
    let t = with(empty_table(), 1, algorithm, 500, false);
    with(t, 2, algorithm, 255, false)
}

// Section 4.1 (c): the order of preference.
fn order(rt: &impl Print) -> io::Result<()> {
    show_number(
        rt,
        b"4.1 (c): vES1, Highest",
        elected(first_segment(HIGHEST), 1),
        1,
    )?;
    show_number(
        rt,
        b"4.1 (c): vES2, Highest",
        elected(second_segment(HIGHEST, false), 1),
        3,
    )?;
    show_number(
        rt,
        b"4.1 (c): vES1, Lowest",
        elected(first_segment(LOWEST), 1),
        2,
    )?;
    show_number(
        rt,
        b"4.1 (c): vES2, Lowest",
        elected(second_segment(LOWEST, false), 1),
        1,
    )
}

// Section 4.1 (c): Highest and Lowest on one segment fall back to the default algorithm.
fn mixed(rt: &impl Print) -> io::Result<()> {
    let t = with(first_segment(HIGHEST), 2, LOWEST, 255, false);
    show_number(
        rt,
        b"4.1 (c): vES1, Highest and Lowest, tag 10",
        elected(t, 10),
        1,
    )?;
    show_number(
        rt,
        b"4.1 (c): vES1, Highest and Lowest, tag 11",
        elected(t, 11),
        2,
    )
}

// Section 4.1 (d): a router goes into maintenance, whether or not DP is set.
fn maintenance(rt: &impl Print) -> io::Result<()> {
    let highest = with(second_segment(HIGHEST, true), 3, HIGHEST, 50, true);
    show_number(
        rt,
        b"4.1 (d): vES2, Highest, PE3 lowered to 50",
        elected(highest, 1),
        2,
    )?;
    let lowest = with(second_segment(LOWEST, true), 1, LOWEST, 250, true);
    show_number(
        rt,
        b"4.1 (d): vES2, Lowest, PE1 raised to 250",
        elected(lowest, 1),
        2,
    )
}

// Two routers with the preference 500; the second one's DP bit is given.
fn tied(algorithm: u8, dp: bool) -> Table
    ensures { ValidSegment result.words }
{
    let t = with(empty_table(), 1, algorithm, 500, false);
    with(t, 2, algorithm, 500, dp)
}

// Section 4.1 (e): DP, then the lower address.
fn ties(rt: &impl Print) -> io::Result<()> {
    show_number(
        rt,
        b"4.1 (e): (500, 0) and (500, 1), Highest",
        elected(tied(HIGHEST, true), 1),
        2,
    )?;
    show_number(
        rt,
        b"4.1 (e): (500, 0) and (500, 1), Lowest",
        elected(tied(LOWEST, true), 1),
        2,
    )?;
    show_number(
        rt,
        b"4.1 (e): (500, 0) and (500, 0), Highest",
        elected(tied(HIGHEST, false), 1),
        1,
    )?;
    show_number(
        rt,
        b"4.1 (e): (500, 0) and (500, 0), Lowest",
        elected(tied(LOWEST, false), 1),
        1,
    )
}

// The preference after a step that is not refused.
fn after_step(preference: u16, step: i32) -> u16 {
    bandwidth::add_step(preference, step).unwrap_or(0)
}

// Section 4.1 (f): half of the bandwidth is lost, and the preference goes from 500 to 100. The sum is what the router takes as its
// administrative preference; the link is mended, and the same step up gives 500 back.
fn bandwidth(rt: &impl Print) -> io::Result<()> {
    let lowered = after_step(500, -400);
    show_number(rt, b"4.1 (f): 500 lowered by 400", lowered as u64, 100)?;
    let vacant = without(first_segment(HIGHEST), 1);
    let words = vacant.words;
    let sent = segment::returning(
        &words,
        example_tables::router(1),
        HIGHEST,
        lowered,
        false,
    ).unwrap_or_default();
    show_pair(
        rt,
        b"4.1 (f): vES1, Highest, PE1 sends",
        sent.preference,
        sent.dp,
        100,
        false,
    )?;
    let low = with(vacant, 1, HIGHEST, sent.preference, sent.dp);
    show_number(
        rt,
        b"4.1 (f): vES1, Highest, PE1 lowered to 100",
        elected(low, 1),
        2,
    )?;
    let mended = after_step(lowered, 400);
    let high = with(low, 1, HIGHEST, mended, false);
    show_number(
        rt,
        b"4.1 (f): vES1, Highest, PE1 raised by 400",
        elected(high, 1),
        1,
    )
}

// A step that stops short is not taken back by the same step up; one that is too long is refused.
fn steps(rt: &impl Print) -> io::Result<()> {
    let low = after_step(300, -400);
    let again = after_step(low, 400);
    show_number(rt, b"300 lowered by 400", low as u64, 0)?;
    show_number(rt, b"and raised by 400", again as u64, 400)?;
    let long = refusals::number(&bandwidth::add_step(500, -65536));
    show_number(rt, b"a step of -65536", long as u64, 19)
}

fn main(rt: HostRuntime) -> io::Result<()> {
    order(&rt)?;
    mixed(&rt)?;
    maintenance(&rt)?;
    ties(&rt)?;
    bandwidth(&rt)?;
    steps(&rt)
}
