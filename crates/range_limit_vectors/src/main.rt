// Ranges of tags that may be set and such that may not, and where they act, with what docs/ranges.md adds to RFC 9785's examples, run and printed beside what it should be.
#![tactic(auto)]

ghost use Rattle.segment_state.specs.State.{ValidSegment};

use example_tables::{LOWEST, Table, second_segment, with};
use range_lines::{DOWN, UP, set, show};
use std::io;

// Ranges that touch, and such that may not be set: those before them are kept.
fn set_wrong(rt: &impl Print, t: &mut [u32]) -> io::Result<()>
    requires { ValidSegment t.old }
    ensures { ValidSegment t.new }
{
    set(
        rt,
        b"1 to 8 Highest, 9 to 16 Lowest",
        t,
        &[1, 8, UP, 9, 16, DOWN],
        0,
    )?;
    set(rt, b"1 to 9, 9 to 16", t, &[1, 9, UP, 9, 16, DOWN], 20)?;
    set(rt, b"16 to 9", t, &[16, 9, DOWN], 20)
}

// Reserved tags, and runs that name no range.
fn set_more(rt: &impl Print, t: &mut [u32]) -> io::Result<()>
    requires { ValidSegment t.old }
    ensures { ValidSegment t.new }
{
    set(rt, b"0 to 8", t, &[0, 8, DOWN], 20)?;
    set(rt, b"8 to 4294967295", t, &[8, 4294967295, DOWN], 20)?;
    set(rt, b"1 to 8, and 1", t, &[1, 8, 1], 20)?;
    set(rt, b"1 to 8, and no number", t, &[1, 8], 20)
}

// A segment under Lowest-Preference, where both numbers may be named; then under algorithm 1, where ranges do not act; then with none set again.
fn both_numbers(rt: &impl Print) -> io::Result<()> {
    let lowest = second_segment(LOWEST, false);
    let mut t = lowest.words;
    set_wrong(rt, &mut t)?;
    set_more(rt, &mut t)?;
    show(rt, b"tag 8", &t, 8, 3, 2)?;
    show(rt, b"tag 9", &t, 9, 1, 3)?;
    show(rt, b"tag 17", &t, 17, 1, 3)?;
    let other = with(Table { words: t }, 3, 1, 300, false);
    let mixed = other.words;
    show(rt, b"not all on one algorithm, tag 9", &mixed, 9, 1, 0)?;
    set(rt, b"an empty run", &mut t, &[], 0)?;
    show(rt, b"none set, tag 8", &t, 8, 1, 3)
}

fn main(rt: HostRuntime) -> io::Result<()> {
    both_numbers(&rt)
}
