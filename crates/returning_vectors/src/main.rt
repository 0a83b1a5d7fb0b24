// Runs a router that returns and prints each value beside what it should be: document 01's value that has no star, and the worked example of RFC 9785,
// section 4.3, for tag 1, where PE1, PE2 and PE3 are the routers 1, 2 and 3.
#![tactic(auto)]

use example_tables::{HIGHEST, LOWEST, elected, empty_table, second_segment, with, without};
use std::io;
use vector_lines::{show_number, show_pair};

// A router that returns with (150, 1) to (200, 1) and (100, 1) under algorithm 2.
fn returning_stays(rt: &impl Print) -> io::Result<()> {
    let mut t = with(empty_table(), 1, 2, 200, true);
    t = with(t, 2, 2, 100, true);
    let words = t.words;
    let sent = segment::returning(
        &words,
        example_tables::router(3),
        2,
        150,
        true,
    ).unwrap_or_default();
    show_pair(
        rt,
        b"returning with (150, 1) to (200, 1) and (100, 1) under 2",
        sent.preference,
        sent.dp,
        150,
        true,
    )
}

// Section 4.3: without DP, PE3 takes over when it comes back.
fn revertive(rt: &impl Print) -> io::Result<()> {
    let failed = without(second_segment(HIGHEST, false), 3);
    show_number(rt, b"4.3: PE3 failed", elected(failed, 1), 2)?;
    let back = with(failed, 3, HIGHEST, 300, false);
    show_number(rt, b"4.3: PE3 back, DP clear", elected(back, 1), 3)
}

// Section 4.3: with DP, PE3 comes back with PE2's preference and DP clear, and takes over only when PE2 fails too.
fn non_revertive(rt: &impl Print) -> io::Result<()> {
    let failed = without(second_segment(HIGHEST, true), 3);
    let words = failed.words;
    let sent = segment::returning(
        &words,
        example_tables::router(3),
        HIGHEST,
        300,
        true,
    ).unwrap_or_default();
    show_pair(
        rt,
        b"4.3: PE3 back with (300, 1) sends",
        sent.preference,
        sent.dp,
        200,
        false,
    )?;
    let back = with(failed, 3, HIGHEST, sent.preference, sent.dp);
    show_number(rt, b"4.3: PE3 back, DP set", elected(back, 1), 2)?;
    let alone = without(back, 2);
    show_number(rt, b"4.3: PE2 failed too", elected(alone, 1), 3)?;
    let last = with(alone, 3, HIGHEST, 300, true);
    show_number(
        rt,
        b"4.3: PE3 is the new Highest-PE and sends (300, 1)",
        elected(last, 1),
        3,
    )
}

// Section 4.3, the note at its end: a router that comes back with another algorithm makes all fall back to the default.
fn other_algorithm(rt: &impl Print) -> io::Result<()> {
    let t = with(second_segment(HIGHEST, true), 3, LOWEST, 300, true);
    show_number(
        rt,
        b"4.3: PE3 back under another algorithm, tag 3",
        elected(t, 3),
        1,
    )?;
    show_number(
        rt,
        b"4.3: PE3 back under another algorithm, tag 4",
        elected(t, 4),
        2,
    )?;
    show_number(
        rt,
        b"4.3: PE3 back under another algorithm, tag 5",
        elected(t, 5),
        3,
    )
}

fn main(rt: HostRuntime) -> io::Result<()> {
    returning_stays(&rt)?;
    revertive(&rt)?;
    non_revertive(&rt)?;
    other_algorithm(&rt)
}
