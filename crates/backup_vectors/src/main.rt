// The second in line: vES2 of RFC 9785, section 4.1, with its backup under Highest and Lowest and for a range of tags, and that the backup takes over; a tie under algorithm 1; run and printed beside what it should be.
#![tactic(auto)]

ghost use Rattle.segment_state.specs.State.{ValidSegment};

use example_tables::{
    HIGHEST, LOWEST, Table, elected, empty_table, route_of, second_segment, with, without,
};
use std::io;
use vector_lines::show_number;

// Highest random weight.
const WEIGHT: u8 = 1;

// Prints the router that is named as the backup for a tag, 0 for none, beside what it should be.
fn show(rt: &impl Print, name: &[u8], t: &[u32], tag: u32, wanted: u64) -> io::Result<()>
    requires { ValidSegment t.now }
{
    let none: [u32; 0] = [0; 0];
    let backup = segment::name_backup(t, tag, &none).unwrap_or_default();
    let address = backup.address;
    show_number(rt, name, (address[0] % 256) as u64, wanted)
}

// Prints the number that naming a backup answers.
fn show_refusal(rt: &impl Print, name: &[u8], t: Table, tag: u32, wanted: u64) -> io::Result<()>
    requires { ValidSegment t.words }
{
    let words = t.words;
    let none: [u32; 0] = [0; 0];
    let backup = segment::name_backup(&words, tag, &none);
    show_number(rt, name, refusals::number(&backup) as u64, wanted)
}

// Preferences 100, 200 and 300: under Highest-Preference PE3 forwards and PE2 is the backup, which takes over. Tag 2 is set to Lowest-Preference.
fn highest(rt: &impl Print) -> io::Result<()> {
    let all = second_segment(HIGHEST, false);
    show_number(rt, b"under 2: PE3 forwards", elected(all, 1), 3)?;
    let mut t = all.words;
    show(rt, b"under 2: the backup", &t, 1, 2)?;
    let _ = segment::set_ranges(&mut t, &[2, 2, 3]);
    show(rt, b"tag 2 Lowest: the backup", &t, 2, 2)?;
    show_number(rt, b"PE3 withdrawn", elected(without(all, 3), 1), 2)
}

// Under Lowest-Preference PE1 forwards.
fn lowest(rt: &impl Print) -> io::Result<()> {
    let all = second_segment(LOWEST, false);
    let t = all.words;
    show(rt, b"under 3: the backup", &t, 1, 2)?;
    show_number(rt, b"PE1 withdrawn", elected(without(all, 1), 1), 2)
}

// Under algorithm 1 10.0.0.1 and 138.0.0.1 tie for every tag, as document 01 says, and the lower address forwards: the other is the backup. Its first octet is printed.
fn weighed(rt: &impl Print) -> io::Result<()> {
    let one = with(empty_table(), 1, WEIGHT, 0, false);
    let mut t = one.words;
    let mut route = route_of(1);
    route[21] = 138;
    let community = [6, 6, WEIGHT, 0, 0, 0, 0, 0];
    let _ = segment::announce(&mut t, &route, &community);
    let none: [u32; 0] = [0; 0];
    let backup = segment::name_backup(&t, 7, &none).unwrap_or_default();
    let address = backup.address;
    show_number(
        rt,
        b"under 1: a tie, the backup",
        (address[0] / 0x1000000 % 256) as u64,
        138,
    )
}

// Who cannot be named.
fn refusals(rt: &impl Print) -> io::Result<()> {
    show_refusal(rt, b"no route", empty_table(), 1, 12)?;
    show_refusal(
        rt,
        b"one route",
        with(empty_table(), 1, HIGHEST, 100, false),
        1,
        12,
    )?;
    show_refusal(
        rt,
        b"not all on one algorithm",
        with(second_segment(HIGHEST, false), 3, 1, 0, false),
        1,
        15,
    )?;
    show_refusal(rt, b"tag 0", second_segment(HIGHEST, false), 0, 10)
}

fn main(rt: HostRuntime) -> io::Result<()> {
    highest(&rt)?;
    lowest(&rt)?;
    weighed(&rt)?;
    refusals(&rt)
}
