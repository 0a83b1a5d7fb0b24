// An evening of television, flow by flow: the example of docs/flows.md, run and printed beside what it should be. Who should be elected was computed by another program,
// with zlib's CRC-32 and whole numbers.
#![tactic(auto)]

ghost use Rattle.std.specs.Prelude.{IfOk};
ghost use Rattle.segment_state.specs.State.{ValidSegment};

use answers::Elected;
use example_tables::{Table, empty_table, with};
use refusals::Refusal;
use std::io;
use vector_lines::show_number;

// The tag of the example.
const TAG: u32 = 100;

// The numbers of the example, for (S,G) and for (*,G).
const SOURCE_GROUP: u8 = 4;

const ANY_SOURCE: u8 = 5;

// The table after the routers 1 to 3 announced one algorithm.
fn all_carry(t: Table, algorithm: u8) -> Table
    requires { ValidSegment t.words }
    ensures { ValidSegment result.words }
{
    let first = with(t, 1, algorithm, 0, false);
    let second = with(first, 2, algorithm, 0, false);
    with(second, 3, algorithm, 0, false)
}

// Prints the router that an answer names, 0 for none, and the algorithm that it tells, beside what they should be.
fn show(
    rt: &impl Print,
    name: &[u8],
    answer: Result<Elected, Refusal>,
    wanted: u64,
    wanted_algorithm: u64,
) -> io::Result<()> {
    let (_, e) = answers::told(answer);
    show_number(rt, name, (e.address[0] % 256) as u64, wanted)?;
    show_number(rt, b"  algorithm", e.algorithm as u64, wanted_algorithm)
}

// A plain query.
fn show_plain(
    rt: &impl Print,
    name: &[u8],
    t: &[u32],
    wanted: u64,
    wanted_algorithm: u64,
) -> io::Result<()>
    requires { ValidSegment t.now }
{
    let none: [u32; 0] = [0; 0];
    let answer = segment::elect(t, TAG, &none);
    show(rt, name, answer, wanted, wanted_algorithm)
}

// The flow of the source 192.0.2.s and the group 233.252.0.g.
fn show_flow(
    rt: &impl Print,
    name: &[u8],
    t: &[u32],
    s: u8,
    g: u8,
    wanted: u64,
    wanted_algorithm: u64,
) -> io::Result<()>
    requires { ValidSegment t.now }
{
    let source = [192, 0, 2, s];
    let group = [233, 252, 0, g];
    let none: [u32; 0] = [0; 0];
    let answer = segment::elect_source_group(t, &source, &group, TAG, &none);
    show(rt, name, answer, wanted, wanted_algorithm)
}

// The flow of any source and the group 233.252.0.g.
fn show_group(
    rt: &impl Print,
    name: &[u8],
    t: &[u32],
    g: u8,
    wanted: u64,
    wanted_algorithm: u64,
) -> io::Result<()>
    requires { ValidSegment t.now }
{
    let group = [233, 252, 0, g];
    let none: [u32; 0] = [0; 0];
    let answer = segment::elect_any_source(t, &group, TAG, &none);
    show(rt, name, answer, wanted, wanted_algorithm)
}

// The flow of the source 2001:db8::1 and the group ff3e::8000:1.
fn show_long(
    rt: &impl Print,
    name: &[u8],
    t: &[u32],
    wanted: u64,
    wanted_algorithm: u64,
) -> io::Result<()>
    requires { ValidSegment t.now }
{
    let source = [0x20, 0x01, 0x0D, 0xB8, 0, 0, 0, 0, 0, 0, 0, 0, 0, 0, 0, 1];
    let group = [0xFF, 0x3E, 0, 0, 0, 0, 0, 0, 0, 0, 0, 0, 0x80, 0, 0, 1];
    let none: [u32; 0] = [0; 0];
    let answer = segment::elect_source_group(t, &source, &group, TAG, &none);
    show(rt, name, answer, wanted, wanted_algorithm)
}

// A query for a flow (S,G) that is refused.
fn show_refusal(
    rt: &impl Print,
    name: &[u8],
    t: &[u32],
    s: &[u8],
    g: &[u8],
    tag: u32,
    wanted: u64,
) -> io::Result<()>
    requires { ValidSegment t.now }
{
    let none: [u32; 0] = [0; 0];
    let answer = segment::elect_source_group(t, s, g, tag, &none);
    show_number(rt, name, refusals::number(&answer) as u64, wanted)
}

// The operator sets two numbers.
fn set(
    rt: &impl Print,
    name: &[u8],
    t: &mut [u32],
    source_group: u8,
    any_source: u8,
    wanted: u64,
) -> io::Result<()>
    requires { ValidSegment t.old }
    ensures { ValidSegment t.new }
{
    let set = segment::set_flow_algorithms(t, source_group, any_source);
    show_number(rt, name, refusals::number(&set) as u64, wanted)
}

// Numbers that may be set, while the routes stand, and such that are refused: the old ones are kept.
fn set_numbers(rt: &impl Print, t: &mut [u32]) -> io::Result<()>
    requires { ValidSegment t.old }
    ensures { ValidSegment t.new }
{
    set(rt, b"set 4 and 5", t, SOURCE_GROUP, ANY_SOURCE, 0)?;
    set(rt, b"set 6 and 6", t, 6, 6, 15)?;
    set(rt, b"set 3 and 6", t, 3, 6, 15)?;
    set(rt, b"set 6 and 31", t, 6, 31, 15)
}

// All carry the number for (S,G).
fn by_source_and_group(rt: &impl Print, t: &[u32]) -> io::Result<()>
    requires { ValidSegment t.now }
{
    show_flow(rt, b"all carry 4: S 1, G 1", t, 1, 1, 3, 4)?;
    show_flow(rt, b"all carry 4: S 1, G 2", t, 1, 2, 1, 4)?;
    show_flow(rt, b"all carry 4: S 1, G 6", t, 1, 6, 2, 4)?;
    show_flow(rt, b"all carry 4: S 2, G 2", t, 2, 2, 2, 4)?;
    show_long(rt, b"all carry 4: long S and G", t, 3, 4)?;
    show_group(rt, b"all carry 4: any S, G 6", t, 6, 1, 1)?;
    show_plain(rt, b"all carry 4: plain", t, 1, 1)
}

// All carry the number for (*,G).
fn by_group(rt: &impl Print, t: &[u32]) -> io::Result<()>
    requires { ValidSegment t.now }
{
    show_group(rt, b"all carry 5: any S, G 6", t, 6, 3, 5)?;
    show_group(rt, b"all carry 5: any S, G 4", t, 4, 2, 5)?;
    show_group(rt, b"all carry 5: any S, G 7", t, 7, 1, 5)?;
    show_flow(rt, b"all carry 5: S 1, G 1", t, 1, 1, 1, 1)?;
    show_plain(rt, b"all carry 5: plain", t, 1, 1)
}

// Refused queries, while no route stands: the first check that fails is told.
fn refusals(rt: &impl Print, t: &[u32]) -> io::Result<()>
    requires { ValidSegment t.now }
{
    let four = [0u8; 4];
    let five = [0u8; 5];
    let sixteen = [0u8; 16];
    show_refusal(rt, b"no route: 4 octets", t, &four, &four, TAG, 12)?;
    show_refusal(rt, b"no route: 5 octets", t, &five, &five, TAG, 18)?;
    show_refusal(
        rt,
        b"no route: 4 and 16 octets",
        t,
        &four,
        &sixteen,
        TAG,
        18,
    )?;
    show_refusal(rt, b"no route: 5 octets, tag 0", t, &five, &five, 0, 10)
}

// The first half of the evening: the routes stand before any number is set.
fn first_half(rt: &impl Print, t: Table) -> io::Result<Table>
    requires { ValidSegment t.words }
    ensures { IfOk result (λ made. ValidSegment made.words) }
{
    let site = all_carry(t, SOURCE_GROUP);
    let mut words = site.words;
    show_flow(rt, b"none set: S 1, G 1", &words, 1, 1, 2, 0)?;
    set_numbers(rt, &mut words)?;
    by_source_and_group(rt, &words)?;
    Ok(Table { words: words })
}

// In the second half the routers carry the other number, and in the end not all of them.
fn second_half(rt: &impl Print, t: Table) -> io::Result<()>
    requires { ValidSegment t.words }
{
    let site = all_carry(t, ANY_SOURCE);
    let words = site.words;
    by_group(rt, &words)?;
    let mixed = with(site, 3, SOURCE_GROUP, 0, false);
    let other = mixed.words;
    show_group(rt, b"4 and 5 are carried: any S, G 6", &other, 6, 2, 0)
}

fn main(rt: HostRuntime) -> io::Result<()> {
    let empty = empty_table();
    let t = empty.words;
    refusals(&rt, &t)?;
    let half = first_half(&rt, empty)?;
    second_half(&rt, half)
}
