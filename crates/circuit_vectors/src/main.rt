// Circuits that go down and come up again: the example of docs/circuits.md, run and printed beside what it should be.
#![tactic(auto)]

ghost use Rattle.segment_state.specs.State.{ValidSegment};
ghost use Rattle.circuit_layout.specs.Circuits.{ValidCircuits};

use example_tables::{Table, empty_table, route_of, router};
use segment::Scope;
use std::io;
use vector_lines::show_number;

// The two tags of the example.
const FIRST: u32 = 100;

const SECOND: u32 = 200;

// Router n announces its segment route, with the default algorithm and AC-DF.
fn join(t: &mut [u32], n: u8)
    requires { ValidSegment t.old }
    ensures { ValidSegment t.new }
{
    let octets = route_of(n);
    let mut community = [0u8; 8];
    let _ = community::write(&mut community, 0, true, false, 0);
    let _ = segment::announce(t, &octets, &community);
}

// A segment of the routers 1 to 3.
fn three_routers() -> Table
    ensures { ValidSegment result.words }
{
    let empty = empty_table();
    let mut words = empty.words;
    join(&mut words, 1);
    join(&mut words, 2);
    join(&mut words, 3);
    Table { words: words }
}

// Router n announces its A-D routes: one for the segment, one for each tag.
fn come_up(c: &mut [u32], n: u8)
    requires { ValidCircuits c.old }
    ensures { ValidCircuits c.new }
{
    let _ = segment::announce_circuit(c, Scope::Segment, router(n));
    let _ = segment::announce_circuit(c, Scope::Instance(FIRST), router(n));
    let _ = segment::announce_circuit(c, Scope::Instance(SECOND), router(n));
}

// Prints the router that is elected for a tag, 0 for none, and N, beside what they should be.
fn show(
    rt: &impl Print,
    name: &[u8],
    t: &[u32],
    c: &[u32],
    tag: u32,
    wanted: u64,
    wanted_n: u64,
) -> io::Result<()>
    requires { ValidSegment t.now × ValidCircuits c.now }
{
    let (_, e) = answers::told(segment::elect_by_circuits(t, c, tag));
    show_number(rt, name, (e.address[0] % 256) as u64, wanted)?;
    show_number(rt, b"  candidates", e.n as u64, wanted_n)
}

// All three come up.
fn all_up(rt: &impl Print, t: &[u32], c: &mut [u32]) -> io::Result<()>
    requires { ValidSegment t.now × ValidCircuits c.old }
    ensures { ValidCircuits c.new }
{
    show(rt, b"no A-D route stands", t, c, FIRST, 0, 0)?;
    come_up(c, 1);
    come_up(c, 2);
    come_up(c, 3);
    show(rt, b"all are up: tag 100", t, c, FIRST, 2, 3)?;
    show(rt, b"all are up: tag 200", t, c, SECOND, 3, 3)
}

// Router 2 loses its circuit for one tag.
fn circuit_down(rt: &impl Print, t: &[u32], c: &mut [u32]) -> io::Result<()>
    requires { ValidSegment t.now × ValidCircuits c.old }
    ensures { ValidCircuits c.new }
{
    let _ = segment::withdraw_circuit(c, Scope::Instance(FIRST), router(2));
    show(rt, b"router 2 loses tag 100: tag 100", t, c, FIRST, 1, 2)?;
    show(rt, b"router 2 loses tag 100: tag 200", t, c, SECOND, 3, 3)
}

// Router 3 loses its link to the site, and gets it back: its per-instance routes stood all the time.
fn link_down(rt: &impl Print, t: &[u32], c: &mut [u32]) -> io::Result<()>
    requires { ValidSegment t.now × ValidCircuits c.old }
    ensures { ValidCircuits c.new }
{
    let _ = segment::withdraw_circuit(c, Scope::Segment, router(3));
    show(
        rt,
        b"router 3 loses the segment: tag 200",
        t,
        c,
        SECOND,
        1,
        2,
    )?;
    let _ = segment::announce_circuit(c, Scope::Segment, router(3));
    show(rt, b"router 3 is back: tag 200", t, c, SECOND, 3, 3)
}

// Announced again, withdrawn again, and a reserved tag.
fn numbers(rt: &impl Print, c: &mut [u32]) -> io::Result<()>
    requires { ValidCircuits c.old }
{
    let again = segment::announce_circuit(c, Scope::Segment, router(3));
    show_number(rt, b"announced again", refusals::number(&again) as u64, 0)?;
    let gone = segment::withdraw_circuit(c, Scope::Instance(FIRST), router(2));
    show_number(rt, b"withdrawn again", refusals::number(&gone) as u64, 9)?;
    let reserved = segment::announce_circuit(c, Scope::Instance(0), router(2));
    show_number(
        rt,
        b"a reserved tag",
        refusals::number(&reserved) as u64,
        10,
    )
}

// The whole example, upon a fresh table of A-D routes.
fn play(rt: &impl Print, t: &[u32]) -> io::Result<()>
    requires { ValidSegment t.now }
{
    let mut c = segment::fresh_circuits();
    all_up(rt, t, &mut c)?;
    circuit_down(rt, t, &mut c)?;
    link_down(rt, t, &mut c)?;
    numbers(rt, &mut c)
}

fn main(rt: HostRuntime) -> io::Result<()> {
    let site = three_routers();
    let t = site.words;
    play(&rt, &t)
}
