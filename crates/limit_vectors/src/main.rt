// Runs document 01's values at the limits ("Values to hold against the definitions", those without a star) and prints each beside what it should be:
// the reserved tags, and the 65th address of a segment.
#![tactic(auto)]

ghost use Rattle.segment_state.specs.State.{ValidSegment};

use example_tables::{Table, announce, empty_table, number, refusal, with, without};
use std::io;
use vector_lines::show_number;

// Reserved tags.
fn tags(rt: &impl Print) -> io::Result<()> {
    let mut t = with(empty_table(), 1, 0, 0, false);
    t = with(t, 2, 0, 0, false);
    t = with(t, 3, 0, 0, false);
    show_number(rt, b"tag 0", refusal(t, 0), 10)?;
    show_number(rt, b"tag 4294967295", refusal(t, 4294967295), 10)?;
    show_number(rt, b"tag 4294967294", refusal(t, 4294967294), 0)
}

// A table of the routers 1 to 64.
fn sixty_four() -> Table
    ensures { ValidSegment result.words }
{
    let mut t = empty_table();
    for n in 1..65 {
        t = with(t, n, 0, 0, false);
    }
    t
}

// The 65th address.
fn full_table(rt: &impl Print) -> io::Result<()> {
    let mut t = sixty_four();
    let refused = announce(t, 65, 0, 0, false);
    show_number(rt, b"a 65th address", number(refused), 8)?;
    let replaced = announce(t, 64, 0, 0, false);
    show_number(
        rt,
        b"an address that is present, at 64",
        number(replaced),
        0,
    )?;
    t = without(t, 7);
    let accepted = announce(t, 65, 0, 0, false);
    show_number(
        rt,
        b"a 65th address after one withdrawal",
        number(accepted),
        0,
    )
}

fn main(rt: HostRuntime) -> io::Result<()> {
    tags(&rt)?;
    full_table(&rt)
}
