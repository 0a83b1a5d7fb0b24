// For the vectors of ranges of tags: ranges set, and the router that is elected for a tag, printed beside what they should be.
#![tactic(auto)]

ghost use Rattle.segment_state.specs.State.{ValidSegment};

use std::io;
use vector_lines::show_number;

// What a range names: Highest-Preference or Lowest-Preference.
pub const UP: u32 = 2;

pub const DOWN: u32 = 3;

// The operator sets ranges.
pub fn set(rt: &impl Print, name: &[u8], t: &mut [u32], run: &[u32], wanted: u64) -> io::Result<()>
    requires { ValidSegment t.old }
    ensures { ValidSegment t.new }
{
    let set = segment::set_ranges(t, run);
    show_number(rt, name, refusals::number(&set) as u64, wanted)
}

// Prints the router that is elected for a tag, and the algorithm that the answer tells, beside what they should be.
pub fn show(
    rt: &impl Print,
    name: &[u8],
    t: &[u32],
    tag: u32,
    wanted: u64,
    wanted_algorithm: u64,
) -> io::Result<()>
    requires { ValidSegment t.now }
{
    let none: [u32; 0] = [0; 0];
    let (_, e) = answers::told(segment::elect(t, tag, &none));
    show_number(rt, name, (e.address[0] % 256) as u64, wanted)?;
    show_number(rt, b"  algorithm", e.algorithm as u64, wanted_algorithm)
}
