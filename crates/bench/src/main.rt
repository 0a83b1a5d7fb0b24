// The bench program (document 01, "The bench program"): records on standard input, answer lines on standard output. All that matters is in `blocks` and
// `records`; here octets are read, handed to `blocks::take_block`, and what it made is written. Input of any length is taken in constant memory: the
// next octets are read behind those that are left of the last ones. A read or a write that fails is told on standard error.
#![tactic(auto)]

ghost use Rattle.std.specs.Prelude.{◌≤◌, ◌<◌, length};
ghost use Rattle.layout.specs.Words.{Valid};

use blocks::Next;
use std::io::Read;
use turns::Phase;

// Where the program stands, while there is more to do: the phase of the run, and how many octets of the block are filled.
#[derive(Clone, Copy)]
struct Work {
    phase: Phase,
    filled: usize,
}

// Writes answer lines, and answers whether all of them were written.
fn write_lines(rt: &(impl Print + Eprint), made: &[u8]) -> bool {
    if rt.write_all(made).is_ok() {
        return true;
    }
    let _ = rt.eprintln("bench: writing to standard output failed");
    false
}

// The input has ended, and the octets that are left are no whole record.
fn end(rt: &(impl Print + Eprint), phase: Phase, rest: &[u8], out: &mut [u8]) {
    let wrote = run_ends::finish(phase, rest, out);
    write_lines(rt, &out[..wrote]);
}

// Reads octets to the front of a run, and answers how many. A read that fails is told, and answers none.
fn read_some(rt: &impl Eprint, input: &mut impl Read, room: &mut [u8]) -> usize
    ensures { result ≤ length room.new }
{
    match input.read(room) {
        Ok(got) => got,
        Err(_) => {
            let _ = rt.eprintln("bench: reading from standard input failed");
            0
        }
    }
}

// Reads more octets behind those that fill the block. There is room for one, so a read of none is the end of the input; a read that fails counts as the end
// too. After it there is nothing more to do.
fn read_more(
    rt: &(impl Print + Eprint),
    input: &mut impl Read,
    phase: Phase,
    block: &mut [u8],
    filled: usize,
    out: &mut [u8],
) -> Option<Work>
    requires { filled < length block.old }
{
    let more = read_some(rt, input, &mut block[filled..]);
    if more == 0 {
        end(rt, phase, &block[..filled], out);
        return None;
    }
    Some(Work {
        phase,
        filled: filled + more,
    })
}

// One turn: the block is taken, what it makes is written at once, and more is read where that is next. The block has room for the longest record.
fn turn(
    rt: &(impl Print + Eprint),
    input: &mut impl Read,
    t: &mut [u32],
    phase: Phase,
    block: &mut [u8],
    filled: usize,
    out: &mut [u8],
) -> Option<Work>
    requires { (259 ≤ length block.old) × Valid t.old }
    ensures { Valid t.new }
{
    let taken = blocks::take_block(t, phase, block, filled, out);
    let last = taken.phase;
    let left = taken.left;
    let wrote = taken.wrote;
    let next = taken.next;
    if !write_lines(rt, &out[..wrote]) {
        return None;
    }
    match next {
        Next::Done => None,
        Next::Again => Some(Work {
            phase: last,
            filled: left,
        }),
        Next::Read => read_more(rt, input, last, block, left, out),
    }
}

// A proved loop has to end, and nothing says that the input does: the turns are counted up to a number that no run reaches.
fn run(rt: &(impl Input + Print + Eprint), block: &mut [u8], out: &mut [u8])
    requires { 259 ≤ length block.old }
{
    let mut input = rt.reader();
    let begun = run_ends::start();
    let first = begun.phase;
    let mut t = begun.table;
    let mut work = Work {
        phase: first,
        filled: 0,
    };
    for _ in 0..u64::MAX {
        let Work { phase, filled } = work;
        let Some(more) = turn(rt, &mut input, &mut t, phase, block, filled, out) else {
            return;
        };
        work = more;
    }
}

fn main(rt: HostRuntime) {
    let mut block = [0u8; 65536];
    let mut out = [0u8; 65536];
    run(&rt, &mut block, &mut out);
}
