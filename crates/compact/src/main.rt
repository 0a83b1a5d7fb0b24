// The program that makes a log short (document 02, M-112): a log of bench records on standard input, the records of the table that it leaves on standard output. A log that
// prints `x 16`, or whose first record is refused, leaves none: nothing is written, and standard error says so. An empty log is short already. All that matters is in `blocks`
// and `compaction`; here octets are read and handed on, and the lines that the records print are not written. A log of any length is taken in constant memory.
#![tactic(auto)]

ghost use Rattle.std.specs.Prelude.{◌≤◌, ◌<◌, length, IfSome};
ghost use Rattle.layout.specs.Words.{Valid};

use blocks::Next;
use std::io::Read;
use turns::Phase;

// Where the program stands, while there is more to do: the phase of the run, and how many octets of the block are filled.
#[derive(Clone, Copy)]
struct Work {
    phase: Phase,
    filled: usize,
}

// Says that the log is none that can be made short.
fn refuse(rt: &impl Eprint) {
    let _ = rt.eprintln(
        "compact: nothing is written: the log prints x 16, or its first record is refused",
    );
}

// Writes the records of a table.
fn write_short(rt: &(impl Print + Eprint), t: &[u32], out: &mut [u8])
    requires { Valid t.now }
{
    let Ok(length) = compaction::write_log(t, out) else {
        refuse(rt);
        return;
    };
    if rt.write_all(&out[..length]).is_err() {
        let _ = rt.eprintln("compact: writing to standard output failed");
    }
}

// The log has ended, with so many octets left that are no whole record.
fn end(rt: &(impl Print + Eprint), t: &[u32], phase: Phase, left: usize, out: &mut [u8])
    requires { Valid t.now }
{
    if left != 0 {
        refuse(rt);
        return;
    }
    match phase {
        Phase::Start => {}
        Phase::Running => write_short(rt, t, out),
        Phase::Ended => refuse(rt),
    }
}

// Reads octets to the front of a run, and answers how many. A read that fails is told, and answers nothing.
fn read_some(rt: &impl Eprint, input: &mut impl Read, room: &mut [u8]) -> Option<usize>
    ensures { IfSome result (λ n. n ≤ length room.new) }
{
    match input.read(room) {
        Ok(got) => Some(got),
        Err(_) => {
            let _ = rt.eprintln("compact: nothing is written: reading from standard input failed");
            None
        }
    }
}

// Reads more octets behind those that fill the block. There is room for one, so a read of none is the end of the log. Where a read fails nothing is written: a log that was not read to its end is not
// made short.
fn read_more(
    rt: &(impl Print + Eprint),
    input: &mut impl Read,
    t: &[u32],
    phase: Phase,
    block: &mut [u8],
    filled: usize,
    out: &mut [u8],
) -> Option<Work>
    requires { (filled < length block.old) × Valid t.now }
{
    match read_some(rt, input, &mut block[filled..]) {
        None => None,
        Some(0) => {
            end(rt, t, phase, filled, out);
            None
        }
        Some(more) => Some(Work {
            phase,
            filled: filled + more,
        }),
    }
}

// One turn: the block is taken, and more is read where that is next. The block has room for the longest record.
fn turn(
    rt: &(impl Print + Eprint),
    input: &mut impl Read,
    t: &mut [u32],
    phase: Phase,
    block: &mut [u8],
    filled: usize,
    out: &mut [u8],
) -> Option<Work>
    requires { (259 ≤ length block.old) × Valid t.old }
    ensures { Valid t.new }
{
    let taken = blocks::take_block(t, phase, block, filled, out);
    let last = taken.phase;
    let left = taken.left;
    let next = taken.next;
    match next {
        Next::Done => {
            refuse(rt);
            None
        }
        Next::Again => Some(Work {
            phase: last,
            filled: left,
        }),
        Next::Read => read_more(rt, input, t, last, block, left, out),
    }
}

// A proved loop has to end, and nothing says that the log does: the turns are counted up to a number that no run reaches.
fn run(rt: &(impl Input + Print + Eprint), block: &mut [u8], out: &mut [u8])
    requires { 259 ≤ length block.old }
{
    let mut input = rt.reader();
    let begun = run_ends::start();
    let first = begun.phase;
    let mut t = begun.table;
    let mut work = Work {
        phase: first,
        filled: 0,
    };
    for _ in 0..u64::MAX {
        let Work { phase, filled } = work;
        let Some(more) = turn(rt, &mut input, &mut t, phase, block, filled, out) else {
            return;
        };
        work = more;
    }
}

fn main(rt: HostRuntime) {
    let mut block = [0u8; 65536];
    let mut out = [0u8; 65536];
    run(&rt, &mut block, &mut out);
}
