// Blocks of input taken record by record (document 01, "The bench program"): what stands at a position of the block is taken by `records`, as long as
// the records are whole and their lines find room, and what is left over is kept at the block's front. A run's start and end are in `run_ends`; reading and writing is the
// program's.
#![tactic(auto)]

ghost use Rattle.std.specs.Prelude.{◌≡◌, true, false, ◌+◌, ◌≤◌, min, length};
ghost use Rattle.octets.specs.Octets.{stored};
ghost use Rattle.layout.specs.Words.{Valid};
ghost use Rattle.turns.specs.Turns.{state_in};
ghost use Rattle.records.specs.Records.{is_end};
ghost use Rattle.blocks.specs.Blocks.{Advanced, Ran, Stopped, kept, next_in, BlockTaken};

use answer_lines::LINE_ROOM;
use frames::Frame;
use turns::Phase;

// What is to be done next, once the output is written: nothing, as the run has ended; the block is to be taken again, as a line may not have found room;
// more input is to be read, as what is kept is no whole record.
#[derive(Clone, Copy)]
pub enum Next {
    Done,
    Again,
    Read,
}

// What taking a block answers: the phase, how many octets are kept at the front of the block, how many octets of output are made, and what is next.
#[derive(Clone, Copy)]
pub struct Taken {
    pub phase: Phase,
    pub left: usize,
    pub wrote: usize,
    pub next: Next,
}

// How far the octets of a block were taken: the phase, how many octets of input are used, and how many octets of output are made.
#[derive(Clone, Copy)]
struct Progress {
    phase: Phase,
    used: usize,
    wrote: usize,
}

// One record at position `used` of the input, or none, where the octets from there on hold no whole record.
fn take_record(
    t: &mut [u32],
    phase: Phase,
    input: &[u8],
    used: usize,
    out: &mut [u8],
    wrote: usize,
) -> Progress
    requires { (used ≤ length input.now) × (wrote + 48 ≤ length out.old) × (is_end phase ≡ false) × Valid t.old }
    ensures run { Advanced (state_in phase t.old) input.now used out.old wrote result (state_in result.phase t.new) out.new }
    ensures kept { Valid t.new }
{
    let frame = frames::frame_at(input, used);
    match frame {
        Frame::Nothing => Progress { phase, used, wrote },
        Frame::Cut => Progress { phase, used, wrote },
        Frame::Bad => {
            let end = answer_lines::put_bad(out, wrote);
            Progress {
                phase: Phase::Ended,
                used: input.len(),
                wrote: end,
            }
        }
        Frame::Whole { kind, start, len } => {
            let after = start + len;
            let step = records::take_turn(t, phase, kind, &input[start..after], out, wrote);
            let next = step.phase;
            let end = step.at;
            Progress {
                phase: next,
                used: after,
                wrote: end,
            }
        }
    }
}

// One record, or none, where the run has ended or the room for a line is too little.
fn advance(
    t: &mut [u32],
    phase: Phase,
    input: &[u8],
    used: usize,
    out: &mut [u8],
    wrote: usize,
) -> Progress
    requires { (used ≤ length input.now) × (wrote ≤ length out.old) × Valid t.old }
    ensures run { Advanced (state_in phase t.old) input.now used out.old wrote result (state_in result.phase t.new) out.new }
    ensures kept { Valid t.new }
{
    let room = out.len() - wrote;
    if room < LINE_ROOM {
        return Progress { phase, used, wrote };
    }
    if run_ends::ended(phase) {
        return Progress { phase, used, wrote };
    }
    take_record(t, phase, input, used, out, wrote)
}

// Takes the records of a block of input, as far as they are whole and their lines find room: the first `used` octets of the input are done with, and what
// they print stands in the first `wrote` octets of the buffer; the others stay as they are. Whatever follows the block, the run goes on from the
// phase in the answer and the table, with the octets of the block that were not used at its front.
fn process(t: &mut [u32], phase: Phase, input: &[u8], out: &mut [u8]) -> Progress
    requires { Valid t.old }
    ensures run { Ran (state_in phase t.old) input.now out.old result (state_in result.phase t.new) out.new }
    ensures stopped { Stopped input.now out.old result (state_in result.phase t.new) ≡ true }
    ensures kept { Valid t.new }
{
    let mut p = Progress {
        phase,
        used: 0,
        wrote: 0,
    };
    loop {
        let last = p.phase;
        let used = p.used;
        let wrote = p.wrote;
        let next = advance(t, last, input, used, out, wrote);
        if next.used == used {
            return next;
        }
        p = next;
    }
}

// Moves the octets of a block that were not used to its front: those from position `used` up to position `filled`, where a position past the end counts
// as the end. The other octets stay as they are. Answers how many octets were moved.
fn keep(block: &mut [u8], used: usize, filled: usize) -> usize
    ensures count { result ≡ length (kept block.old used filled) }
    ensures moved { block.new ≡ stored block.old 0 (kept block.old used filled) }
{
    let end = filled.min(block.len());
    if end <= used {
        return 0;
    }
    let n = end - used;
    for i in 0..n {
        block[i] = block[used + i];
    }
    n
}

// What is to be done next, in a phase and with room for so many octets left.
fn next_in(phase: Phase, spare: usize) -> Next
    ensures { result ≡ next_in phase spare }
{
    if run_ends::ended(phase) {
        return Next::Done;
    }
    if spare < LINE_ROOM {
        return Next::Again;
    }
    Next::Read
}

// Takes the first `filled` octets of a block record by record, as far as that can be; where the block is shorter, all of it. Whatever follows these octets,
// the run on them is what the first `wrote` octets of the output buffer then hold, and then the run from the phase in the answer and the table, on the
// first `left` octets that the block then holds and what follows. These are the last of the octets that were handed in. The other octets of both
// buffers stay as they are. `next` says why no more was taken. A line asks for 48 octets of room: in a smaller buffer the run never gets on.
pub fn take_block(
    t: &mut [u32],
    phase: Phase,
    block: &mut [u8],
    filled: usize,
    out: &mut [u8],
) -> Taken
    requires { Valid t.old }
    ensures run { BlockTaken (state_in phase t.old) block.old filled out.old result (state_in result.phase t.new) block.new out.new }
    ensures kept { Valid t.new }
{
    let n = filled.min(block.len());
    let p = process(t, phase, &block[..n], out);
    let last = p.phase;
    let used = p.used;
    let wrote = p.wrote;
    let left = keep(block, used, n);
    let spare = out.len() - wrote;
    let next = next_in(last, spare);
    Taken {
        phase: last,
        left,
        wrote,
        next,
    }
}
