// The turn of a bench query (document 01, "The bench program"): the tag and the ready addresses are read, and the line of the election's answer is put into a lent
// buffer by `query_lines`.
#![tactic(auto)]

ghost use Rattle.std.specs.Prelude.{◌+◌, ◌≤◌, length};
ghost use Rattle.layout.specs.Words.{table_in, Valid};
ghost use Rattle.turns.specs.Turns.{query_turn};
ghost use Rattle.turns.specs.Steps.{Stepped};

use address::WIDTH;
use turns::{Phase, Step};

// The words of as many rows as a ready list may have.
const READY_WORDS: usize = 320;

// A query: the tag, then the ready addresses.
pub fn query(t: &[u32], v6: bool, payload: &[u8], out: &mut [u8], at: usize) -> Step
    requires { (at + 48 ≤ length out.old) × (4 ≤ length payload.now) × (length payload.now ≤ 255) × Valid t.now }
    ensures { Stepped out.old at (query_turn (table_in t.now) v6 payload.now) result t.now out.new }
{
    let tag = octets::u32_of(payload[0], payload[1], payload[2], payload[3]);
    let rest = &payload[4..];
    let mut ready = [0u32; READY_WORDS];
    payloads::put_rows(&mut ready, rest, v6);
    let n = rest.len() / payloads::size(v6) * WIDTH;
    let none = settings::fresh();
    let answer = election::elect(t, &none, tag, &ready[..n]);
    let end = query_lines::put_answer(out, at, answer);
    Step {
        phase: Phase::Running,
        at: end,
    }
}
