// One whole record of the bench program in any state of the run (document 01, "The bench program"): it is judged by `judgement`, and its turn is taken by `opening`,
// `turns` and `queries`.
#![tactic(auto)]

ghost use Rattle.std.specs.Prelude.{◌≡◌, true, false, ◌+◌, ◌≤◌, length};
ghost use Rattle.layout.specs.Words.{table_in, Valid};
ghost use Rattle.turns.specs.Turns.{state_in};
ghost use Rattle.turns.specs.Steps.{Stepped};
ghost use Rattle.records.specs.Records.{judged_turn, turn, takes};

use answer_lines::LINE_ROOM;
use judgement::Judged;
use turns::{Phase, Step};

// The most octets that a record's payload has.
const MAX_PAYLOAD: usize = 255;

// A record after the first: judged, and carried out. No text of an identifier comes here; its turn stands for it as for any other record.
fn later(t: &mut [u32], kind: u8, payload: &[u8], out: &mut [u8], at: usize) -> Step
    requires { (at + 48 ≤ length out.old) × (length payload.now ≤ 255) × Valid t.old }
    ensures { Stepped out.old at (judged_turn (table_in t.old) false kind payload.now) result t.new out.new }
{
    let judged = judgement::judge(false, kind, payload);
    match judged {
        Judged::Text => opening::begin(t, payload, out, at),
        Judged::Announcement => turns::announce(t, payload, out, at),
        Judged::Withdrawal(v6) => turns::withdraw(t, v6, payload, out, at),
        Judged::Query(v6) => queries::query(t, v6, payload, out, at),
        Judged::Bad => turns::refuse(out, at),
    }
}

// One whole record, in any state. The first is judged here, by its kind, so that the judgement of the others stands alone.
#[tactic(auto, using(crate::proofs::Turns::turn_by_phase))]
fn carry_out(
    t: &mut [u32],
    phase: Phase,
    kind: u8,
    payload: &[u8],
    out: &mut [u8],
    at: usize,
) -> Step
    requires { (at + 48 ≤ length out.old) × (length payload.now ≤ 255) × Valid t.old }
    ensures { Stepped out.old at (turn (state_in phase t.old) kind payload.now) result t.new out.new }
{
    match phase {
        Phase::Start => {
            if kind != 0 {
                return turns::refuse(out, at);
            }
            opening::begin(t, payload, out, at)
        }
        Phase::Running => later(t, kind, payload, out, at),
        Phase::Ended => Step { phase, at },
    }
}

// One whole record, in any state: its line is put from position `at` on. Where fewer than 48 octets are left there, or where the payload has more than
// 255 octets, which no frame holds, nothing is done: the answer is `phase` and `at`, and the table and the buffer stay as they are.
#[tactic(auto, using(crate::proofs::Laws::taking))]
pub fn take_turn(
    t: &mut [u32],
    phase: Phase,
    kind: u8,
    payload: &[u8],
    out: &mut [u8],
    at: usize,
) -> Step
    requires { Valid t.old }
    ensures taken { takes out.old at payload.now ≡ true → Stepped out.old at (turn (state_in phase t.old) kind payload.now) result t.new out.new }
    ensures none { takes out.old at payload.now ≡ false → (result.phase ≡ phase) × (result.at ≡ at) × (t.new ≡ t.old) × (out.new ≡ out.old) }
{
    if payload.len() > MAX_PAYLOAD {
        return Step { phase, at };
    }
    if out.len() < at {
        return Step { phase, at };
    }
    let room = out.len() - at;
    if room < LINE_ROOM {
        return Step { phase, at };
    }
    carry_out(t, phase, kind, payload, out, at)
}
