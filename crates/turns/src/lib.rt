// The turn of one bench record of each kind (document 01, "The bench program"): it is carried out upon a lent table, and its line is put into a lent
// buffer by `answer_lines`. That of the first record is carried out in `opening`, that of a query in `queries`.
#![tactic(auto)]

ghost use Rattle.std.specs.Prelude.{◌≡◌, ℕ, ◌+◌, ◌≤◌, List, length, get_or};
ghost use Rattle.layout.specs.Words.{table_in, Valid};
ghost use Rattle.route.specs.Route.{total_of};
ghost use Rattle.payloads.specs.Payloads.{size_of};
ghost use Rattle.turns.specs.Turns.{bad_turn, announce_turn, withdraw_turn};
ghost use Rattle.turns.specs.Steps.{Stepped};

// Where a run stands: no record was taken, records are carried out, nothing more is looked at.
#[derive(Clone, Copy)]
pub enum Phase {
    Start,
    Running,
    Ended,
}

// The phase after a record, and the position after its line.
#[derive(Clone, Copy)]
pub struct Step {
    pub phase: Phase,
    pub at: usize,
}

// A bad record: its line is put, and the run ends. The table stays as it is, whatever its words are.
pub fn refuse(out: &mut [u8], at: usize) -> Step
    requires { at + 48 ≤ length out.old }
    ensures { (w : List ℕ) → Valid w → Stepped out.old at (bad_turn (table_in w)) result w out.new }
{
    let end = answer_lines::put_bad(out, at);
    Step {
        phase: Phase::Ended,
        at: end,
    }
}

// An announcement: the route octets, 25 or 37 by the length of its address, then communities.
pub fn announce(t: &mut [u32], payload: &[u8], out: &mut [u8], at: usize) -> Step
    requires { (at + 48 ≤ length out.old) × (total_of (get_or payload.now 20 0) ≤ length payload.now) × Valid t.old }
    ensures { Stepped out.old at (announce_turn (table_in t.old) payload.now) result t.new out.new }
{
    let n = route::total(payload[20]);
    let answer = announcing::announce(t, &payload[..n], &payload[n..]);
    let (number, offset) = match answer {
        Ok(()) => (0, 0),
        Err(told) => (told.refusal.number(), told.offset),
    };
    let end = answer_lines::put_read(out, at, b'a', number, offset);
    Step {
        phase: Phase::Running,
        at: end,
    }
}

// A withdrawal of an address.
pub fn withdraw(t: &mut [u32], v6: bool, payload: &[u8], out: &mut [u8], at: usize) -> Step
    requires { (at + 48 ≤ length out.old) × (length payload.now ≡ size_of v6) × Valid t.old }
    ensures { Stepped out.old at (withdraw_turn (table_in t.old) v6 payload.now) result t.new out.new }
{
    let address = payloads::address_at(payload, 0, v6);
    let answer = table::withdraw(t, address);
    let number = refusals::number(&answer);
    let end = answer_lines::put_line(out, at, b'w', number);
    Step {
        phase: Phase::Running,
        at: end,
    }
}
