// The turn of the first bench record (document 01, "The bench program"), a text that names the segment: it is read, its line is put into a lent buffer by
// `answer_lines`, and a fresh table is laid into the lent words.
#![tactic(auto)]

ghost use Rattle.std.specs.Prelude.{◌≡◌, ◌+◌, ◌≤◌, length};
ghost use Rattle.layout.specs.Words.{table_in, Valid};
ghost use Rattle.turns.specs.Turns.{text_turn};
ghost use Rattle.turns.specs.Steps.{Stepped};

use turns::{Phase, Step};

// The first record: a text that names the segment.
pub fn begin(t: &mut [u32], text: &[u8], out: &mut [u8], at: usize) -> Step
    requires { (at + 48 ≤ length out.old) × Valid t.old }
    ensures { Stepped out.old at (text_turn (table_in t.old) text.now) result t.new out.new }
{
    match esi::read_text(text) {
        Ok(esi) => {
            let end = answer_lines::put_read(out, at, b'p', 0, 0);
            let made = table::fresh(&esi);
            let words = made.table;
            t.copy_from_slice(&words);
            Step {
                phase: Phase::Running,
                at: end,
            }
        }
        Err(refused) => {
            let end = answer_lines::put_read(
                out,
                at,
                b'p',
                refused.refusal.number(),
                refused.offset,
            );
            Step {
                phase: Phase::Ended,
                at: end,
            }
        }
    }
}
