// A log of bench records made short (document 02, M-112): the table that it leaves, written out as a run of records, which leaves the same table.
#![tactic(auto)]

ghost use Rattle.std.specs.Prelude.{◌≡◌, List, ℕ, length, take};
ghost use Rattle.layout.specs.Words.{table_in, Valid};
ghost use Rattle.segment_state.specs.State.{segment_in, ValidSegment};
ghost use Rattle.log_octets.specs.Log.{log_number, log_length, log_written, logged_of};
ghost use Rattle.replays.specs.Played.{Leaves, AnswersAlike};
ghost use Rattle.compaction.specs.Compaction.{PlaysBack};

use refusals::Refusal;
use segment_state::SETTINGS;

// Writes a table out as a run of bench records, the text of its identifier and then an announcement for each entry in address order, and answers how many octets that is. It is refused with 4 for the
// table of a reserved identifier, 14 for a buffer that the run does not fit into; these leave the buffer as it is. Only the octets of the run change. Played into the bench program the run
// leaves the same table; and whatever follows it there is answered as it is after any log that leaves this table.
pub fn write_log(t: &[u32], out: &mut [u8]) -> Result<usize, Refusal>
    requires { Valid t.now }
    ensures answer { ((logged_of result).number ≡ log_number (table_in t.now) (length out.old)) × ((logged_of result).length ≡ log_length (table_in t.now) (length out.old)) }
    ensures written { out.new ≡ log_written out.old (table_in t.now) }
    ensures plays_back { (logged_of result).number ≡ 0 → PlaysBack (take (logged_of result).length out.new) (table_in t.now) }
    ensures answers_alike { (logged_of result).number ≡ 0 → (s : List ℕ) → Leaves s (table_in t.now) → AnswersAlike s (take (logged_of result).length out.new) }
{
    log_octets::write_log(t, out)
}

// The same upon the state of a segment, of which the table is written out: what the operator has set is not.
pub fn write_segment(s: &[u32], out: &mut [u8]) -> Result<usize, Refusal>
    requires { ValidSegment s.now }
    ensures answer { ((logged_of result).number ≡ log_number (segment_in s.now).table (length out.old)) × ((logged_of result).length ≡ log_length (segment_in s.now).table (length out.old)) }
    ensures written { out.new ≡ log_written out.old (segment_in s.now).table }
    ensures plays_back { (logged_of result).number ≡ 0 → PlaysBack (take (logged_of result).length out.new) (segment_in s.now).table }
    ensures answers_alike { (logged_of result).number ≡ 0 → (l : List ℕ) → Leaves l (segment_in s.now).table → AnswersAlike l (take (logged_of result).length out.new) }
{
    write_log(&s[..SETTINGS], out)
}
