// How a run of the bench program starts and ends (document 01, "The bench program"): the state before the first record, whether nothing more is looked at, and
// what is printed where the input ends.
#![tactic(auto)]

ghost use Rattle.std.specs.Prelude.{◌≡◌, true, ℕ, List};
ghost use Rattle.layout.specs.Table.{Table};
ghost use Rattle.layout.specs.Words.{Valid};
ghost use Rattle.frames.specs.Frames.{front};
ghost use Rattle.lines.specs.Lines.{Put};
ghost use Rattle.turns.specs.Turns.{state_in};
ghost use Rattle.records.specs.Records.{is_end, first, end_of, run_from, run_of};
ghost use Rattle.run_ends.specs.Parts.{is_part};

use table::WORDS;
use turns::Phase;

// The state in which a run starts: the phase, and the words of the table that the run is then lent.
#[derive(Drop)]
pub struct Begun {
    pub phase: Phase,
    pub table: [u32; WORDS],
}

// Whether a run has ended: nothing more is looked at.
#[tactic(auto, unfolding(records::specs::Records::is_end))]
pub fn ended(phase: Phase) -> bool
    ensures { result ≡ is_end phase }
{
    matches!(phase, Phase::Ended)
}

// The state in which a run starts: from it, the run on an input is the whole output for that input.
pub fn start() -> Begun
    ensures answer { state_in result.phase result.table ≡ first }
    ensures run { (s : List ℕ) → run_from (state_in result.phase result.table) s ≡ run_of s }
    ensures kept { Valid result.table }
{
    let zeros = [0u8; 10];
    let made = table::fresh(&zeros);
    let words = made.table;
    Begun {
        phase: Phase::Start,
        table: words,
    }
}

// Puts what is printed where the input ends with the octets `rest`, which are no whole record: `x 16` if there are any and the run has not
// ended. Answers how many octets that is; where they do not fit, the buffer stays as it is and the answer is 0. It is what the run on
// those octets prints, whatever its table.
#[tactic(auto, using(crate::proofs::Runs::finishing))]
pub fn finish(phase: Phase, rest: &[u8], out: &mut [u8]) -> usize
    ensures answer { Put out.old 0 (end_of phase rest.now) result out.new }
    ensures run { (t : Table) → is_part (front rest.now) ≡ true → run_from (record { phase = phase; table = t }) rest.now ≡ end_of phase rest.now }
{
    if ended(phase) || rest.is_empty() {
        return 0;
    }
    answer_lines::put_bad(out, 0)
}
