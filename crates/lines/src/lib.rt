// The pieces of an answer line (document 01, "The bench program"), put into a lent buffer one after the other: an octet, a run of octets; numbers and addresses
// are in `numerals`. One rule for all: a piece that fits from the position on is stored there, and the answer is the position after it; of a piece that does not
// fit nothing is stored, and the answer is the position itself.
#![tactic(auto)]

ghost use Rattle.std.specs.Prelude.{[], ◌∷◌};
ghost use Rattle.lines.specs.Lines.{Put};

// Puts one octet at position `at` and answers at + 1; where the buffer has no such position, it stays as it is and the answer is `at`.
pub fn put_octet(buf: &mut [u8], at: usize, x: u8) -> usize
    ensures { Put buf.old at (x ∷ []) result buf.new }
{
    if buf.len() <= at {
        return at;
    }
    buf[at] = x;
    at + 1
}

// Puts a run of octets from position `at` on and answers the position after it; where it does not fit, the buffer stays as it is and the answer
// is `at`.
pub fn put_run(buf: &mut [u8], at: usize, s: &[u8]) -> usize
    ensures { Put buf.old at s.now result buf.new }
{
    if buf.len() < at {
        return at;
    }
    if buf.len() - at < s.len() {
        return at;
    }
    octets::store(buf, at, s);
    at + s.len()
}
