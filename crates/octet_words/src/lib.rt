// Octets of a run as one word, as the machine loads them at once: the first octet low. A field of a route has its first octet high, and is the same word turned round.
// Every function asks for the octets that it reads; callers check before they call.
#![tactic(auto)]

ghost use Rattle.std.specs.Prelude.{◌≡◌, ◌+◌, ◌≤◌, length, take, drop};
ghost use Rattle.octets.specs.Octets.{number_of, word_at};
ghost use Rattle.octet_words.specs.Words.{low_first, low_octets};

// The number that two octets make, the first low.
#[tactic(auto, using(crate::proofs::Laws::low_two_at))]
pub fn low_two(s: &[u8], at: usize) -> u32
    requires { at + 2 ≤ length s.now }
    ensures { result ≡ low_first (take 2 (drop at s.now)) }
{
    u16::from_le_bytes([s[at], s[at + 1]]) as u32
}

// The number that four octets make, the first low.
#[tactic(auto, using(crate::proofs::Laws::low_four_at))]
pub fn low_four(s: &[u8], at: usize) -> u32
    requires { at + 4 ≤ length s.now }
    ensures { result ≡ low_first (take 4 (drop at s.now)) }
{
    u32::from_le_bytes([s[at], s[at + 1], s[at + 2], s[at + 3]])
}

// The four octets of a word, the low one first.
#[tactic(auto, using(crate::proofs::Laws::low_four_octets))]
pub fn of_low(x: u32) -> [u8; 4]
    ensures { result ≡ low_octets 4 x }
{
    x.to_le_bytes()
}

// A word with its octets turned round.
#[tactic(auto, using(crate::proofs::Laws::low_four_octets), unfolding(octets::specs::Octets::number_of))]
fn turned_round(x: u32) -> u32
    ensures { result ≡ number_of (low_octets 4 x) }
{
    u32::from_be_bytes(of_low(x))
}

// The number that four octets make, the first high.
pub fn high_four(s: &[u8], at: usize) -> u32
    requires { at + 4 ≤ length s.now }
    ensures { result ≡ word_at at s.now }
{
    turned_round(low_four(s, at))
}
