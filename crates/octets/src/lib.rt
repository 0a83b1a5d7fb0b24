// Octets: numbers from and to them, high octet first; storing a run into a lent buffer.
#![tactic(auto)]

ghost use Rattle.std.specs.Prelude.{◌≡◌, [], ◌∷◌, length};
ghost use Rattle.octets.specs.Octets.{number_of, octets_of, all_are, hex_digit, stored};

// The number that two octets make.
#[tactic(auto, unfolding(crate::specs::Octets::number_of))]
pub fn u16_of(a: u8, b: u8) -> u16
    ensures { result ≡ number_of (a ∷ b ∷ []) }
{
    u16::from_be_bytes([a, b])
}

// The number that four octets make.
#[tactic(auto, unfolding(crate::specs::Octets::number_of))]
pub fn u32_of(a: u8, b: u8, c: u8, d: u8) -> u32
    ensures { result ≡ number_of (a ∷ b ∷ c ∷ d ∷ []) }
{
    u32::from_be_bytes([a, b, c, d])
}

// The two octets of a number.
#[tactic(auto, unfolding(crate::specs::Octets::octets_of))]
pub fn of_u16(v: u16) -> [u8; 2]
    ensures { result ≡ octets_of 2 v }
{
    u16::to_be_bytes(v)
}

// The four octets of a number.
#[tactic(auto, unfolding(crate::specs::Octets::octets_of))]
pub fn of_u32(v: u32) -> [u8; 4]
    ensures { result ≡ octets_of 4 v }
{
    u32::to_be_bytes(v)
}

// The hexadecimal digits, in lower case.
const DIGITS: &[u8; 16] = b"0123456789abcdef";

// The hexadecimal digit of the low four bits of a number, in lower case.
#[tactic(auto, using(crate::proofs::Laws::digit_rows))]
pub fn hex_digit(n: u8) -> u8
    ensures { result ≡ hex_digit n }
{
    DIGITS[(n % 16) as usize]
}

// Whether every octet is x.
pub fn all_are(s: &[u8], x: u8) -> bool
    ensures { result ≡ all_are x s.now }
{
    s.iter().all(|o| *o == x)
}

// Stores the octets of src into dst from place `at` on; where they do not fit, dst stays as it is.
#[tactic(auto, using(crate::proofs::Laws::stores))]
pub fn store(dst: &mut [u8], at: usize, src: &[u8])
    ensures { dst.new ≡ stored dst.old at src.now }
{
    if dst.len() < at {
        return;
    }
    if dst.len() - at < src.len() {
        return;
    }
    dst[at..at + src.len()].copy_from_slice(src);
}
