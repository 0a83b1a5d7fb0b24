// Highest random weight (HRW): CRC-32, the digest of an Ethernet Tag on a segment, and the weight of an address.
#![tactic(auto)]

ghost use Rattle.std.specs.Prelude.{◌≡◌, ◌∷◌, ◌++◌, ◌+◌, ◌*◌, ◌/◌, ◌%◌, ◌^◌, ◌<◌, length, get_or};
ghost use Rattle.std.specs.Int.Bits.{bit_xor};
ghost use Rattle.lists.specs.Lists.{Every};
ghost use Rattle.octets.specs.Octets.{octets_of};
ghost use Rattle.octet_words.specs.Words.{low_first, low_octets};
ghost use Rattle.crc.specs.Crc.{all_ones, crc_bits, crc_over, crc32_of};
ghost use Rattle.hrw.specs.Weight.{digest_of, flow_digest_of, weight_of};
ghost use Rattle.hrw.specs.Ties.{TieExactly};
ghost use Rattle.hrw.specs.Steps.{words_in, part_of};

// The CRC register of 32 ones: a CRC starts from it, and is inverted by it at the end.
const ALL_ONES: u32 = 0xFFFF_FFFF;

// The top bit of a CRC, which a digest drops: what is left is below it.
const TOP_BIT: u32 = 0x8000_0000;

// The weight's multiplier and increment, and twice each: a weight doubled is taken modulo 2^32, the double of the weight's modulus.
const MULTIPLIER: u64 = 1103515245;

const INCREMENT: u64 = 12345;

const TWICE_MULTIPLIER: u64 = 2207030490;

const TWICE_INCREMENT: u64 = 24690;

const WORD: u64 = 4294967296;

// The CRC register after eight bits more of what is in it: an octet that is mixed into it already.
fn crc_step(mixed: u32) -> u32
    ensures { result ≡ crc_bits 8 mixed }
{
    (mixed / 256) ^ crc::after_octet(256 + mixed % 256)
}

// The CRC register after four octets that are mixed into it already, as one word, the first low. It is a loop so that the table is asked for in one place: the
// compiler copies so large a `match` into one place alone.
fn crc_word(mixed: u32) -> u32
    ensures { result ≡ crc_bits 32 mixed }
{
    let mut r = mixed;
    for _ in 0..4u32 {
        r = crc_step(r);
    }
    r
}

// The CRC register after the octets of s, four at a time, from any state of it. They are read here, and not by `octet_words::low_four`: so the compiler hands the slice over in
// registers.
fn crc_words(state: u32, s: &[u8]) -> u32
    requires { length s.now % 4 ≡ 0 }
    ensures { result ≡ crc_over state s.now }
{
    let mut r = state;
    for i in 0..s.len() / 4 {
        let word = u32::from_le_bytes([s[4 * i], s[4 * i + 1], s[4 * i + 2], s[4 * i + 3]]);
        r = crc_word(r ^ word);
    }
    r
}

// The CRC register after the octets of s, one at a time.
fn crc_octets(state: u32, s: &[u8]) -> u32
    ensures { result ≡ crc_over state s.now }
{
    let mut r = state;
    for octet in s {
        r = crc_step(r ^ (*octet as u32));
    }
    r
}

// The CRC-32 of the octets of s: whole words of them, then those that are left.
pub fn crc32(s: &[u8]) -> u32
    ensures { result ≡ crc32_of s.now }
{
    let whole = s.len() / 4 * 4;
    let words = crc_words(ALL_ONES, &s[0..whole]);
    crc_octets(words, &s[whole..]) ^ ALL_ONES
}

// The word two octets further on in a run of two words: the high half of the one, then the low half of the other.
fn between(low: u32, high: u32) -> u32
    ensures { result ≡ low / 65536 + high % 65536 * 65536 }
{
    low / 65536 + high % 65536 * 65536
}

// What every digest ends with, an Ethernet Tag's four octets, high first, then the identifier's ten, as four words for an empty register: the state so far is
// mixed into the tag, and before it are two zeros, which leave an empty register empty. The words are put together here and not from octets in memory, which a load of a word across them would wait for.
fn padded(state: u32, tag: u32, esi: &[u8]) -> [u32; 4]
    requires { length esi.now ≡ 10 }
    ensures words { result ≡ words_in 4 (0 ∷ 0 ∷ (low_octets 4 (bit_xor state (low_first (octets_of 4 tag))) ++ esi.now)) }
    ensures fits { (state < 2 ^ 32) × Every (λ o. o < 256) esi.now }
{
    let head = octets::of_u32(tag);
    let x = state ^ octet_words::low_four(&head, 0);
    let a = octet_words::low_four(esi, 0);
    let b = octet_words::low_four(esi, 4);
    let c = octet_words::low_two(esi, 8);
    [between(0, x), between(x, a), between(a, b), between(b, c)]
}

// How many words a part of a digest has: S is part 0, G part 1, and what every digest ends with part 2.
fn part_len(part: usize, source: &[u8], group: &[u8], last: &[u32]) -> usize
    ensures { result ≡ length (part_of part source.now group.now last.now) }
{
    if part == 0 {
        return source.len() / 4;
    }
    if part == 1 {
        return group.len() / 4;
    }
    last.len()
}

// A word of such a part.
fn part_word(part: usize, i: usize, source: &[u8], group: &[u8], last: &[u32]) -> u32
    requires { i < length (part_of part source.now group.now last.now) }
    ensures { result ≡ get_or (part_of part source.now group.now last.now) i 0 }
{
    if part == 0 {
        return octet_words::low_four(source, 4 * i);
    }
    if part == 1 {
        return octet_words::low_four(group, 4 * i);
    }
    last[i]
}

// The digest of a multicast flow on a segment: the CRC-32 of the octets of S and of G, then of the tag's four, high first, and the identifier's ten, with the top bit dropped. Of a flow (*,G), S is empty. The
// words of each part are gone over in one place, so that the table is asked for in one place: the compiler then writes a loop for each part, and calls nothing.
pub fn flow_digest(source: &[u8], group: &[u8], tag: u32, esi: [u8; 10]) -> u32
    requires { (length source.now % 4 ≡ 0) × (length group.now % 4 ≡ 0) }
    ensures { result ≡ flow_digest_of (source.now ++ group.now) tag esi }
{
    let mut r = ALL_ONES;
    let mut last: [u32; 4] = [0; 4];
    for part in 0..3 {
        if part == 2 {
            last = padded(r, tag, &esi);
            r = 0;
        }
        let n = part_len(part, source, group, &last);
        for i in 0..n {
            r = crc_word(r ^ part_word(part, i, source, group, &last));
        }
    }
    (r ^ ALL_ONES) % TOP_BIT
}

// The digest D of an Ethernet Tag on a segment: that of the tag and the identifier, with nothing before them.
pub fn digest(tag: u32, esi: [u8; 10]) -> u32
    ensures { result ≡ digest_of tag esi }
{
    let none: [u8; 0] = [0; 0];
    flow_digest(&none, &none, tag, esi)
}

// Twice the weight of an address under any digest: a word full, so that no bit is left to cut off. Weights doubled stand in the order of the weights.
pub fn doubled_weight(address: u32, digest: u32) -> u32
    ensures answer { result ≡ 2 * weight_of address digest }
    ensures ties { TieExactly address digest (result / 2) }
{
    let mixed = (MULTIPLIER * (address as u64) + INCREMENT) ^ (digest as u64);
    ((TWICE_MULTIPLIER * (mixed % WORD) + TWICE_INCREMENT) % WORD) as u32
}
