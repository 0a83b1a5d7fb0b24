// The DF Election Extended Community: writing one, and reading the list of communities that a route comes with.
#![tactic(auto)]

ghost use Rattle.std.specs.Prelude.{◌≡◌, cond, ◌&&◌, ◌+◌, ◌≤◌, ◌%◌, length, take, drop, eqb};
ghost use Rattle.refusals.specs.Numbers.{number_of};
ghost use Rattle.community.specs.Community.{election_under, read_community, read_list, told_list, write_number, community_written};
ghost use Rattle.community.specs.Search.{FirstFrom};

use refusals::Refusal;

// What a route says of the election: document 01's entry without its address.
#[derive(Clone, Copy)]
pub struct Election {
    pub algorithm: u8,
    pub ac_df: bool,
    pub dp: bool,
    pub preference: u16,
}

// What a route without an election community says.
const NO_ELECTION: Election = Election {
    algorithm: 0,
    ac_df: false,
    dp: false,
    preference: 0,
};

// What a community says under an algorithm: DP and preference count under 2 and 3 only.
#[tactic(auto, unfolding(crate::specs::Community::election_under))]
fn under(algorithm: u8, ac_df: bool, dp: bool, preference: u16) -> Election
    ensures { result ≡ election_under algorithm ac_df dp preference }
{
    match algorithm {
        2 | 3 => Election {
            algorithm,
            ac_df,
            dp,
            preference,
        },
        _ => Election {
            algorithm,
            ac_df,
            dp: false,
            preference: 0,
        },
    }
}

// What the community at position `at` of a list says.
#[tactic(auto, using(crate::proofs::Laws::read_at))]
fn read_at(s: &[u8], at: usize) -> Election
    requires { at + 8 ≤ length s.now }
    ensures { result ≡ read_community (take 8 (drop at s.now)) }
{
    let algorithm = s[at + 2] % 32;
    let flags = s[at + 3];
    let ac_df = flags / 64 % 2;
    let dp = flags / 128 % 2;
    let preference = octets::u16_of(s[at + 6], s[at + 7]);
    under(algorithm, ac_df == 1, dp == 1, preference)
}

// Where the first election community at or after position `from` starts.
#[tactic(auto, using(crate::proofs::Laws::walking))]
fn find(s: &[u8], from: usize) -> Option<usize>
    requires { (length s.now % 8 ≡ 0) × (from % 8 ≡ 0) × (from ≤ length s.now) }
    ensures { FirstFrom s.now from result }
{
    let mut at = from;
    while at < s.len() {
        if s[at] == 6 && s[at + 1] == 6 {
            return Some(at);
        }
        at += 8;
    }
    None
}

// Reads a list of communities: 7 for a length over 256 or not a multiple of 8. Communities that do not start 06 06 are skipped; several
// election communities count as none, alike or not, and none means algorithm 0 without capabilities.
#[tactic(auto, using(crate::proofs::Laws::lists_read))]
pub fn read_list(s: &[u8]) -> Result<Election, Refusal>
    ensures { told_list result ≡ read_list s.now }
{
    if 256 < s.len() || s.len() % 8 != 0 {
        return Err(Refusal::ListLength);
    }
    let Some(at) = find(s, 0) else {
        return Ok(NO_ELECTION);
    };
    let election = read_at(s, at);
    match find(s, at + 8) {
        None => Ok(election),
        Some(_) => Ok(NO_ELECTION),
    }
}

// The capability octet: 80 hex is DP, 40 hex is AC-DF.
fn capabilities(dp: bool, ac_df: bool) -> u8
    ensures { result ≡ cond dp 128 0 + cond ac_df 64 0 }
{
    if dp {
        if ac_df { 192 } else { 128 }
    } else {
        if ac_df { 64 } else { 0 }
    }
}

// Writes an election community into the first 8 octets of a buffer: 15 for an algorithm above 31, then 14 for a buffer under 8 octets,
// which leave the buffer as it is. What was written reads back as it was meant.
#[tactic(auto, using(crate::proofs::Laws::writing))]
pub fn write(
    buf: &mut [u8],
    algorithm: u8,
    ac_df: bool,
    dp: bool,
    preference: u16,
) -> Result<(), Refusal>
    ensures number { number_of result ≡ write_number algorithm (length buf.old) }
    ensures written { buf.new ≡ community_written buf.old algorithm ac_df dp preference }
    ensures reads { number_of result ≡ 0 → read_list (take 8 buf.new) ≡ record { number = 0; election = election_under algorithm ac_df dp preference } }
{
    if 31 < algorithm {
        return Err(Refusal::AlgorithmNotUsable);
    }
    if buf.len() < 8 {
        return Err(Refusal::BufferShort);
    }
    let e = under(algorithm, ac_df, dp, preference);
    let flags = capabilities(e.dp, ac_df);
    let p = octets::of_u16(e.preference);
    let image = [6, 6, algorithm, flags, 0, 0, p[0], p[1]];
    octets::store(buf, 0, &image);
    Ok(())
}
