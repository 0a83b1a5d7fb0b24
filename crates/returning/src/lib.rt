// The preference and the DP bit that a router advertises when it comes back from repair (RFC 9785, section 4.3), also where ranges of tags are set.
#![tactic(auto)]

ghost use Rattle.std.specs.Prelude.{◌≡◌, true, false, cond, ◌&&◌, ◌-◌, ◌<◌, ◌≤◌, ◌^◌, length, eqb};
ghost use Rattle.address.specs.Address.{address_row};
ghost use Rattle.layout.specs.Words.{table_in, Valid};
ghost use Rattle.settings.specs.Settings.{settings_in, ValidSettings};
ghost use Rattle.places.specs.Places.{places, stretch};
ghost use Rattle.winner.specs.Winner.{entries_at};
ghost use Rattle.returning.specs.Returning as returning;
ghost use Rattle.returning.specs.Returning.{all_under, reaches, reference, beside_reference, beside_both, advertised, advertised_both, returning_with, sent_pair, sent_in};

use address::Address;
use refusals::Refusal;

// The pair that is sent; of zeros where nothing is.
#[derive(Clone, Copy, Debug, Default, PartialEq, Eq)]
pub struct Pair {
    pub preference: u16,
    pub dp: bool,
}

// The places of the other routes: all places in use but that of the own address.
fn others(t: &[u32], address: Address) -> u64
    requires { Valid t.now }
    ensures { (result < 2 ^ length (table_in t.now).entries) × (entries_at (table_in t.now).entries (places result) ≡ returning.others (address_row address) (table_in t.now).entries) }
{
    let all = places::below(layout::count(t));
    let found = entries::find(t, address);
    let Ok(at) = found else {
        return all;
    };
    places::without(all, at)
}

// Whether the routes at the places from one on and before another carry an algorithm: 0 if they do and `before` is 0. What differs leaves a bit, so that the compiler
// makes several looks at once.
fn differing(t: &[u32], from: usize, end: usize, algorithm: u8, before: u32) -> u32
    requires { Valid t.now × (end ≤ length (table_in t.now).entries) }
    ensures { eqb result 0 ≡ (eqb before 0 && all_under algorithm (entries_at (table_in t.now).entries (stretch from (end - from)))) }
{
    let wanted = algorithm as u32;
    let mut differ = before;
    for i in from..end {
        differ |= layout::algorithm_at(t, i) ^ wanted;
    }
    differ
}

// Whether all routes of a set of places carry an algorithm. The set is walked run by run.
fn all_under(t: &[u32], set: u64, algorithm: u8) -> bool
    requires { Valid t.now × (set < 2 ^ length (table_in t.now).entries) }
    ensures { result ≡ all_under algorithm (entries_at (table_in t.now).entries (places set)) }
{
    let mut differ = 0;
    let mut left = set;
    while left != 0 {
        let from = places::first(left);
        let end = place_runs::run_end(left);
        differ = differing(t, from, end, algorithm, differ);
        left = place_runs::after_run(left);
    }
    differ == 0
}

// Whether the own preference is at least (under algorithm 3: at most) the reference's.
#[tactic(auto, unfolding(crate::specs::Returning::reaches))]
fn reach(algorithm: u8, own: u16, reference: u16) -> bool
    ensures { result ≡ reaches algorithm own reference }
{
    if algorithm == 3 {
        return own <= reference;
    }
    reference <= own
}

// What is sent beside the reference of algorithm 2 or 3 among the routes of a set of places, where the own DP is set.
#[tactic(auto, unfolding(crate::specs::Returning::beside_reference, crate::specs::Returning::fits, layout::specs::Words::standing_of))]
fn beside_reference(t: &[u32], set: u64, algorithm: u8, preference: u16) -> Pair
    requires { Valid t.now × (set < 2 ^ length (table_in t.now).entries) × (set ≡ 0 → ⊥) × (algorithm ≡ 1 → ⊥) }
    ensures { sent_pair result ≡ beside_reference algorithm preference true (reference algorithm (entries_at (table_in t.now).entries (places set))) }
{
    let own = Pair {
        preference,
        dp: true,
    };
    let at = winner::preferred(t, set, algorithm);
    let standing = layout::standing_at(t, at);
    if standing % 2 != 1 {
        return own;
    }
    let reference = (standing / 2) as u16;
    if !reach(algorithm, preference, reference) {
        return own;
    }
    Pair {
        preference: reference,
        dp: false,
    }
}

// What is sent beside both references, where the own DP is set: one that fits is sent with DP clear, which tells that it fits.
#[tactic(auto, using(crate::proofs::Laws::either_fits))]
fn beside_both(t: &[u32], set: u64, preference: u16) -> Pair
    requires { Valid t.now × (set < 2 ^ length (table_in t.now).entries) × (set ≡ 0 → ⊥) }
    ensures { sent_pair result ≡ beside_both preference true (entries_at (table_in t.now).entries (places set)) }
{
    let highest = beside_reference(t, set, 2, preference);
    if !highest.dp {
        return highest;
    }
    beside_reference(t, set, 3, preference)
}

// What is sent beside the other routes, which stand at a set of places, where the own algorithm is 2 or 3; `ranges` tells whether any range is set.
#[tactic(auto, using(crate::proofs::Laws::whether_any_stands), unfolding(crate::specs::Returning::advertised, crate::specs::Returning::advertised_both, crate::specs::Returning::keeps_own))]
fn beside(t: &[u32], set: u64, ranges: bool, algorithm: u8, preference: u16, dp: bool) -> Pair
    requires { Valid t.now × (set < 2 ^ length (table_in t.now).entries) × (algorithm ≡ 1 → ⊥) }
    ensures { sent_pair result ≡ cond ranges (advertised_both algorithm preference dp (entries_at (table_in t.now).entries (places set))) (advertised algorithm preference dp (entries_at (table_in t.now).entries (places set))) }
{
    if !dp || set == 0 || !all_under(t, set, algorithm) {
        return Pair { preference, dp };
    }
    if ranges {
        return beside_both(t, set, preference);
    }
    beside_reference(t, set, algorithm, preference)
}

// What a returning router advertises: 15 for an own algorithm that is not 2 or 3, 6 for address zero. The own entry is passed over. The administrative pair is
// sent unless the own DP is set, others stand, all on the own algorithm, and the reference among them has DP set and a preference that the own one reaches:
// then the reference's preference is sent with DP clear. With any range set both references are tried, the Highest before the Lowest.
#[tactic(auto, unfolding(crate::specs::Returning::returning_with))]
pub fn returning(
    t: &[u32],
    settings: &[u32],
    address: Address,
    algorithm: u8,
    preference: u16,
    dp: bool,
) -> Result<Pair, Refusal>
    requires { Valid t.now × ValidSettings settings.now }
    ensures { sent_in result ≡ returning_with (settings_in settings.now) (table_in t.now).entries (address_row address) algorithm preference dp }
{
    if !matches!(algorithm, 2 | 3) {
        return Err(Refusal::AlgorithmNotUsable);
    }
    if address::is_zero(address) {
        return Err(Refusal::AddressZero);
    }
    let set = others(t, address);
    let ranges = settings::any_range(settings);
    Ok(beside(t, set, ranges, algorithm, preference, dp))
}
