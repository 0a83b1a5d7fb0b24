// The winner of a set of places of the table under each algorithm. The set is walked along its bits: a set of low places place by
// place, any other run by run.
#![tactic(auto)]

ghost use Rattle.std.specs.Prelude.{◌≡◌, ◌+◌, ◌-◌, ◌^◌, ◌≤◌, ◌<◌, length, get_or};
ghost use Rattle.layout.specs.Table.{no_entry};
ghost use Rattle.layout.specs.Words.{table_in, Valid};
ghost use Rattle.places.specs.Places.{places, stretch};
ghost use Rattle.choice.specs.Choice.{best_in};
ghost use Rattle.winner.specs.Winner.{better, elected, entries_at};
ghost use Rattle.winner.specs.Steps.{score_of, Walking, ending, Toward, Keeping, ending_at, Along, FamilyFrom, FamilyAt, top_rank};

// The bits of a standing that hold the preference: under algorithm 3 preferences are counted down from the greatest, which turns each of them over. The DP
// bit behind them stays.
const PREFERENCE: u32 = 131070;

// Sets of places 0 to 7 are walked place by place, and others run by run.
const FEW: u64 = 255;

// The rank of a place is its score times WORTH and how far before the last place it stands: the greater rank is the greater score, or the same score at the
// lower place.
const WORTH: u32 = 64;

const LAST: u32 = 63;

// A walk over places that is under way: the best place so far, its score, and the places left.
#[derive(Clone, Copy)]
struct Walk {
    at: usize,
    top: u32,
    left: u64,
}

// A walk by weight along a run that is under way: the best place so far, its score, and the next place.
#[derive(Clone, Copy)]
struct Run {
    at: usize,
    top: u32,
    next: usize,
}

// Goes on with a walk by weight, as long as the places left are of one family: at the start none of them is of a lower one, at the end they are of higher ones.
// The family is a parameter of the code, so that there is a loop for each.
fn over_family<const FAMILY: u8>(t: &[u32], from: Walk, digest: u32) -> Walk
    requires { Valid t.now × Walking (score_of 1 digest) (table_in t.now).entries from.at from.top from.left × FamilyFrom FAMILY (table_in t.now).entries from.left }
    ensures walk { Toward (ending (score_of 1 digest) (table_in t.now).entries from.at from.left) (score_of 1 digest) (table_in t.now).entries result.at result.top result.left }
    ensures past { FamilyFrom (FAMILY + 1) (table_in t.now).entries result.left }
{
    let mut at = from.at;
    let mut top = from.top;
    let mut left = from.left;
    while left != 0 && layout::family_at(t, places::first(left)) == FAMILY {
        let next = places::first(left);
        let doubled = hrw::doubled_weight(layout::low_word_in(t, next, FAMILY), digest);
        if top < doubled {
            at = next;
            top = doubled;
        }
        left = places::rest(left);
    }
    Walk { at, top, left }
}

// Of a set of places in use, which is not empty, the one whose entry has the greatest weight: IPv4 addresses stand before IPv6 ones, so one walk follows the
// other.
fn heaviest(t: &[u32], set: u64, digest: u32) -> usize
    requires { Valid t.now × (set ≡ 0 → ⊥) × (set < 2 ^ length (table_in t.now).entries) }
    ensures { (result < length (table_in t.now).entries) × (get_or (table_in t.now).entries result no_entry ≡ best_in (better 1 digest) no_entry (entries_at (table_in t.now).entries (places set))) }
{
    let first = places::first(set);
    let top = hrw::doubled_weight(layout::low_word_at(t, first), digest);
    let begun = Walk {
        at: first,
        top,
        left: places::rest(set),
    };
    let v4 = over_family::<4>(t, begun, digest);
    let v6 = over_family::<6>(t, v4, digest);
    v6.at
}

// The number by which a candidate is preferred under algorithm 2 or 3, the greater the better: its preference (under 3 counted from above) with the DP bit
// behind it.
fn score<const ALGORITHM: u8>(t: &[u32], at: usize) -> u32
    requires { Valid t.now × (at < length (table_in t.now).entries) × (ALGORITHM ≡ 1 → ⊥) }
    ensures { result ≡ score_of ALGORITHM 0 (get_or (table_in t.now).entries at no_entry) }
{
    let standing = layout::standing_at(t, at);
    if ALGORITHM == 3 {
        return standing ^ PREFERENCE;
    }
    standing
}

// Of a set of places in use, which is not empty, the one whose entry is the best under algorithm 2 or 3, by a walk over its places. The algorithm
// is a parameter of the code, so that there is a loop for each.
fn best_under<const ALGORITHM: u8>(t: &[u32], set: u64) -> usize
    requires { Valid t.now × (set ≡ 0 → ⊥) × (set < 2 ^ length (table_in t.now).entries) × (ALGORITHM ≡ 1 → ⊥) }
    ensures { (result < length (table_in t.now).entries) × (get_or (table_in t.now).entries result no_entry ≡ best_in (better ALGORITHM 0) no_entry (entries_at (table_in t.now).entries (places set))) }
{
    let mut at = places::first(set);
    let mut top = score::<ALGORITHM>(t, at);
    let mut left = places::rest(set);
    while left != 0 {
        let next = places::first(left);
        let s = score::<ALGORITHM>(t, next);
        if top < s {
            at = next;
            top = s;
        }
        left = places::rest(left);
    }
    at
}

// Goes on with a walk by rank along the places from `from` to before `end`: the greatest of the rank so far and theirs.
fn top_of_run<const ALGORITHM: u8>(t: &[u32], from: usize, end: usize, best: u32) -> u32
    requires { Valid t.now × (end ≤ length (table_in t.now).entries) × (ALGORITHM ≡ 1 → ⊥) }
    ensures { result ≡ top_rank (score_of ALGORITHM 0) (table_in t.now).entries best (stretch from (end - from)) }
{
    let mut top = best;
    for i in from..end {
        let rank = score::<ALGORITHM>(t, i) * WORTH + (LAST - i as u32);
        if top < rank {
            top = rank;
        }
    }
    top
}

// Of a set of places in use, which is not empty, the one whose entry is the best under algorithm 2 or 3, by a walk over its runs: the place is read from the
// greatest rank. The algorithm is a parameter of the code, so that there is a loop for each.
fn best_by_runs<const ALGORITHM: u8>(t: &[u32], set: u64) -> usize
    requires { Valid t.now × (set ≡ 0 → ⊥) × (set < 2 ^ length (table_in t.now).entries) × (ALGORITHM ≡ 1 → ⊥) }
    ensures { (result < length (table_in t.now).entries) × (get_or (table_in t.now).entries result no_entry ≡ best_in (better ALGORITHM 0) no_entry (entries_at (table_in t.now).entries (places set))) }
{
    let mut top = 0;
    let mut left = set;
    while left != 0 {
        let from = places::first(left);
        let end = place_runs::run_end(left);
        top = top_of_run::<ALGORITHM>(t, from, end, top);
        left = place_runs::after_run(left);
    }
    (LAST - top % WORTH) as usize
}

// Goes on with a walk by weight up to before `end`, as long as the places are of one family: at the start none of them is of a lower one, at the end those left
// are of higher ones. The family is a parameter of the code, so that there is a loop for each.
fn heaviest_of_run<const FAMILY: u8>(t: &[u32], from: Run, end: usize, digest: u32) -> Run
    requires { Valid t.now × (end ≤ length (table_in t.now).entries) × Keeping (score_of 1 digest) (table_in t.now).entries from.at from.top × FamilyAt FAMILY (table_in t.now).entries from.next end }
    ensures walk { Along (ending_at (score_of 1 digest) (table_in t.now).entries from.at (stretch from.next (end - from.next))) (score_of 1 digest) (table_in t.now).entries result.at result.top (stretch result.next (end - result.next)) }
    ensures past { FamilyAt (FAMILY + 1) (table_in t.now).entries result.next end }
{
    let mut at = from.at;
    let mut top = from.top;
    let mut i = from.next;
    while i < end && layout::family_at(t, i) == FAMILY {
        let twice = hrw::doubled_weight(layout::low_word_in(t, i, FAMILY), digest);
        if top < twice {
            at = i;
            top = twice;
        }
        i += 1;
    }
    Run { at, top, next: i }
}

// Of a set of places in use, which is not empty, the one whose entry has the greatest weight, by a walk over its runs: in each, IPv4 addresses stand before
// IPv6 ones.
fn heaviest_by_runs(t: &[u32], set: u64, digest: u32) -> usize
    requires { Valid t.now × (set ≡ 0 → ⊥) × (set < 2 ^ length (table_in t.now).entries) }
    ensures { (result < length (table_in t.now).entries) × (get_or (table_in t.now).entries result no_entry ≡ best_in (better 1 digest) no_entry (entries_at (table_in t.now).entries (places set))) }
{
    let mut at = places::first(set);
    let mut top = hrw::doubled_weight(layout::low_word_at(t, at), digest);
    let mut left = set;
    while left != 0 {
        let begun = Run {
            at,
            top,
            next: places::first(left),
        };
        let end = place_runs::run_end(left);
        let run4 = heaviest_of_run::<4>(t, begun, end, digest);
        let run6 = heaviest_of_run::<6>(t, run4, end, digest);
        at = run6.at;
        top = run6.top;
        left = place_runs::after_run(left);
    }
    at
}

// Of a set of places in use, which is not empty, the one whose entry is the best under algorithm 1, 2 or 3, by a walk over its runs. Any other number goes
// as 2.
fn by_runs(t: &[u32], set: u64, algorithm: u8, digest: u32) -> usize
    requires { Valid t.now × (set ≡ 0 → ⊥) × (set < 2 ^ length (table_in t.now).entries) }
    ensures { (result < length (table_in t.now).entries) × (get_or (table_in t.now).entries result no_entry ≡ best_in (better algorithm digest) no_entry (entries_at (table_in t.now).entries (places set))) }
{
    match algorithm {
        1 => heaviest_by_runs(t, set, digest),
        3 => best_by_runs::<3>(t, set),
        _ => best_by_runs::<2>(t, set),
    }
}

// Of a set of places in use, which is not empty, the one whose entry is the best under algorithm 2 or 3. Any number but 1 and 3 goes as 2.
pub fn preferred(t: &[u32], set: u64, algorithm: u8) -> usize
    requires { Valid t.now × (set ≡ 0 → ⊥) × (set < 2 ^ length (table_in t.now).entries) × (algorithm ≡ 1 → ⊥) }
    ensures { (result < length (table_in t.now).entries) × (get_or (table_in t.now).entries result no_entry ≡ best_in (better algorithm 0) no_entry (entries_at (table_in t.now).entries (places set))) }
{
    if FEW < set {
        return by_runs(t, set, algorithm, 0);
    }
    if algorithm == 3 {
        return best_under::<3>(t, set);
    }
    best_under::<2>(t, set)
}

// Of a set of places in use, which is not empty, the one whose entry is the best under algorithm 1, 2 or 3.
#[tactic(auto, using(crate::proofs::Laws::best_any))]
pub fn best(t: &[u32], set: u64, algorithm: u8, digest: u32) -> usize
    requires { Valid t.now × (set ≡ 0 → ⊥) × (set < 2 ^ length (table_in t.now).entries) }
    ensures { (result < length (table_in t.now).entries) × (get_or (table_in t.now).entries result no_entry ≡ best_in (better algorithm digest) no_entry (entries_at (table_in t.now).entries (places set))) }
{
    if algorithm == 1 {
        if FEW < set {
            return by_runs(t, set, 1, digest);
        }
        return heaviest(t, set, digest);
    }
    preferred(t, set, algorithm)
}

// Of a set of n places in use, which is not empty, the one that is elected for a tag: under algorithm 0 the one at tag mod n, else the best.
#[tactic(auto, using(crate::proofs::Laws::some_counted))]
pub fn elected_place(t: &[u32], set: u64, n: u32, algorithm: u8, tag: u32, digest: u32) -> usize
    requires { Valid t.now × (set ≡ 0 → ⊥) × (set < 2 ^ length (table_in t.now).entries) × (n ≡ length (places set)) }
    ensures { (result < length (table_in t.now).entries) × (get_or (table_in t.now).entries result no_entry ≡ elected algorithm tag digest (entries_at (table_in t.now).entries (places set))) }
{
    if algorithm == 0 {
        return place_runs::nth(set, tag % n);
    }
    best(t, set, algorithm, digest)
}
