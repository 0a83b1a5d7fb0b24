// The runs of a set of places (`places`): places of it that stand one next to the other. The n-th place is found run by run.
#![tactic(auto)]

ghost use Rattle.std.specs.Prelude.{◌≡◌, ◌+◌, ◌-◌, ◌<◌, get_or, drop};
ghost use Rattle.std.specs.Int.Bits.{bit_or};
ghost use Rattle.places.specs.Places.{places, lowest_run};

use places::{ALL, PLACES};

// The set s with every place below its lowest one; all 64 places for the empty set.
fn filled(s: u64) -> u64
    ensures none { s ≡ 0 → result ≡ 18446744073709551615 }
    ensures some { (s ≡ 0 → ⊥) → result ≡ bit_or s (s - 1) }
{
    if s == 0 {
        return ALL;
    }
    s | (s - 1)
}

// The place after the lowest run of s: the places of s from `places::first` on, one next to the other, end before it. 64 for the empty set.
// The lowest run and all below it are the trailing ones of a set that is filled, so its complement's trailing zeros.
pub fn run_end(s: u64) -> usize
    ensures { result ≡ get_or (places s) 0 64 + lowest_run (places s) }
{
    u64::trailing_zeros(filled(s) ^ ALL) as usize
}

// The set s without its lowest run; the empty set for the empty set. Of any other set it is a lower number, so a walk ends.
pub fn after_run(s: u64) -> u64
    ensures places { places result ≡ drop (lowest_run (places s)) (places s) }
    ensures less { (s ≡ 0 → ⊥) → result < s }
{
    let low = filled(s);
    if low == ALL {
        return 0;
    }
    low & (low + 1)
}

// The place in s at k, counted from 0 at the lowest; 64 where s has no more than k places. Walked run by run.
pub fn nth(s: u64, k: u32) -> usize
    ensures { result ≡ get_or (places s) k 64 }
{
    let mut left = s;
    let mut more = k as usize;
    while left != 0 {
        let at = places::first(left) + more;
        let end = run_end(left);
        if at < end {
            return at;
        }
        more = at - end;
        left = after_run(left);
    }
    PLACES
}
