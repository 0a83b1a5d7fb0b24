// Sets of places 0 to 63 as the bits of a u64: counted by their ones, and walked from the lowest place up by trailing zeros; `place_runs` walks them run by run.
// The answer 64 stands for "no place".
#![tactic(auto)]

ghost use Rattle.std.specs.Prelude.{◌≡◌, ◌≤◌, ◌<◌, true, length, get_or, drop, replicate};
ghost use Rattle.std.specs.Int.Count.{ones};
ghost use Rattle.places.specs.Places.{places, set_of, with_place, without_place};

// The number of places that a set can hold, and the answer where there is no place.
pub const PLACES: usize = 64;

// The set of all 64 places.
pub const ALL: u64 = 0xFFFF_FFFF_FFFF_FFFF;

// The number of places in s: its ones.
pub fn count(s: u64) -> u32
    ensures places { result ≡ length (places s) }
    ensures ones { result ≡ ones s }
{
    u64::count_ones(s)
}

// The lowest place in s; 64 for the empty set.
pub fn first(s: u64) -> usize
    ensures { result ≡ get_or (places s) 0 64 }
{
    u64::trailing_zeros(s) as usize
}

// The set s without its lowest place; the empty set for the empty set. Of any other set it is a lower number, so a walk ends.
pub fn rest(s: u64) -> u64
    ensures places { places result ≡ drop 1 (places s) }
    ensures less { (s ≡ 0 → ⊥) → result < s }
{
    if s == 0 {
        return 0;
    }
    s & (s - 1)
}

// The set of the places 0 to n - 1: all ones, shifted down to n of them.
pub fn below(n: usize) -> u64
    requires { n ≤ 64 }
    ensures { result ≡ set_of (replicate n true) }
{
    if n == 0 {
        return 0;
    }
    ALL >> (PLACES - n)
}

// The set s with the place i.
pub fn with(s: u64, i: usize) -> u64
    requires { i < 64 }
    ensures { result ≡ with_place s i }
{
    s | (1 << i)
}

// The set s without the place i; s unchanged where i is not in it.
#[tactic(auto, using(crate::proofs::Laws::shift_one, crate::proofs::Flags::one_less), unfolding(crate::specs::Places::without_place))]
pub fn without(s: u64, i: usize) -> u64
    ensures { result ≡ without_place s i }
{
    if i >= PLACES {
        return s;
    }
    let bit = 1 << i;
    if s / bit % 2 != 1 {
        return s;
    }
    s - bit
}
