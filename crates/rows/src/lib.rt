// Rows of words: n rows of k words each at the start of a lent slice, which rise, high word first, each row its own key.
// The width k and the capacity are the caller's. Every function asks for the bounds that it needs; callers check before they call.
// Every table lies in such rows: there is one search for a row here, one for the place where the rows that start with two words do, and one insertion and one removal in `gaps`.
#![tactic(auto)]

ghost use Rattle.std.specs.Prelude.{◌≡◌, true, false, map, ◌+◌, ◌-◌, ◌*◌, ◌/◌, ◌%◌, ◌^◌, ◌≤◌, ◌<◌, length, get_or, take, drop};
ghost use Rattle.keyed.specs.Keyed.{Rising, rank};
ghost use Rattle.rows.specs.Rows.{rows_in, row_key, head_key, key_order, found_in, middle, Within, looked, looks_between, first_look, looks_for};

use std::cmp::Ordering;

// The answer of a search: the row's place, or the place at which it would stand, as std's `binary_search` tells them; and how many rows were compared with it.
#[derive(Clone, Copy)]
pub struct Lookup {
    pub found: Result<usize, usize>,
    pub looks: u32,
}

// How many values a word has.
const WORD: u64 = 4294967296;

// Two words from `at` on as one number, the second high, as the machine loads them at once.
fn pair_at(s: &[u32], at: usize) -> u64
    requires { at + 2 ≤ length s.now }
    ensures { result ≡ get_or s.now at 0 + get_or s.now (at + 1) 0 * 4294967296 }
{
    s[at] as u64 + (s[at + 1] as u64) * WORD
}

// The same two words as one number, the first high.
fn turned(x: u64) -> u64
    ensures { result ≡ x % 4294967296 * 4294967296 + x / 4294967296 }
{
    x % WORD * WORD + x / WORD
}

// The row that starts at word `at`, against a key of as many words: the first words that differ decide. Words are compared two at a time, and the last of an odd
// number by itself.
pub fn compare(s: &[u32], at: usize, key: &[u32]) -> Ordering
    requires { at + length key.now ≤ length s.now }
    ensures { result ≡ key_order (row_key (take (length key.now) (drop at s.now))) (row_key key.now) }
{
    let k = key.len();
    let mut i = 0;
    while i + 1 < k {
        let x = pair_at(s, at + i);
        let y = pair_at(key, i);
        if x != y {
            return turned(x).cmp(&turned(y));
        }
        i += 2;
    }
    if i < k {
        return s[at + i].cmp(&key[i]);
    }
    Ordering::Equal
}

// The place in the middle of a range.
fn halfway(lo: usize, hi: usize) -> usize
    requires { (lo ≤ hi) × (hi < 2 ^ 32) }
    ensures { result ≡ middle lo hi }
{
    (lo + hi) / 2
}

// The place of the first look among n rows: the one that is proposed, or the middle where that is no row.
fn first_look(first: usize, n: usize) -> usize
    ensures { result ≡ first_look first n }
{
    if first < n {
        return first;
    }
    n / 2
}

// Looks a key up between two places of n rows: those before the range are below the key, those after it above. The first look is at the place `first`; then the range that is
// left is halved at each look. One look at a row decides less, equal or greater. `looks` counts on from the looks that were made before.
fn seek(s: &[u32], n: usize, from: usize, to: usize, first: usize, made: u32, key: &[u32]) -> Lookup
    requires { (n * length key.now ≤ length s.now) × Rising row_key 0 (rows_in (length key.now) n s.now) × Within (row_key key.now) (rows_in (length key.now) n s.now) from to × (from < to → (from ≤ first) × (first < to)) × (made ≤ 1) × (n < 2 ^ 32) }
    ensures found { result.found ≡ found_in row_key (row_key key.now) (rows_in (length key.now) n s.now) }
    ensures looks { result.looks ≡ made + length (looked (to - from) (row_key key.now) (map row_key (rows_in (length key.now) n s.now)) from first to) }
{
    let k = key.len();
    let mut lo = from;
    let mut hi = to;
    let mut look = first;
    let mut looks = made;
    while lo < hi {
        looks += 1;
        let at = look * k;
        let order = compare(s, at, key);
        match order {
            Ordering::Equal => {
                return Lookup {
                    found: Ok(look),
                    looks: looks,
                };
            }
            Ordering::Less => {
                lo = look + 1;
            }
            Ordering::Greater => {
                hi = look;
            }
        }
        look = halfway(lo, hi);
    }
    Lookup {
        found: Err(lo),
        looks: looks,
    }
}

// Looks a key up by halving between two places of n rows, the row in the middle first. `looks` counts on from the looks that were made before.
pub fn search_between(s: &[u32], n: usize, from: usize, to: usize, made: u32, key: &[u32]) -> Lookup
    requires { (n * length key.now ≤ length s.now) × Rising row_key 0 (rows_in (length key.now) n s.now) × Within (row_key key.now) (rows_in (length key.now) n s.now) from to × (made ≤ 1) × (n < 2 ^ 32) }
    ensures found { result.found ≡ found_in row_key (row_key key.now) (rows_in (length key.now) n s.now) }
    ensures looks { result.looks ≡ made + length (looks_between (row_key key.now) (map row_key (rows_in (length key.now) n s.now)) from to) }
{
    let first = halfway(from, to);
    seek(s, n, from, to, first, made, key)
}

// Goes on from one look among n rows, at the place `at`, with the outcome `order`: the key is there, or it is looked up in what is left on its side. The row at that place is
// not compared again.
pub fn after_look(s: &[u32], n: usize, at: usize, order: Ordering, key: &[u32]) -> Lookup
    requires { (n * length key.now ≤ length s.now) × Rising row_key 0 (rows_in (length key.now) n s.now) × (at < n) × (order ≡ key_order (row_key (take (length key.now) (drop (at * length key.now) s.now))) (row_key key.now)) × (n < 2 ^ 32) }
    ensures found { result.found ≡ found_in row_key (row_key key.now) (rows_in (length key.now) n s.now) }
    ensures looks { result.looks ≡ length (looks_for at (row_key key.now) (map row_key (rows_in (length key.now) n s.now))) }
{
    match order {
        Ordering::Equal => Lookup {
            found: Ok(at),
            looks: 1,
        },
        Ordering::Less => search_between(s, n, at + 1, n, 1, key),
        Ordering::Greater => search_between(s, n, 0, at, 1, key),
    }
}

// Looks a key up among the first n rows. The first look is at the row `first`, or in the middle where there is no such row; then the range that is left is halved at each look.
// `looks` is how many rows were compared with the key, each of them once.
pub fn search(s: &[u32], n: usize, first: usize, key: &[u32]) -> Lookup
    requires { (n * length key.now ≤ length s.now) × Rising row_key 0 (rows_in (length key.now) n s.now) × (n < 2 ^ 32) }
    ensures found { result.found ≡ found_in row_key (row_key key.now) (rows_in (length key.now) n s.now) }
    ensures looks { result.looks ≡ length (looks_for first (row_key key.now) (map row_key (rows_in (length key.now) n s.now))) }
{
    let look = first_look(first, n);
    seek(s, n, 0, n, look, 0, key)
}

// The first two words of the row that starts at word `at`, as one number, the first high.
fn head_at(s: &[u32], at: usize) -> u64
    requires { at + 2 ≤ length s.now }
    ensures { result ≡ get_or s.now at 0 * 4294967296 + get_or s.now (at + 1) 0 }
{
    let pair = pair_at(s, at);
    turned(pair)
}

// Whether the rows of k words before the word `next`, one at least, are among those before the word `end`, where the first n rows end, and start below a head, two words as one number.
fn reaches(s: &[u32], n: usize, k: usize, end: usize, next: usize, head: u64) -> bool
    requires { (2 ≤ k) × (end ≡ n * k) × (end ≤ length s.now) × Rising row_key 0 (rows_in k n s.now) × (next % k ≡ 0) × (0 < next / k) }
    ensures reached { result ≡ true → next / k ≤ rank row_key (head_key k head) (rows_in k n s.now) }
    ensures not_reached { result ≡ false → rank row_key (head_key k head) (rows_in k n s.now) < next / k }
{
    if end < next {
        return false;
    }
    let at = next - k;
    head_at(s, at) < head
}

// The word at which, of the first n rows of k words, the first stands that starts with two words, or with more; or the word behind the last. Of n places, fewer than 2^bits, half is passed at a
// time: where `bits` and k are known where this is called, the compiler writes out each look, with no loop around them.
pub fn word_of_head(s: &[u32], n: usize, k: usize, bits: usize, x: u32, y: u32) -> usize
    requires { (2 ≤ k) × (k < 2 ^ 16) × (n * k ≤ length s.now) × Rising row_key 0 (rows_in k n s.now) × (n < 2 ^ bits) × (bits ≤ 32) }
    ensures { result ≡ rank row_key (head_key k (x * 4294967296 + y)) (rows_in k n s.now) * k }
{
    let head = (x as u64) * WORD + (y as u64);
    let end = n * k;
    let mut lo = 0;
    let mut left = bits;
    while left != 0 {
        left -= 1;
        let next = lo + (1 << left) * k;
        if reaches(s, n, k, end, next, head) {
            lo = next;
        }
    }
    lo
}
