// Ranges of Ethernet Tags that name another algorithm, in words that a caller lends: how many there are, and then 16 places of three words, the first tag, the last tag, and 2
// (Highest-Preference) or 3 (Lowest-Preference). Unused places are zero.
#![tactic(auto)]

ghost use Rattle.std.specs.Prelude.{◌≡◌, true, not, ◌&&◌, [], ◌+◌, ◌*◌, ◌/◌, ◌≤◌, ◌<◌, eqb, length, get_or, drop};
ghost use Rattle.lists.specs.Lists.{all};
ghost use Rattle.refusals.specs.Numbers.{number_of};
ghost use Rattle.ranges.specs.Ranges.{range_right, overlap, disjoint, ranges_of, may_be_ranges, ranges_set, ranges_words, ranges_in, ValidRanges, RangesTold};

use refusals::Refusal;

// How many words the ranges have: their number, and three for each place.
pub const WORDS: usize = 49;

// The words of a range, and the most ranges that may be set.
const WIDTH: usize = 3;

const MOST: usize = 16;

// The words of all places, and a word of an unused one.
const ROOM: usize = 48;

const UNUSED: u32 = 0;

// No range set.
pub fn fresh() -> [u32; WORDS]
    ensures answer { ranges_in result ≡ [] }
    ensures kept { ValidRanges result }
{
    [0; WORDS]
}

// Whether range i of a run of numbers, three to a range, may be one: 2 or 3, tags that are not reserved, the first not above the last.
#[tactic(auto, using(crate::proofs::Laws::range_tests))]
fn range_right(run: &[u32], i: usize) -> bool
    requires { i < length run.now / 3 }
    ensures { result ≡ range_right (get_or (ranges_of run.now) i []) }
{
    let start = i * WIDTH;
    let first = run[start];
    let last = run[start + 1];
    let named = run[start + 2];
    if tags::is_reserved(first) {
        return false;
    }
    if tags::is_reserved(last) {
        return false;
    }
    if last < first {
        return false;
    }
    if named == 2 {
        return true;
    }
    named == 3
}

// Whether ranges i and j of a run have a tag in common.
fn overlaps(run: &[u32], i: usize, j: usize) -> bool
    requires { (i < length run.now / 3) × (j < length run.now / 3) }
    ensures { result ≡ overlap (get_or (ranges_of run.now) i []) (get_or (ranges_of run.now) j []) }
{
    if run[j * WIDTH + 1] < run[i * WIDTH] {
        return false;
    }
    run[j * WIDTH] <= run[i * WIDTH + 1]
}

// Whether range i of a run overlaps none of those after it.
fn apart(run: &[u32], i: usize) -> bool
    requires { i < length run.now / 3 }
    ensures { result ≡ all (λ q. not (overlap (get_or (ranges_of run.now) i []) q)) (drop (i + 1) (ranges_of run.now)) }
{
    for j in i + 1..run.len() / WIDTH {
        if overlaps(run, i, j) {
            return false;
        }
    }
    true
}

// Whether all ranges of a run may be ones, and no two of them overlap.
fn all_right(run: &[u32]) -> bool
    ensures { result ≡ (all range_right (ranges_of run.now) && disjoint (ranges_of run.now)) }
{
    for i in 0..run.len() / WIDTH {
        if !range_right(run, i) {
            return false;
        }
        if !apart(run, i) {
            return false;
        }
    }
    true
}

// Whether a run of numbers may be set as ranges: at most 16 whole ones, each right, no two of which overlap.
fn may_be_ranges(run: &[u32]) -> bool
    ensures { result ≡ may_be_ranges run.now }
{
    if run.len() % WIDTH != 0 {
        return false;
    }
    if MOST < run.len() / WIDTH {
        return false;
    }
    all_right(run)
}

// Number i of a run, or behind it the word of an unused place.
fn number_at(run: &[u32], i: usize) -> u32
    ensures { result ≡ get_or run.now i 0 }
{
    if i < run.len() {
        return run[i];
    }
    UNUSED
}

// Lays a run of at most 16 whole ranges into the words.
fn put(b: &mut [u32], run: &[u32])
    requires { (length b.old ≡ 49) × (may_be_ranges run.now ≡ true) }
    ensures { b.new ≡ ranges_words (ranges_of run.now) }
{
    b[0] = (run.len() / WIDTH) as u32;
    for i in 0..ROOM {
        b[i + 1] = number_at(run, i);
    }
}

// Sets the ranges that a run of numbers names, three to a range: the first tag, the last tag, and 2 or 3. They replace all; an empty run clears them. 20 for ranges that overlap, run
// backwards or name a reserved tag, for more than 16, for a number that is neither 2 nor 3 and for a run that is no whole number of ranges; the old ones are then kept.
pub fn set(b: &mut [u32], run: &[u32]) -> Result<(), Refusal>
    requires { ValidRanges b.old }
    ensures answer { RangesTold (ranges_set (ranges_in b.old) run.now) (number_of result) b.new }
    ensures kept { ValidRanges b.new }
{
    if !may_be_ranges(run) {
        return Err(Refusal::RangesWrong);
    }
    put(b, run);
    Ok(())
}

// Whether any range is set.
pub fn any(b: &[u32]) -> bool
    requires { ValidRanges b.now }
    ensures { result ≡ not (eqb (length (ranges_in b.now)) 0) }
{
    b[0] != 0
}
