// Ranges of Ethernet Tags that name another algorithm, as they are kept in words that a caller lends: as they were handed in, and then in falling order, by which a tag is found
// in a few comparisons.
#![tactic(auto)]

ghost use Rattle.std.specs.Prelude.{◌≡◌, false, not, eqb, length};
ghost use Rattle.tags.specs.Tags.{reserved_tag};
ghost use Rattle.ranges.specs.Ranges.{ranges_set, algorithm_in};
ghost use Rattle.refusals.specs.Numbers.{number_of};
ghost use Rattle.tag_ranges.specs.TagRanges.{tag_ranges_in, ValidTagRanges, TagRangesTold};

use refusals::Refusal;

// How many words they have.
pub const WORDS: usize = 100;

// Where the index starts: so many words are those of the ranges as handed in.
const INDEX: usize = 49;

// Sets the ranges that a run of numbers names, three to a range, as `ranges::set` does, and makes their index; refused ones leave all words.
pub fn set(b: &mut [u32], run: &[u32]) -> Result<(), Refusal>
    requires { ValidTagRanges b.old }
    ensures answer { TagRangesTold (ranges_set (tag_ranges_in b.old) run.now) (number_of result) b.new }
    ensures kept { ValidTagRanges b.new }
{
    let mut words = ranges::fresh();
    let answer = ranges::set(&mut words, run);
    let refused = answer.is_err();
    if refused {
        return answer;
    }
    gaps::insert(b, 0, 0, &words);
    range_index::index(&mut b[INDEX..], &words);
    Ok(())
}

// Whether any range is set.
pub fn any(b: &[u32]) -> bool
    requires { ValidTagRanges b.now }
    ensures { result ≡ not (eqb (length (tag_ranges_in b.now)) 0) }
{
    ranges::any(&b[..INDEX])
}

// The algorithm for a tag, where one is in use: the one that the tag's range names, if it is in one.
pub fn algorithm_in(b: &[u32], tag: u32, in_use: u8) -> u8
    requires { ValidTagRanges b.now × (reserved_tag tag ≡ false) }
    ensures { result ≡ algorithm_in (tag_ranges_in b.now) tag in_use }
{
    range_index::algorithm_in(&b[..INDEX], &b[INDEX..], tag, in_use)
}
