// What the operator sets upon a segment, in words that a caller lends: the algorithm numbers of the two election kinds by flow, for (S,G) and for (*,G), and the ranges of
// tags that name another algorithm; zeros where none are set.
#![tactic(auto)]

ghost use Rattle.std.specs.Prelude.{◌≡◌, false};
ghost use Rattle.tags.specs.Tags.{reserved_tag};
ghost use Rattle.ranges.specs.Ranges.{algorithm_in};
ghost use Rattle.refusals.specs.Numbers.{number_of};
ghost use Rattle.settings.specs.Settings.{nothing_set, from_four_to_thirty, may_be_set, is_set, any_range, numbers_set, ranges_given, settings_in, ValidSettings, SettingsTold};

use refusals::Refusal;

// How many words the settings have.
pub const WORDS: usize = 102;

// Where the number for (S,G) and that for (*,G) lie, and where the ranges start.
const SOURCE_GROUP: usize = 0;

const ANY_SOURCE: usize = 1;

const RANGES: usize = 2;

// The least and the greatest number that may be set.
const LEAST: u8 = 4;

const GREATEST: u8 = 30;

// Settings with none set.
pub fn fresh() -> [u32; WORDS]
    ensures answer { settings_in result ≡ nothing_set }
    ensures kept { ValidSettings result }
{
    [0; WORDS]
}

// Whether a number is from 4 to 30.
fn in_range(number: u8) -> bool
    ensures { result ≡ from_four_to_thirty number }
{
    if number < LEAST {
        return false;
    }
    number <= GREATEST
}

// Whether two numbers may be set: two different ones from 4 to 30.
fn may_be_set(source_group: u8, any_source: u8) -> bool
    ensures { result ≡ may_be_set source_group any_source }
{
    if !in_range(source_group) {
        return false;
    }
    if !in_range(any_source) {
        return false;
    }
    source_group != any_source
}

// Sets the number for (S,G) and the number for (*,G): 15 unless they are two different ones from 4 to 30, and then the old ones are kept.
pub fn set_numbers(s: &mut [u32], source_group: u8, any_source: u8) -> Result<(), Refusal>
    requires { ValidSettings s.old }
    ensures answer { SettingsTold (numbers_set (settings_in s.old) source_group any_source) (number_of result) s.new }
    ensures kept { ValidSettings s.new }
{
    if !may_be_set(source_group, any_source) {
        return Err(Refusal::AlgorithmNotUsable);
    }
    s[SOURCE_GROUP] = source_group as u32;
    s[ANY_SOURCE] = any_source as u32;
    Ok(())
}

// Sets the ranges that a run of numbers names, three to a range: 20 for ranges that may not be set, and then the old ones are kept.
pub fn set_ranges(s: &mut [u32], run: &[u32]) -> Result<(), Refusal>
    requires { ValidSettings s.old }
    ensures answer { SettingsTold (ranges_given (settings_in s.old) run.now) (number_of result) s.new }
    ensures kept { ValidSettings s.new }
{
    tag_ranges::set(&mut s[RANGES..], run)
}

// The number set for (S,G), or 0.
pub fn source_group(s: &[u32]) -> u8
    requires { ValidSettings s.now }
    ensures { result ≡ (settings_in s.now).by_source_group }
{
    s[SOURCE_GROUP] as u8
}

// The number set for (*,G), or 0.
pub fn any_source(s: &[u32]) -> u8
    requires { ValidSettings s.now }
    ensures { result ≡ (settings_in s.now).by_any_source }
{
    s[ANY_SOURCE] as u8
}

// Whether an algorithm is one of the two numbers set.
pub fn is_set(s: &[u32], algorithm: u32) -> bool
    requires { ValidSettings s.now }
    ensures { result ≡ is_set (settings_in s.now) algorithm }
{
    if algorithm == 0 {
        return false;
    }
    if algorithm == s[SOURCE_GROUP] {
        return true;
    }
    algorithm == s[ANY_SOURCE]
}

// Whether any range is set.
pub fn any_range(s: &[u32]) -> bool
    requires { ValidSettings s.now }
    ensures { result ≡ any_range (settings_in s.now) }
{
    tag_ranges::any(&s[RANGES..])
}

// The algorithm for a tag, where one is in use: the one that the tag's range names, if it is in one.
pub fn algorithm_for(s: &[u32], tag: u32, in_use: u8) -> u8
    requires { ValidSettings s.now × (reserved_tag tag ≡ false) }
    ensures { result ≡ algorithm_in (settings_in s.now).ranges tag in_use }
{
    tag_ranges::algorithm_in(&s[RANGES..], tag, in_use)
}
