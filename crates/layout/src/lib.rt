// A route table in words that a caller lends: 64 addresses of five words in rising order, 64 words of attributes, the number of entries, the ten octets of the
// identifier.
// Unused places are zero. Here are the definitions, their laws, and the functions that read a part; `owner` has the identifier's words, `entries` the lookup and
// the stores. What lies where is known in these three alone; the calls are in `table`.
#![tactic(auto)]

ghost use Rattle.std.specs.Prelude.{◌≡◌, ◌/◌, ◌%◌, ◌^◌, ◌<◌, length, get_or};
ghost use Rattle.address.specs.Address.{family_of, address_words, address_number};
ghost use Rattle.layout.specs.Table.{no_entry};
ghost use Rattle.layout.specs.Words.{kind_of, standing_of, attributes_of, table_in, Valid, Packed};

use community::Election;

// The most routes that a table holds.
pub const MAX_ROUTES: usize = 64;

// How many words a table has.
pub const WORDS: usize = 388;

// Where the parts of a table start in its words; the addresses start at 0.
pub const ATTRIBUTES: usize = 320;

pub const COUNT: usize = 384;

pub const ESI: usize = 385;

// What the algorithm and the AC-DF bit are worth in a word of attributes: below them are 16 bits of preference and the DP bit.
const KIND: u32 = 131072;

// How many routes are in a table.
pub fn count(t: &[u32]) -> usize
    requires { Valid t.now }
    ensures { result ≡ length (table_in t.now).entries }
{
    t[COUNT] as usize
}

// The row of the address at a place: a part of the table's words.
pub fn address_at(t: &[u32], at: usize) -> &[u32]
    requires { Valid t.now × (at < length (table_in t.now).entries) }
    ensures { result.now ≡ (get_or (table_in t.now).entries at no_entry).address }
{
    let start = at * address::WIDTH;
    let end = start + address::WIDTH;
    &t[start..end]
}

// The family of the address at a place, as a number.
pub fn family_at(t: &[u32], at: usize) -> u8
    requires { Valid t.now × (at < length (table_in t.now).entries) }
    ensures { result ≡ family_of (get_or (table_in t.now).entries at no_entry).address }
{
    t[address::WIDTH * at] as u8
}

// The sixteen octets of the address at a place, as four words.
pub fn words_at(t: &[u32], at: usize) -> [u32; 4]
    requires { Valid t.now × (at < length (table_in t.now).entries) }
    ensures { result ≡ address_words (get_or (table_in t.now).entries at no_entry).address }
{
    let start = address::WIDTH * at;
    [t[start + 1], t[start + 2], t[start + 3], t[start + 4]]
}

// The low 32 bits of the address at a place, whose family is handed in.
#[tactic(auto, using(crate::proofs::Addresses::low_words, crate::proofs::Words::sizes))]
pub fn low_word_in(t: &[u32], at: usize, family: u8) -> u32
    requires { Valid t.now × (at < length (table_in t.now).entries) × (family ≡ family_of (get_or (table_in t.now).entries at no_entry).address) }
    ensures { result ≡ address_number (get_or (table_in t.now).entries at no_entry).address % 2 ^ 32 }
{
    let start = address::WIDTH * at;
    if family == 4 {
        return t[start + 1];
    }
    t[start + 4]
}

// The low 32 bits of the address at a place: all that the weight of an address asks for.
pub fn low_word_at(t: &[u32], at: usize) -> u32
    requires { Valid t.now × (at < length (table_in t.now).entries) }
    ensures { result ≡ address_number (get_or (table_in t.now).entries at no_entry).address % 2 ^ 32 }
{
    low_word_in(t, at, family_at(t, at))
}

// What the entry at a place says besides its address, as the word that it is kept as.
pub fn attributes_at(t: &[u32], at: usize) -> u32
    requires { Valid t.now × (at < length (table_in t.now).entries) }
    ensures { result ≡ attributes_of (get_or (table_in t.now).entries at no_entry) }
{
    t[ATTRIBUTES + at]
}

// The algorithm and the AC-DF bit in a word of attributes, as one number; and where a word says what differs, whether these do.
pub fn kind_of(word: u32) -> u32
    ensures { result ≡ word / 131072 }
{
    word / KIND
}

// The algorithm and the AC-DF bit of the entry at a place, as one number.
pub fn kind_at(t: &[u32], at: usize) -> u32
    requires { Valid t.now × (at < length (table_in t.now).entries) }
    ensures { result ≡ kind_of (get_or (table_in t.now).entries at no_entry) }
{
    kind_of(attributes_at(t, at))
}

// The algorithm of the entry at a place.
pub fn algorithm_at(t: &[u32], at: usize) -> u32
    requires { Valid t.now × (at < length (table_in t.now).entries) }
    ensures { result ≡ (get_or (table_in t.now).entries at no_entry).algorithm }
{
    kind_at(t, at) / 2
}

// The preference of the entry at a place and the DP bit behind it, as one number.
pub fn standing_at(t: &[u32], at: usize) -> u32
    requires { Valid t.now × (at < length (table_in t.now).entries) }
    ensures { (result ≡ standing_of (get_or (table_in t.now).entries at no_entry)) × (result < 131072) }
{
    attributes_at(t, at) % KIND
}

// What an entry says besides its address, as one word. A preference has 16 bits.
pub fn attributes(e: Election) -> u32
    ensures { Packed e result }
{
    let kind = (e.algorithm as u32) * 2 + (e.ac_df as u32);
    let standing = (e.preference as u32) * 2 + (e.dp as u32);
    kind * KIND + standing
}
