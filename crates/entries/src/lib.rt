// The entries of a table in its words: an address looked up, other attributes for an entry, an entry more, an entry less.
#![tactic(auto)]

ghost use Rattle.std.specs.Prelude.{◌≡◌, [], ◌∷◌, map, ℕ, ◌≤◌, ◌<◌, length, get_or, set};
ghost use Rattle.keyed.specs.Keyed.{spliced, without_at};
ghost use Rattle.rows.specs.Rows.{key_order, found_in, looks_between, looks_for};
ghost use Rattle.std.specs.Prelude.{Ok};
ghost use Rattle.std.specs.declared.cmp.Ordering.TheVariants.{Equal};
ghost use Rattle.address.specs.Address.{address_row, address_key, listed_in, NamesAddress};
ghost use Rattle.layout.specs.Table.{entry_key, no_entry, table_of};
ghost use Rattle.layout.specs.Words.{entry_in, words_of, table_in, Valid};

use address::{Address, Family};
use layout::{ATTRIBUTES, COUNT};
use rows::Lookup;
use std::cmp::Ordering;

// How many words of an address's row, the family and the first of the address, are compared before the others.
const HEAD: usize = 2;

// The address that a row of a ready list names; address zero, which stands in no table, where the row's family is neither.
#[tactic(auto, unfolding(address::specs::Address::address_row, address::specs::Address::listed_in))]
fn listed(row: &[u32]) -> Address
    requires { length row.now ≡ 5 }
    ensures { address_row result ≡ listed_in row.now }
{
    let family = row[0];
    if family == 4 {
        return Address {
            family: Family::V4,
            w0: row[1],
            w1: 0,
            w2: 0,
            w3: 0,
        };
    }
    if family == 6 {
        return Address {
            family: Family::V6,
            w0: row[1],
            w1: row[2],
            w2: row[3],
            w3: row[4],
        };
    }
    Address {
        family: Family::V4,
        w0: 0,
        w1: 0,
        w2: 0,
        w3: 0,
    }
}

// How the entry at a place stands to the address that a row of a ready list names, where the row's family is 4 or 6; no entry equals a row of another family. The family and the
// first word decide, or all five words: in an IPv4 row the words after the first don't count, and an IPv4 entry has zeros there.
#[tactic(auto, using(crate::proofs::Lookups::second_part))]
fn order_at(t: &[u32], at: usize, row: &[u32]) -> Ordering
    requires { Valid t.now × (at < length (table_in t.now).entries) × (length row.now ≡ 5) }
    ensures order { NamesAddress row.now → result ≡ key_order (entry_key (get_or (table_in t.now).entries at no_entry)) (address_key (listed_in row.now)) }
    ensures names { result ≡ Equal → NamesAddress row.now }
{
    let start = at * address::WIDTH;
    let head = rows::compare(t, start, &row[0..HEAD]);
    match head {
        Ordering::Less => Ordering::Less,
        Ordering::Equal => {
            if row[0] == 4 {
                return Ordering::Equal;
            }
            let behind = start + HEAD;
            rows::compare(t, behind, &row[HEAD..address::WIDTH])
        }
        Ordering::Greater => Ordering::Greater,
    }
}

// Searches for an address by halving, the entry in the middle first: where it stands, and how many entries were compared with it, seven at most.
fn search(t: &[u32], address: Address) -> Lookup
    requires { Valid t.now }
    ensures found { result.found ≡ found_in entry_key (address_key (address_row address)) (table_in t.now).entries }
    ensures looks { result.looks ≡ length (looks_between (address_key (address_row address)) (map entry_key (table_in t.now).entries) 0 (length (table_in t.now).entries)) }
    ensures few { result.looks ≤ 7 }
{
    let n = layout::count(t);
    let row = address::row(address);
    rows::search_between(t, n, 0, n, 0, &row)
}

// Goes on from a look at the place `first` for the address of a row of a ready list, with the outcome `order`. Where the family is neither 4 nor 6 the
// row names no address that could stand, and the next look is where this one was.
fn after_first(t: &[u32], first: usize, order: Ordering, row: &[u32]) -> Lookup
    requires { Valid t.now × (first < length (table_in t.now).entries) × (length row.now ≡ 5) × (NamesAddress row.now → order ≡ key_order (entry_key (get_or (table_in t.now).entries first no_entry)) (address_key (listed_in row.now))) }
    ensures found { NamesAddress row.now → result.found ≡ found_in entry_key (address_key (listed_in row.now)) (table_in t.now).entries }
    ensures no_address { (NamesAddress row.now → ⊥) → (i : ℕ) → result.found ≡ Ok i → ⊥ }
    ensures looks { NamesAddress row.now → result.looks ≡ length (looks_for first (address_key (listed_in row.now)) (map entry_key (table_in t.now).entries)) }
    ensures one_look { (NamesAddress row.now → ⊥) → result.looks ≡ 1 }
    ensures few { result.looks ≤ 7 }
{
    let family = row[0];
    if family == 4 || family == 6 {
        let n = layout::count(t);
        let address = listed(row);
        let key = address::row(address);
        return rows::after_look(t, n, first, order, &key);
    }
    Lookup {
        found: Err(first),
        looks: 1,
    }
}

// Looks the address of a row of a ready list up near a place. The first look is at the entry at the place `first`, the row compared as it stands in the list: where it is that
// of the address, as in a list that rises as the table does, this look is all; else the search goes on from its outcome. Where `first` is no place in use the first look
// is in the middle. No entry is compared twice. A row whose family is neither 4 nor 6 is never found; the place that is told then says nothing.
#[tactic(auto, using(crate::proofs::Lookups::without_first))]
pub fn lookup(t: &[u32], first: usize, row: &[u32]) -> Lookup
    requires { Valid t.now × (length row.now ≡ 5) }
    ensures found { NamesAddress row.now → result.found ≡ found_in entry_key (address_key (listed_in row.now)) (table_in t.now).entries }
    ensures no_address { (NamesAddress row.now → ⊥) → (i : ℕ) → result.found ≡ Ok i → ⊥ }
    ensures looks { (first < length (table_in t.now).entries → NamesAddress row.now) → result.looks ≡ length (looks_for first (address_key (listed_in row.now)) (map entry_key (table_in t.now).entries)) }
    ensures one_look { (NamesAddress row.now → ⊥) → first < length (table_in t.now).entries → result.looks ≡ 1 }
    ensures few { result.looks ≤ 7 }
{
    let n = layout::count(t);
    if n <= first {
        let address = listed(row);
        return search(t, address);
    }
    let order = order_at(t, first, row);
    match order {
        Ordering::Equal => Lookup {
            found: Ok(first),
            looks: 1,
        },
        _ => after_first(t, first, order, row),
    }
}

// Where an address stands: `Ok` with its place, or `Err` with the place at which it would stand.
pub fn find(t: &[u32], address: Address) -> Result<usize, usize>
    requires { Valid t.now }
    ensures { result ≡ found_in entry_key (address_key (address_row address)) (table_in t.now).entries }
{
    let r = search(t, address);
    r.found
}

// Other attributes for the entry at a place.
pub fn replace(t: &mut [u32], at: usize, word: u32)
    requires { Valid t.old × (at < length (table_in t.old).entries) }
    ensures { t.new ≡ words_of (table_of (table_in t.old).esi (set (table_in t.old).entries at (entry_in (get_or (table_in t.old).entries at no_entry).address (word ∷ [])))) }
{
    t[ATTRIBUTES + at] = word;
}

// One entry more, before the one at a place.
pub fn grow(t: &mut [u32], at: usize, address: Address, word: u32)
    requires { Valid t.old × (at ≤ length (table_in t.old).entries) × (length (table_in t.old).entries < 64) }
    ensures { t.new ≡ words_of (table_of (table_in t.old).esi (spliced (table_in t.old).entries at (entry_in (address_row address) (word ∷ [])))) }
{
    let n = layout::count(t);
    let row = address::row(address);
    let words = [word];
    gaps::insert(t, n, at, &row);
    gaps::insert(&mut t[ATTRIBUTES..], n, at, &words);
    let more = n + 1;
    t[COUNT] = more as u32;
}

// One entry less: the one at a place goes.
pub fn shrink(t: &mut [u32], at: usize)
    requires { Valid t.old × (at < length (table_in t.old).entries) }
    ensures { t.new ≡ words_of (table_of (table_in t.old).esi (without_at (table_in t.old).entries at)) }
{
    let n = layout::count(t);
    gaps::remove(t, n, address::WIDTH, at);
    gaps::remove(&mut t[ATTRIBUTES..], n, 1, at);
    let less = n - 1;
    t[COUNT] = less as u32;
}
