// A table of Ethernet A-D routes in words that a caller lends: 256 rows of seven words in rising order (the kind of the route, its tag, its address), then the
// number of routes.
// Unused places are zero. What lies where is known here, and in `circuit_ready`, which compares a row where it stands; the calls are in `circuits`.
#![tactic(auto)]

ghost use Rattle.std.specs.Prelude.{◌≡◌, ◌+◌, ◌*◌, ◌≤◌, ◌<◌, length};
ghost use Rattle.keyed.specs.Keyed.{spliced, without_at, rank};
ghost use Rattle.rows.specs.Rows.{row_key, head_key, found_in};
ghost use Rattle.address.specs.Address.{address_row};
ghost use Rattle.circuit_layout.specs.Circuits.{ad_row, circuit_words, circuits_in, ValidCircuits};

use address::Address;

// What an Ethernet A-D route is announced for: a whole segment (per ES), or one tag on it (per EVI).
#[derive(Clone, Copy)]
pub enum Scope {
    Segment,
    Instance(u32),
}

// How many routes of both kinds a table holds.
pub const CAPACITY: usize = 256;

// How many bits that number takes, and that of fewer routes than FEW: two or three routers have so many for their segment and a few tags.
const BITS: usize = 9;

const FEW: usize = 32;

const FEW_BITS: usize = 5;

// How many words a table has.
pub const WORDS: usize = 1793;

// How many words a route has as a row.
pub const WIDTH: usize = 7;

// The kinds of a route, as the first word of its row.
pub const PER_SEGMENT: u32 = 1;

pub const PER_INSTANCE: u32 = 2;

// Where the number of routes is.
const COUNT: usize = 1792;

// The row of a route.
pub fn row(scope: Scope, address: Address) -> [u32; WIDTH]
    ensures { result ≡ ad_row scope (address_row address) }
{
    let a = address::row(address);
    match scope {
        Scope::Segment => [PER_SEGMENT, 0, a[0], a[1], a[2], a[3], a[4]],
        Scope::Instance(tag) => [PER_INSTANCE, tag, a[0], a[1], a[2], a[3], a[4]],
    }
}

// How many routes are in a table.
pub fn count(t: &[u32]) -> usize
    requires { ValidCircuits t.now }
    ensures { result ≡ length (circuits_in t.now) }
{
    t[COUNT] as usize
}

// Where a route stands: `Ok` with its place, or `Err` with the place at which it would stand. The first look is at the place `first`, or in the middle where `first` is no place in use.
pub fn look(t: &[u32], first: usize, row: &[u32]) -> Result<usize, usize>
    requires { ValidCircuits t.now × (length row.now ≡ 7) }
    ensures { result ≡ found_in row_key (row_key row.now) (circuits_in t.now) }
{
    let n = count(t);
    let r = rows::search(t, n, first, row);
    r.found
}

// The word at which the routes of a kind and tag start, or would start. Among few routes the looks at larger distances are not asked for.
pub fn start_of_tag(t: &[u32], kind: u32, tag: u32) -> usize
    requires { ValidCircuits t.now }
    ensures { result ≡ rank row_key (head_key 7 (kind * 4294967296 + tag)) (circuits_in t.now) * 7 }
{
    let n = count(t);
    if n < FEW {
        return rows::word_of_head(t, n, WIDTH, FEW_BITS, kind, tag);
    }
    rows::word_of_head(t, n, WIDTH, BITS, kind, tag)
}

// One route more, before the one at a place.
pub fn grow(t: &mut [u32], at: usize, row: &[u32])
    requires { ValidCircuits t.old × (at ≤ length (circuits_in t.old)) × (length (circuits_in t.old) < 256) × (length row.now ≡ 7) }
    ensures { t.new ≡ circuit_words (spliced (circuits_in t.old) at row.now) }
{
    let n = count(t);
    gaps::insert(t, n, at, row);
    let more = n + 1;
    t[COUNT] = more as u32;
}

// One route less: the one at a place goes.
pub fn shrink(t: &mut [u32], at: usize)
    requires { ValidCircuits t.old × (at < length (circuits_in t.old)) }
    ensures { t.new ≡ circuit_words (without_at (circuits_in t.old) at) }
{
    let n = count(t);
    gaps::remove(t, n, WIDTH, at);
    let less = n - 1;
    t[COUNT] = less as u32;
}
