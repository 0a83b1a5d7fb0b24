// Which routers of a route table are ready for a tag by their Ethernet A-D routes, as a set of places: those whose two routes stand.
#![tactic(auto)]

ghost use Rattle.std.specs.Prelude.{◌≡◌, true, ◌&&◌, ◌∷◌, map, ℕ, ◌+◌, ◌*◌, ◌/◌, ◌%◌, ◌≤◌, ◌<◌, length, get_or, take, drop, eqb};
ghost use Rattle.lists.specs.Lists.{bit};
ghost use Rattle.keyed.specs.Keyed.{rank};
ghost use Rattle.rows.specs.Rows.{row_key};
ghost use Rattle.address.specs.Address.{IsAddress};
ghost use Rattle.layout.specs.Table.{no_entry};
ghost use Rattle.layout.specs.Words.{table_in, Valid};
ghost use Rattle.circuit_layout.specs.Circuits.{per_segment, per_instance, circuits_in, ValidCircuits};
ghost use Rattle.places.specs.Places.{set_of};
ghost use Rattle.ready.specs.Ready.{candidate_set};
ghost use Rattle.circuit_ready.specs.Routers.{stands, stands_at, ready_for, ready_routers};
ghost use Rattle.circuit_ready.specs.Steps.{HeadAt, StartsAt, SameWords};

use circuit_layout::{PER_INSTANCE, PER_SEGMENT, WIDTH};

// How many words of a route's row, its kind and its tag, stand before its address.
const HEAD: usize = 2;

// Whether the words from `start` on are the key.
#[tactic(auto, using(crate::proofs::Stands::told_same))]
fn same_at(c: &[u32], start: usize, key: &[u32]) -> bool
    requires { start + length key.now ≤ length c.now }
    ensures { result ≡ eqb (row_key (take (length key.now) (drop start c.now))) (row_key key.now) }
{
    rows::compare(c, start, key).is_eq()
}

// Whether the route of a kind and tag of the router with this address, as a row of words, stands where a row in use starts.
fn is_at(circuits: &[u32], start: usize, kind: u32, tag: u32, address: &[u32]) -> bool
    requires { ValidCircuits circuits.now × IsAddress address.now × (start % 7 ≡ 0) × (start / 7 < length (circuits_in circuits.now)) }
    ensures { result ≡ stands_at (circuits_in circuits.now) (start / 7) (kind ∷ tag ∷ address.now) }
{
    let head = [kind, tag];
    if !same_at(circuits, start, &head) {
        return false;
    }
    let behind = start + HEAD;
    same_at(circuits, behind, address)
}

// Whether both routes of a router stand where two rows start, the per-segment one's no later than the other's.
fn both_at(circuits: &[u32], segment: usize, instance: usize, tag: u32, address: &[u32]) -> bool
    requires { ValidCircuits circuits.now × IsAddress address.now × (segment % 7 ≡ 0) × (instance % 7 ≡ 0) × (segment ≤ instance) }
    ensures { result ≡ (stands_at (circuits_in circuits.now) (segment / 7) (per_segment address.now) && stands_at (circuits_in circuits.now) (instance / 7) (per_instance tag address.now)) }
{
    let end = circuit_layout::count(circuits) * WIDTH;
    if end <= instance {
        return false;
    }
    if !is_at(circuits, segment, PER_SEGMENT, 0, address) {
        return false;
    }
    is_at(circuits, instance, PER_INSTANCE, tag, address)
}

// Looks for a route of the router with this address, at the place `first` before all others: whether it stands, and where the next look starts, after it or at
// the place where it would stand.
fn look_for(circuits: &[u32], first: usize, kind: u32, tag: u32, address: &[u32]) -> (bool, usize)
    requires { ValidCircuits circuits.now × IsAddress address.now }
    ensures stands { result.0 ≡ stands (circuits_in circuits.now) (kind ∷ tag ∷ address.now) }
    ensures next { result.1 ≡ rank row_key (row_key (kind ∷ tag ∷ address.now)) (circuits_in circuits.now) + bit result.0 }
{
    let row = [
        kind, tag, address[0], address[1], address[2], address[3], address[4],
    ];
    let found = circuit_layout::look(circuits, first, &row);
    match found {
        Ok(at) => (true, at + 1),
        Err(at) => (false, at),
    }
}

// The set of the places whose router is ready for a tag. Routers are asked for in rising address order, as the routes of each kind stand: the first look for each
// of a router's two routes is at the place after the one where the last router's stood, or would stand, kept as the word at which its row starts. Of the first router it is at the first route. Where both
// stand there, as those of every router after the first do where all are ready and no other router has routes between theirs, equality alone decides; else both are searched for.
fn circuit_set(t: &[u32], circuits: &[u32], tag: u32) -> u64
    requires { Valid t.now × ValidCircuits circuits.now }
    ensures { result ≡ set_of (map (λ e. ready_for (circuits_in circuits.now) tag e.address) (table_in t.now).entries) }
{
    let n = layout::count(t);
    let mut set = 0;
    let mut segment = 0;
    let mut instance = 0;
    for at in 0..n {
        let address = layout::address_at(t, at);
        if both_at(circuits, segment, instance, tag, address) {
            set = places::with(set, at);
            segment += WIDTH;
            instance += WIDTH;
        } else {
            let (first, next) = look_for(circuits, segment / WIDTH, PER_SEGMENT, 0, address);
            segment = next * WIDTH;
            let (other, next) = look_for(circuits, instance / WIDTH, PER_INSTANCE, tag, address);
            instance = next * WIDTH;
            if first & other {
                set = places::with(set, at);
            }
        }
    }
    set
}

// Whether the row that starts at a word begins with a kind and a tag.
fn head_is(circuits: &[u32], start: usize, kind: u32, tag: u32) -> bool
    requires { start + 2 ≤ length circuits.now }
    ensures { result ≡ true → HeadAt circuits.now start kind tag }
{
    let wanted = [kind, tag];
    same_at(circuits, start, &wanted)
}

// Whether the first n routers' addresses stand in the rows from the first on, and in those from the word `start` on, one after the other. Of each address the first `width` words are compared.
fn addresses_are(t: &[u32], circuits: &[u32], start: usize, n: usize, width: usize) -> bool
    requires { Valid t.now × (n ≤ length (table_in t.now).entries) × (length circuits.now ≡ 1793) × (start + n * 7 ≤ 1792) × (width ≤ 5) }
    ensures { result ≡ true → (i : ℕ) → i < n → SameWords width t.now (i * 5) circuits.now (i * 7 + 2) × SameWords width t.now (i * 5) circuits.now (start + (i * 7 + 2)) }
{
    for i in 0..n {
        let at = i * address::WIDTH;
        let end = at + width;
        let address = &t[at..end];
        let row = i * WIDTH + HEAD;
        if !same_at(circuits, row, address) {
            return false;
        }
        let other = start + row;
        if !same_at(circuits, other, address) {
            return false;
        }
    }
    true
}

// Whether the routes of all n routers, which are some, stand side by side: those per segment from the first row on, those per instance of the tag from the word `start` on, before which no such route stands. Rows
// rise, so where the last is of that kind and tag, all from there to it are; and IPv4 addresses stand before others, so where the last is one, all are, and their first two words say them.
fn together(t: &[u32], circuits: &[u32], start: usize, n: usize, tag: u32) -> bool
    requires { Valid t.now × ValidCircuits circuits.now × (n ≡ length (table_in t.now).entries) × (0 < n) × (start % 7 ≡ 0) × (start / 7 + n ≤ length (circuits_in circuits.now)) × StartsAt circuits.now start 2 tag }
    ensures { result ≡ true → (i : ℕ) → i < n → ready_for (circuits_in circuits.now) tag (get_or (table_in t.now).entries i no_entry).address ≡ true }
{
    let last = (n - 1) * WIDTH;
    if !head_is(circuits, last, PER_SEGMENT, 0) {
        return false;
    }
    let other = start + last;
    if !head_is(circuits, other, PER_INSTANCE, tag) {
        return false;
    }
    if layout::family_at(t, n - 1) == 4 {
        return addresses_are(t, circuits, start, n, HEAD);
    }
    addresses_are(t, circuits, start, n, address::WIDTH)
}

// Whether all n routers are ready for a tag and their routes stand side by side, as far as the place where those of the tag start tells; n may be 0.
fn all_ready(t: &[u32], circuits: &[u32], n: usize, tag: u32) -> bool
    requires { Valid t.now × ValidCircuits circuits.now × (n ≡ length (table_in t.now).entries) }
    ensures { result ≡ true → (i : ℕ) → i < n → ready_for (circuits_in circuits.now) tag (get_or (table_in t.now).entries i no_entry).address ≡ true }
{
    if n == 0 {
        return true;
    }
    let start = circuit_layout::start_of_tag(circuits, PER_INSTANCE, tag);
    let end = circuit_layout::count(circuits) * WIDTH;
    if end < start + n * WIDTH {
        return false;
    }
    together(t, circuits, start, n, tag)
}

// The candidate set: all places in use or, with AC-DF in use, those of the ready routers. It is the one that the list of the ready routers of the route table makes. Where the routes of
// all routers stand side by side, as they do where all are ready and no other router has routes between theirs, no router is asked for by itself.
pub fn circuit_candidates(t: &[u32], ac_df: bool, circuits: &[u32], tag: u32) -> u64
    requires { Valid t.now × ValidCircuits circuits.now }
    ensures { result ≡ candidate_set ac_df (ready_routers (circuits_in circuits.now) tag (table_in t.now).entries) (table_in t.now).entries }
{
    let n = layout::count(t);
    if ac_df && !all_ready(t, circuits, n, tag) {
        return circuit_set(t, circuits, tag);
    }
    places::below(n)
}
