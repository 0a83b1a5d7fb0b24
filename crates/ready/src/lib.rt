// The candidates of an election as a set of places of the table: all routes or, with AC-DF in use, those whose address is on the ready list.
#![tactic(auto)]

ghost use Rattle.std.specs.Prelude.{◌≡◌, map};
ghost use Rattle.layout.specs.Words.{table_in, Valid};
ghost use Rattle.places.specs.Places.{set_of};
ghost use Rattle.ready.specs.Ready.{ready_in, on_list, candidate_set};

use address::WIDTH;

// The set of the places whose address is on the ready list, a run of rows of five words. Repeats and strangers in the list do no harm. The first look for an address is at the table's
// place after the one where the address before it was found, or at the place where that one would stand: where the list rises as the table does, it is there.
// After a row whose family is neither 4 nor 6 it is where the look before was.
pub fn ready_set(t: &[u32], ready: &[u32]) -> u64
    requires { Valid t.now }
    ensures { result ≡ set_of (map (λ e. on_list (ready_in ready.now) e.address) (table_in t.now).entries) }
{
    let mut set = 0;
    let mut first = 0;
    let mut start = 0;
    for _i in 0..ready.len() / WIDTH {
        let end = start + WIDTH;
        let looked = entries::lookup(t, first, &ready[start..end]);
        match looked.found {
            Ok(at) => {
                set = places::with(set, at);
                first = at + 1;
            }
            Err(at) => {
                first = at;
            }
        }
        start = end;
    }
    set
}

// The candidate set: all places in use or, with AC-DF in use, those on the ready list.
#[tactic(auto, using(crate::proofs::Laws::candidates_by_bit))]
pub fn candidate_set(t: &[u32], ac_df: bool, ready: &[u32]) -> u64
    requires { Valid t.now }
    ensures { result ≡ candidate_set ac_df (ready_in ready.now) (table_in t.now).entries }
{
    if ac_df {
        return ready_set(t, ready);
    }
    places::below(layout::count(t))
}
