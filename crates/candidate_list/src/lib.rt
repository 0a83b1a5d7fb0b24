// A list of candidates kept as records (document 02, M-113): the backup among them under algorithm 2 or 3, which the caller names. The walk is the one function that has the lent list: it hands
// each record by value to `take_in`, which puts it among the entries of a route table, and the table to `backup_of`.
#![tactic(auto)]

ghost use Rattle.std.specs.Prelude.{◌≡◌, ◌<◌, length, false};
ghost use mathlib.Core.List.{List, map, Permᴰ};
ghost use Rattle.backup.specs.Backup.{backup_in, SecondInLine};
ghost use Rattle.candidate_list.specs.Candidates.{candidate_entry, by_algorithm, backup_under, backup_in_list};
ghost use Rattle.candidate_list.specs.Steps.{unless_zero, OriginatorOf, Loadable, TakenIn, entries_of, NothingLoaded};

use address::{Address, Family};
use backup::Named;
use community::Election;
use layout::WORDS;
use refusals::Refusal;

// The most records that a list may have.
const MAX_CANDIDATES: usize = 64;

// The identifier of the table that records are loaded into, any that is not reserved: under algorithms 2 and 3 no identifier counts.
const SEGMENT: [u8; 10] = [0, 0, 0, 0, 0, 0, 0, 0, 0, 1];

// The algorithm that an entry is kept under, so that it has a preference: the caller's is the one that counts.
const HIGHEST_PREFERENCE: u8 = 2;

// A candidate: its address, the family (4 or 6) and four words, an IPv4 address in the first, where the others don't count; its preference and its DP bit, which in C is 0 or 1 and nothing else.
#[repr(C)]
#[derive(Clone, Copy)]
pub struct Candidate {
    pub family: u8,
    pub w0: u32,
    pub w1: u32,
    pub w2: u32,
    pub w3: u32,
    pub preference: u16,
    pub dp: bool,
}

// An address, unless it is zero.
#[tactic(auto, unfolding(crate::specs::Steps::unless_zero))]
fn unless_zero(a: Address) -> Option<Address>
    ensures { result ≡ unless_zero a }
{
    if address::is_zero(a) {
        return None;
    }
    Some(a)
}

// The address of a record. A family that is neither 4 nor 6 has none, and address zero is none.
#[tactic(auto, using(crate::proofs::Taken::by_family))]
fn address_of(c: Candidate) -> Option<Address>
    ensures { OriginatorOf c result }
{
    let family = match c.family {
        4 => Family::V4,
        6 => Family::V6,
        _ => return None,
    };
    unless_zero(Address {
        family,
        w0: c.w0,
        w1: c.w1,
        w2: c.w2,
        w3: c.w3,
    })
}

// Puts a record among the entries of a table: 22 where it has no address or one that is there. Then nothing changes.
fn take_in(t: &mut [u32], c: Candidate) -> Result<(), Refusal>
    requires { Loadable t.old × (length (entries_of t.old) < 64) }
    ensures { Loadable t.new × TakenIn (entries_of t.old) c result (entries_of t.new) }
{
    let Some(address) = address_of(c) else {
        return Err(Refusal::CandidatesWrong);
    };
    let found = entries::find(t, address);
    let Err(at) = found else {
        return Err(Refusal::CandidatesWrong);
    };
    let election = Election {
        algorithm: HIGHEST_PREFERENCE,
        ac_df: false,
        dp: c.dp,
        preference: c.preference,
    };
    let word = layout::attributes(election);
    entries::grow(t, at, address, word);
    Ok(())
}

// The words of a table that records can be loaded into, with none yet.
fn nothing() -> [u32; WORDS]
    ensures { NothingLoaded result }
{
    let esi = SEGMENT;
    let made = table::fresh(&esi);
    made.table
}

// The backup among the entries of a table: 15 for an algorithm that is neither 2 nor 3, 12 where there are fewer than two.
#[tactic(auto, using(crate::proofs::Among::refused_or_not))]
fn backup_of(t: &[u32], algorithm: u8) -> Result<Named, Refusal>
    requires { Loadable t.now }
    ensures { backup_in result ≡ backup_under false algorithm (entries_of t.now) }
{
    if algorithm < 2 || 3 < algorithm {
        return Err(Refusal::AlgorithmNotUsable);
    }
    let set = places::below(layout::count(t));
    backup::backup_among(t, algorithm, set, 0)
}

// Names the backup among a list of candidates, in any order, all of them eligible, under algorithm 2 or 3: 22 for a list over 64, with an address twice, with address zero or with a family that is
// neither 4 nor 6; then 15 for another algorithm; then 12 for fewer than two records. An address that is named is that of a candidate other than the forwarder, and no other candidate but the
// forwarder is better. The order of the list does not matter. `candidate_list_c` exports it.
#[tactic(auto, using(crate::proofs::Loads::loading))]
pub fn name_backup_in(list: &[Candidate], algorithm: u8) -> Result<Named, Refusal>
    ensures answer { backup_in result ≡ backup_in_list list.now algorithm }
    ensures second { (backup_in result).number ≡ 0 → SecondInLine (by_algorithm algorithm) (map candidate_entry list.now) 0 (backup_in result) }
    ensures any_order { (other : List Candidate) → Permᴰ other list.now → backup_in result ≡ backup_in_list other algorithm }
{
    if MAX_CANDIDATES < list.len() {
        return Err(Refusal::CandidatesWrong);
    }
    let mut words = nothing();
    for c in list {
        take_in(&mut words, *c)?;
    }
    backup_of(&words, algorithm)
}
