// The second in line (document 02, M-113): who is elected among the candidates without the forwarder, so that a router knows whether it is the one to take over.
#![tactic(auto)]

ghost use Rattle.std.specs.Prelude.{◌≡◌, false, ◌<◌, ◌^◌, length, get_or};
ghost use Rattle.tags.specs.Tags.{reserved_tag};
ghost use Rattle.layout.specs.Table.{no_entry};
ghost use Rattle.layout.specs.Words.{table_in, Valid};
ghost use Rattle.settings.specs.Settings.{settings_in, ValidSettings};
ghost use Rattle.places.specs.Places.{places};
ghost use Rattle.circuit_layout.specs.Circuits.{circuits_in, ValidCircuits};
ghost use Rattle.ready.specs.Ready.{ready_in};
ghost use Rattle.circuit_ready.specs.Routers.{ready_routers};
ghost use Rattle.refusals.specs.Refusals.{ready_too_long};
ghost use Rattle.winner.specs.Winner.{entries_at};
ghost use Rattle.answers.specs.Answers.{by_tag};
ghost use Rattle.election.specs.Queries.{plain, plain_algorithm, method_of, candidates_of};
ghost use Rattle.backup.specs.Backup.{named_backup, backup_by, backup_with, backup_named, backup_in, SecondInLine};
ghost use Rattle.backup.specs.Steps.{SecondAt, Usable};

use address::WIDTH;
use agreement::InUse;
use refusals::Refusal;

// The most rows that a ready list may have.
const MAX_READY: usize = 64;

// The address of the router that is named: its family (4 or 6) and sixteen octets in four words, an IPv4 address in the first, then zeros.
#[derive(Clone, Copy, Debug, Default, PartialEq, Eq)]
pub struct Named {
    pub family: u8,
    pub address: [u32; 4],
}

// The router at a place, named.
fn name_at(t: &[u32], at: usize) -> Named
    requires { Valid t.now × (at < length (table_in t.now).entries) }
    ensures { backup_named result ≡ named_backup (get_or (table_in t.now).entries at no_entry).address }
{
    let family = layout::family_at(t, at);
    let address = layout::words_at(t, at);
    Named { family, address }
}

// Of a set of n places in use, two or more, the place that is elected for a tag once the first elected is taken out.
fn second_of(t: &[u32], algorithm: u8, set: u64, n: u32, tag: u32) -> usize
    requires { Valid t.now × (1 < length (places set)) × (set < 2 ^ length (table_in t.now).entries) × (n ≡ length (places set)) }
    ensures { SecondAt (table_in t.now).entries (by_tag algorithm tag (table_in t.now).esi) set tag result }
{
    let first = answers::place_by_tag(t, algorithm, set, n, tag);
    let rest = places::without(set, first);
    answers::place_by_tag(t, algorithm, rest, n - 1, tag)
}

// The answer for a set of places in use, by an algorithm: 12 where it has fewer than two.
#[tactic(auto, using(crate::proofs::Laws::named_or_not))]
pub fn backup_among(t: &[u32], algorithm: u8, set: u64, tag: u32) -> Result<Named, Refusal>
    requires { Valid t.now × (set < 2 ^ length (table_in t.now).entries) }
    ensures { backup_in result ≡ backup_by (by_tag algorithm tag (table_in t.now).esi) (entries_at (table_in t.now).entries (places set)) tag }
{
    let n = places::count(set);
    if n < 2 {
        return Err(Refusal::NoneEligible);
    }
    let at = second_of(t, algorithm, set, n, tag);
    Ok(name_at(t, at))
}

// The same by the algorithm of a plain query. It is compiled into its two callers: a `Result` that is handed up through memory would cost a third of the call.
#[inline(always)]
fn backup_of(t: &[u32], settings: &[u32], in_use: u8, set: u64, tag: u32) -> Result<Named, Refusal>
    requires { Valid t.now × ValidSettings settings.now × (reserved_tag tag ≡ false) × (set < 2 ^ length (table_in t.now).entries) }
    ensures { backup_in result ≡ backup_by (by_tag (plain_algorithm (settings_in settings.now) tag in_use) tag (table_in t.now).esi) (entries_at (table_in t.now).entries (places set)) tag }
{
    let algorithm = election::plain_algorithm(settings, tag, in_use);
    backup_among(t, algorithm, set, tag)
}

// The algorithm and the AC-DF bit in use, unless the table is empty or algorithm 0 is in use.
fn usable(t: &[u32], settings: &[u32]) -> Result<InUse, Refusal>
    requires { Valid t.now × ValidSettings settings.now }
    ensures { Usable (settings_in settings.now) (table_in t.now).entries result }
{
    if layout::count(t) == 0 {
        return Err(Refusal::NoneEligible);
    }
    let u = agreement::in_use(t, settings);
    if u.algorithm == 0 {
        return Err(Refusal::AlgorithmNotUsable);
    }
    Ok(u)
}

// Names the backup for a tag: 10 for tag 0 or 4,294,967,295, 11 for a ready list over 64 rows of five words, 12 for an empty table, 15 where algorithm 0 is in use,
// 12 where fewer than two routes are eligible. An address that is named is that of a candidate other than the forwarder, and no other candidate but the forwarder is
// better.
pub fn name_backup(t: &[u32], settings: &[u32], tag: u32, ready: &[u32]) -> Result<Named, Refusal>
    requires { Valid t.now × ValidSettings settings.now }
    ensures answer { backup_in result ≡ backup_with (settings_in settings.now) (table_in t.now).esi (table_in t.now).entries tag (ready_in ready.now) }
    ensures second { (backup_in result).number ≡ 0 → SecondInLine (method_of (settings_in settings.now) plain (table_in t.now).esi (table_in t.now).entries tag) (candidates_of (settings_in settings.now) (table_in t.now).entries (ready_in ready.now)) tag (backup_in result) }
{
    if tags::is_reserved(tag) {
        return Err(Refusal::TagReserved);
    }
    if MAX_READY < ready.len() / WIDTH {
        return Err(Refusal::ReadyTooLong);
    }
    let u = usable(t, settings)?;
    let set = ready::candidate_set(t, u.ac_df, ready);
    backup_of(t, settings, u.algorithm, set, tag)
}

// Names the backup over both tables: as `name_backup` does with the list of those routers of the route table that are ready for the tag by their A-D routes. This list
// is never too long, so 11 is not answered.
pub fn name_backup_by_circuits(
    t: &[u32],
    settings: &[u32],
    circuits: &[u32],
    tag: u32,
) -> Result<Named, Refusal>
    requires { Valid t.now × ValidSettings settings.now × ValidCircuits circuits.now }
    ensures answer { backup_in result ≡ backup_with (settings_in settings.now) (table_in t.now).esi (table_in t.now).entries tag (ready_routers (circuits_in circuits.now) tag (table_in t.now).entries) }
    ensures second { (backup_in result).number ≡ 0 → SecondInLine (method_of (settings_in settings.now) plain (table_in t.now).esi (table_in t.now).entries tag) (candidates_of (settings_in settings.now) (table_in t.now).entries (ready_routers (circuits_in circuits.now) tag (table_in t.now).entries)) tag (backup_in result) }
    ensures never_long { (backup_in result).number ≡ ready_too_long → ⊥ }
{
    if tags::is_reserved(tag) {
        return Err(Refusal::TagReserved);
    }
    let u = usable(t, settings)?;
    let set = circuit_ready::circuit_candidates(t, u.ac_df, circuits, tag);
    backup_of(t, settings, u.algorithm, set, tag)
}
