// What users link for the second in line (document 02, M-113), through `segment`: the calls that name the backup upon the state of a segment, by a ready list or by the A-D routes of a second table.
#![tactic(auto)]

ghost use Rattle.std.specs.Prelude.{◌≡◌};
ghost use Rattle.ready.specs.Ready.{ready_in};
ghost use Rattle.circuit_layout.specs.Circuits.{circuits_in, ValidCircuits};
ghost use Rattle.circuit_ready.specs.Routers.{ready_routers};
ghost use Rattle.refusals.specs.Refusals.{ready_too_long};
ghost use Rattle.segment_state.specs.State.{segment_in, ValidSegment};
ghost use Rattle.election.specs.Queries.{plain, method_of, candidates_of};
ghost use Rattle.backup.specs.Backup.{backup_with, backup_in, SecondInLine};
ghost use Rattle.takeover.specs.Takeover.{TakesOver, TakesOverBy};

use backup::Named;
use refusals::Refusal;
use segment_state::SETTINGS;

// Names the backup for a tag, the router that is elected among the eligible without the forwarder: 10 for tag 0 or 4,294,967,295, 11 for a ready list over 64 rows of five words, 12 for an
// empty table, 15 where algorithm 0 is in use, 12 where fewer than two routes are eligible. Once the forwarder is withdrawn it is the one elected.
pub fn name_backup(s: &[u32], tag: u32, ready: &[u32]) -> Result<Named, Refusal>
    requires { ValidSegment s.now }
    ensures answer { backup_in result ≡ backup_with (segment_in s.now).settings (segment_in s.now).table.esi (segment_in s.now).table.entries tag (ready_in ready.now) }
    ensures second { (backup_in result).number ≡ 0 → SecondInLine (method_of (segment_in s.now).settings plain (segment_in s.now).table.esi (segment_in s.now).table.entries tag) (candidates_of (segment_in s.now).settings (segment_in s.now).table.entries (ready_in ready.now)) tag (backup_in result) }
    ensures takes_over { TakesOver (segment_in s.now) tag (ready_in ready.now) (backup_in result) }
{
    backup::name_backup(&s[..SETTINGS], &s[SETTINGS..], tag, ready)
}

// The same over both tables, with the routers that are ready for the tag by their A-D routes. 11 is not answered. Once the forwarder is withdrawn from the route table the backup is the one elected
// over both tables.
pub fn name_backup_by_circuits(s: &[u32], circuits: &[u32], tag: u32) -> Result<Named, Refusal>
    requires { ValidSegment s.now × ValidCircuits circuits.now }
    ensures answer { backup_in result ≡ backup_with (segment_in s.now).settings (segment_in s.now).table.esi (segment_in s.now).table.entries tag (ready_routers (circuits_in circuits.now) tag (segment_in s.now).table.entries) }
    ensures second { (backup_in result).number ≡ 0 → SecondInLine (method_of (segment_in s.now).settings plain (segment_in s.now).table.esi (segment_in s.now).table.entries tag) (candidates_of (segment_in s.now).settings (segment_in s.now).table.entries (ready_routers (circuits_in circuits.now) tag (segment_in s.now).table.entries)) tag (backup_in result) }
    ensures never_long { (backup_in result).number ≡ ready_too_long → ⊥ }
    ensures takes_over { TakesOverBy (segment_in s.now) (circuits_in circuits.now) tag (backup_in result) }
{
    backup::name_backup_by_circuits(&s[..SETTINGS], &s[SETTINGS..], circuits, tag)
}
