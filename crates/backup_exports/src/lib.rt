// One call to a function, as in `exports`: those that name the backup. They are an archive of their own, so that they are compiled as for a program that elects by no other call.
#![tactic(auto)]

ghost use Rattle.std.specs.Prelude.{◌≡◌};
ghost use Rattle.ready.specs.Ready.{ready_in};
ghost use Rattle.circuit_layout.specs.Circuits.{circuits_in, ValidCircuits};
ghost use Rattle.circuit_ready.specs.Routers.{ready_routers};
ghost use Rattle.segment_state.specs.State.{segment_in, ValidSegment};
ghost use Rattle.backup.specs.Backup.{backup_with, backup_in};
ghost use Rattle.backup_exports.specs.Forms.{exported_backup};

use backup::Named;
use refusals::Refusal;

// The answer that names the backup, laid out as C lays it out.
#[repr(C)]
#[derive(Clone, Copy)]
pub struct Backup {
    pub number: u8,
    pub family: u8,
    pub address: [u32; 4],
}

// The answer that names the backup, field by field.
fn exported(answer: Result<Named, Refusal>) -> Backup
    ensures { result ≡ exported_backup (backup_in answer) }
{
    match answer {
        Ok(named) => {
            let address = named.address;
            Backup {
                number: 0,
                family: named.family,
                address,
            }
        }
        Err(refusal) => Backup {
            number: refusal.number(),
            family: 0,
            address: [0; 4],
        },
    }
}

// `segment::name_backup`.
#[unsafe(no_mangle)]
pub extern "C" fn segment_name_backup(s: &[u32], tag: u32, ready: &[u32]) -> Backup
    requires { ValidSegment s.now }
    ensures { result ≡ exported_backup (backup_with (segment_in s.now).settings (segment_in s.now).table.esi (segment_in s.now).table.entries tag (ready_in ready.now)) }
{
    let b = segment::name_backup(s, tag, ready);
    exported(b)
}

// `segment::name_backup_by_circuits`.
#[unsafe(no_mangle)]
pub extern "C" fn segment_name_backup_by_circuits(s: &[u32], c: &[u32], tag: u32) -> Backup
    requires { ValidSegment s.now × ValidCircuits c.now }
    ensures { result ≡ exported_backup (backup_with (segment_in s.now).settings (segment_in s.now).table.esi (segment_in s.now).table.entries tag (ready_routers (circuits_in c.now) tag (segment_in s.now).table.entries)) }
{
    let b = segment::name_backup_by_circuits(s, c, tag);
    exported(b)
}
