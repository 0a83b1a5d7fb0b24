// The walk of `candidate_list`, exported for programs in C and in Rust, which hand the list over as a pointer and a count.
#![tactic(auto)]

ghost use Rattle.std.specs.Prelude.{◌≡◌};
ghost use mathlib.Core.List.{List, map, Permᴰ};
ghost use Rattle.backup.specs.Backup.{SecondInLine};
ghost use Rattle.candidate_list.specs.Candidates.{candidate_entry, by_algorithm, backup_in_list};
ghost use Rattle.candidate_list_c.specs.Forms.{told_backup};

use candidate_list::Candidate;

// The whole answer: 0 and the backup's address, its family (4 or 6) and sixteen octets in four words, an IPv4 address in the first, then zeros; or a refusal number and zeros.
#[repr(C)]
#[derive(Clone, Copy)]
pub struct Backup {
    pub number: u8,
    pub family: u8,
    pub address: [u32; 4],
}

// `candidate_list::name_backup_in`.
#[unsafe(no_mangle)]
pub extern "C" fn name_backup_in(list: &[Candidate], algorithm: u8) -> Backup
    ensures answer { told_backup result ≡ backup_in_list list.now algorithm }
    ensures second { (told_backup result).number ≡ 0 → SecondInLine (by_algorithm algorithm) (map candidate_entry list.now) 0 (told_backup result) }
    ensures any_order { (other : List Candidate) → Permᴰ other list.now → told_backup result ≡ backup_in_list other algorithm }
{
    match candidate_list::name_backup_in(list, algorithm) {
        Ok(named) => {
            let address = named.address;
            Backup {
                number: 0,
                family: named.family,
                address,
            }
        }
        Err(refusal) => Backup {
            number: refusal.number(),
            family: 0,
            address: [0; 4],
        },
    }
}
