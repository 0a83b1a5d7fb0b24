// The routes of one segment: a table of at most 64 entries in rising address order. It lies in words that the caller lends (`layout`).
// A refused call leaves them as they were. The call that announces a route is in `announcing`.
#![tactic(auto)]

ghost use Rattle.refusals.specs.Numbers.{number_of};
ghost use Rattle.address.specs.Address.{address_row};
ghost use Rattle.layout.specs.Words.{table_in, Valid};
ghost use Rattle.table.specs.Table.{fresh_table, withdrawn, Told};

use address::Address;
pub use layout::WORDS;
use refusals::Refusal;

// The preference that a configuration would start from (RFC 9785); no rule of the table uses it.
pub const DEFAULT_PREFERENCE: u16 = 32767;

// A fresh table: whether the identifier is refused, and the words of the table, which is empty either way.
#[derive(Drop)]
pub struct Made {
    pub answer: Result<(), Refusal>,
    pub table: [u32; WORDS],
}

// A fresh table for an identifier. For a reserved one, or one that is not ten octets, 4 and the empty table of the all-zero identifier.
pub fn fresh(esi: &[u8]) -> Made
    ensures answer { Told (fresh_table esi.now) (number_of result.answer) 0 result.table }
    ensures kept { Valid result.table }
{
    let mut words = [0u32; WORDS];
    let answer = owner::give(&mut words, esi);
    Made {
        answer,
        table: words,
    }
}

// Withdraws an address: 6 for address zero, 9 for one that is not present. The freed place is zero and can be filled again.
#[tactic(auto, using(crate::proofs::Told::withdrawing))]
pub fn withdraw(t: &mut [u32], address: Address) -> Result<(), Refusal>
    requires { Valid t.old }
    ensures answer { Told (withdrawn (table_in t.old) (address_row address)) (number_of result) 0 t.new }
    ensures kept { Valid t.new }
{
    if address::is_zero(address) {
        return Err(Refusal::AddressZero);
    }
    let found = entries::find(t, address);
    let Ok(at) = found else {
        return Err(Refusal::NotPresent);
    };
    entries::shrink(t, at);
    Ok(())
}
