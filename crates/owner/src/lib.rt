// The identifier that a table belongs to, in three of the table's words, four octets in each of the first two: written, read, and compared with another.
#![tactic(auto)]

ghost use Rattle.std.specs.Prelude.{◌≡◌, ◌++◌, length, take, replicate};
ghost use Rattle.refusals.specs.Numbers.{number_of};
ghost use Rattle.octets.specs.Octets.{same_numbers};
ghost use Rattle.layout.specs.Words.{identifier_words, table_in, Octets, Valid};
ghost use Rattle.owner.specs.Given.{Given};

use layout::ESI;
use refusals::Refusal;

// Writes an identifier of ten octets into its words.
pub fn put_identifier(t: &mut [u32], esi: &[u8])
    requires { (length t.old ≡ 388) × (length esi.now ≡ 10) }
    ensures words { t.new ≡ take 385 t.old ++ identifier_words esi.now }
    ensures octets { Octets esi.now }
{
    t[ESI] = octet_words::low_four(esi, 0);
    t[ESI + 1] = octet_words::low_four(esi, 4);
    t[ESI + 2] = octet_words::low_two(esi, 8);
}

// Gives the words of an empty table, all zeros, to an identifier. For a reserved one, or one that is not ten octets, 4, and the zeros stay: the table of the all-zero
// identifier.
pub fn give(t: &mut [u32], esi: &[u8]) -> Result<(), Refusal>
    requires { t.old ≡ replicate 388 0 }
    ensures { Given esi.now (number_of result) t.new }
{
    if esi::is_reserved(esi) {
        return Err(Refusal::EsiReserved);
    }
    put_identifier(t, esi);
    Ok(())
}

// The identifier that a table belongs to.
pub fn identifier(t: &[u32]) -> [u8; 10]
    requires { Valid t.now }
    ensures { result ≡ (table_in t.now).esi }
{
    let a = octet_words::of_low(t[ESI]);
    let b = octet_words::of_low(t[ESI + 1]);
    let c = octet_words::of_low(t[ESI + 2]);
    [a[0], a[1], a[2], a[3], b[0], b[1], b[2], b[3], c[0], c[1]]
}

// Whether a table belongs to an identifier of ten octets.
pub fn same_identifier(t: &[u32], esi: &[u8]) -> bool
    requires { Valid t.now × (length esi.now ≡ 10) }
    ensures { result ≡ same_numbers (table_in t.now).esi esi.now }
{
    if t[ESI] != octet_words::low_four(esi, 0) {
        return false;
    }
    if t[ESI + 1] != octet_words::low_four(esi, 4) {
        return false;
    }
    t[ESI + 2] == octet_words::low_two(esi, 8)
}
