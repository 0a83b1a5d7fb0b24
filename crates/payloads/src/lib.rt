// The addresses in the payload of a bench record: one for a withdrawal, and a run of them for a query, put as the rows of a ready list.
#![tactic(auto)]

ghost use Rattle.std.specs.Prelude.{◌≡◌, [], ◌∷◌, ◌+◌, ◌*◌, ◌/◌, ◌≤◌, length, get_or, take, drop};
ghost use Rattle.octets.specs.Octets.{number_of};
ghost use Rattle.rows.specs.Rows.{flat};
ghost use Rattle.address.specs.Address.{address_row};
ghost use Rattle.payloads.specs.Payloads.{size_of, address_of, addresses_in};

use address::{Address, Family};

// How many octets an address has in a record.
pub fn size(v6: bool) -> usize
    ensures { result ≡ size_of v6 }
{
    if v6 {
        return 16;
    }
    4
}

// The number that four octets make, from an offset on.
pub fn word_at(s: &[u8], at: usize) -> u32
    requires { at + 4 ≤ length s.now }
    ensures { result ≡ number_of (get_or s.now at 0 ∷ get_or s.now (at + 1) 0 ∷ get_or s.now (at + 2) 0 ∷ get_or s.now (at + 3) 0 ∷ []) }
{
    octets::u32_of(s[at], s[at + 1], s[at + 2], s[at + 3])
}

// The address at an offset.
pub fn address_at(s: &[u8], at: usize, v6: bool) -> Address
    requires { at + size_of v6 ≤ length s.now }
    ensures { address_row result ≡ address_of v6 (take (size_of v6) (drop at s.now)) }
{
    if v6 {
        let w0 = word_at(s, at);
        let w1 = word_at(s, at + 4);
        let w2 = word_at(s, at + 8);
        let w3 = word_at(s, at + 12);
        return Address {
            family: Family::V6,
            w0,
            w1,
            w2,
            w3,
        };
    }
    let w = word_at(s, at);
    Address {
        family: Family::V4,
        w0: w,
        w1: 0,
        w2: 0,
        w3: 0,
    }
}

// Puts the addresses that a run of octets says as rows at the front of lent words.
pub fn put_rows(ready: &mut [u32], s: &[u8], v6: bool)
    requires { (length ready.old ≡ 320) × (length s.now ≤ 255) }
    ensures { take (length s.now / size_of v6 * 5) ready.new ≡ flat (addresses_in v6 s.now) }
{
    let each = size(v6);
    let n = s.len() / each;
    for i in 0..n {
        let a = address_at(s, i * each, v6);
        let row = address::row(a);
        gaps::insert(ready, i, i, &row);
    }
}
