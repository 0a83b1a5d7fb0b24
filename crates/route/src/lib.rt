// The Ethernet Segment route of RFC 7432: checking one. Reading and writing its fields is `route_fields`.
#![tactic(auto)]

ghost use Rattle.std.specs.Prelude.{◌≡◌, ◌≤◌, true, ◌||◌, length, get_or, eqb};
ghost use Rattle.route.specs.Route.{
  total_of,
  route_total,
  ipv4_in,
  ipv6_in,
  route_originator,
  Fault,
  checked_number,
  checked_offset,
  checked_address,
  route_number,
  route_offset,
  route_value,
  route_checked,
  told_check,
};

use address::{Address, Family};
use refusals::{Refusal, RefusalAt};

// How many octets a route has whose address has so many bits: 37 for 128, else 25.
#[tactic(auto, unfolding(crate::specs::Route::total_of))]
pub fn total(bits: u8) -> usize
    ensures { result ≡ total_of bits }
{
    if bits == 128 {
        return 37;
    }
    25
}

// The IPv4 address in a route.
#[tactic(auto, unfolding(crate::specs::Route::ipv4_in))]
fn ipv4(s: &[u8]) -> Address
    requires { 25 ≤ length s.now }
    ensures { result ≡ ipv4_in s.now }
{
    let w0 = octet_words::high_four(s, 21);
    Address {
        family: Family::V4,
        w0: w0,
        w1: 0,
        w2: 0,
        w3: 0,
    }
}

// The IPv6 address in a route.
#[tactic(auto, unfolding(crate::specs::Route::ipv6_in))]
fn ipv6(s: &[u8]) -> Address
    requires { 37 ≤ length s.now }
    ensures { result ≡ ipv6_in s.now }
{
    let w0 = octet_words::high_four(s, 21);
    let w1 = octet_words::high_four(s, 25);
    let w2 = octet_words::high_four(s, 29);
    let w3 = octet_words::high_four(s, 33);
    Address {
        family: Family::V6,
        w0: w0,
        w1: w1,
        w2: w2,
        w3: w3,
    }
}

// The originator's address in a route of the right length.
#[tactic(auto, using(crate::proofs::Laws::originators))]
fn originator(s: &[u8]) -> Address
    requires { length s.now ≡ route_total s.now }
    ensures { result ≡ route_originator s.now }
{
    if s.len() == 37 {
        return ipv6(s);
    }
    ipv4(s)
}

// The checks that go by the family, for a route of type 4 whose address length is right: not 25 (37) octets or length octet not 23 (35), 1; identifier reserved, 4;
// address zero, 6. `wanted` is how many octets it should have.
#[tactic(auto, using(crate::proofs::Framed::checks_told))]
fn check_framed(s: &[u8], wanted: usize) -> Result<Address, RefusalAt>
    requires { (21 ≤ length s.now) × (get_or s.now 0 0 ≡ 4) × ((eqb (get_or s.now 20 0) 32 || eqb (get_or s.now 20 0) 128) ≡ true) × (wanted ≡ route_total s.now) }
    ensures { told_check result ≡ route_checked s.now }
{
    if s.len() != wanted {
        return Err(RefusalAt {
            refusal: Refusal::WrongLength,
            offset: s.len(),
        });
    }
    if s[1] as usize != wanted - 2 {
        return Err(RefusalAt {
            refusal: Refusal::WrongLength,
            offset: 1,
        });
    }
    if esi::is_reserved(&s[10..20]) {
        return Err(RefusalAt {
            refusal: Refusal::EsiReserved,
            offset: 10,
        });
    }
    let a = originator(s);
    if address::is_zero(a) {
        return Err(RefusalAt {
            refusal: Refusal::AddressZero,
            offset: 21,
        });
    }
    Ok(a)
}

// Checks a route, in document 01's order: fewer than 21 octets, 1; type not 4, 2; address length neither 32 nor 128, 3; not 25 (37) octets or length octet
// not 23 (35), 1; identifier reserved, 4; address zero, 6. Otherwise the answer is the originator's address. With a refusal comes the offset of what is
// wrong: for 1 the number of octets where that is wrong, else the length octet; 0 for 2, 20 for 3, 10 for 4, 21 for 6. By the three definitions of
// what each case says, the answer's number, offset and address are document 01's: with a refusal there is no address.
pub fn check(s: &[u8]) -> Result<Address, RefusalAt>
    ensures value { told_check result ≡ route_checked s.now }
    ensures numbered { checked_number (told_check result) ≡ route_number s.now }
    ensures placed { checked_offset (told_check result) ≡ route_offset s.now }
    ensures valued { checked_address (told_check result) ≡ route_value s.now }
    ensures fault { Fault s.now (checked_number (told_check result)) (checked_offset (told_check result)) }
{
    if s.len() < 21 {
        return Err(RefusalAt {
            refusal: Refusal::WrongLength,
            offset: s.len(),
        });
    }
    if s[0] != 4 {
        return Err(RefusalAt {
            refusal: Refusal::WrongType,
            offset: 0,
        });
    }
    match s[20] {
        32 => check_framed(s, 25),
        128 => check_framed(s, 37),
        _ => Err(RefusalAt {
            refusal: Refusal::WrongAddressLength,
            offset: 20,
        }),
    }
}
