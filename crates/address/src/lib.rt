// The originator address of a route, of either family. Addresses are compared by their keys: the number that the 17 octets of an address make, the family
// before the address. An address is kept as a row of words (`rows`), and the row has the same key.
#![tactic(auto)]

ghost use Rattle.std.specs.Prelude.{◌≡◌, [], ◌∷◌};
ghost use Rattle.address.specs.Address.{is_zero, address_row, octets_in, IsAddress, SeventeenOctets};

// The family of an address. No number that names neither can be handed in.
#[derive(Clone, Copy)]
pub enum Family {
    V4,
    V6,
}

// An address: its family and sixteen octets as four words, high octet first. An IPv4 address is in the first word, and the others don't count.
#[derive(Clone, Copy)]
pub struct Address {
    pub family: Family,
    pub w0: u32,
    pub w1: u32,
    pub w2: u32,
    pub w3: u32,
}

// How many words an address has as a row: the family's number and four words.
pub const WIDTH: usize = 5;

// Whether the address is all zero, which document 01 refuses. Words add up to zero only where each of them is.
pub fn is_zero(a: Address) -> bool
    ensures { result ≡ is_zero (address_row a) }
{
    let family = a.family;
    match family {
        Family::V4 => a.w0 == 0,
        Family::V6 => (a.w0 as u64) + (a.w1 as u64) + (a.w2 as u64) + (a.w3 as u64) == 0,
    }
}

// The address as a row of words. Its key is the number of the address's 17 octets.
pub fn row(a: Address) -> [u32; WIDTH]
    ensures words { result ≡ address_row a }
    ensures address { IsAddress result }
    ensures key { SeventeenOctets result }
{
    let family = a.family;
    match family {
        Family::V4 => [4, a.w0, 0, 0, 0],
        Family::V6 => [6, a.w0, a.w1, a.w2, a.w3],
    }
}

// The octets of four words, high octet first.
pub fn octets(w0: u32, w1: u32, w2: u32, w3: u32) -> [u8; 16]
    ensures { result ≡ octets_in (w0 ∷ w1 ∷ w2 ∷ w3 ∷ []) }
{
    let a = octets::of_u32(w0);
    let b = octets::of_u32(w1);
    let c = octets::of_u32(w2);
    let d = octets::of_u32(w3);
    [
        a[0], a[1], a[2], a[3], b[0], b[1], b[2], b[3], c[0], c[1], c[2], c[3], d[0], d[1], d[2],
        d[3],
    ]
}
