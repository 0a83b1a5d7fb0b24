// The fields of an Ethernet Segment route (RFC 7432): reading them, and writing a route of them.
#![tactic(auto)]

ghost use Rattle.std.specs.Prelude.{◌≡◌, length, take};
ghost use Rattle.address.specs.Address.{address_row, family_of, octets_of_address};
ghost use Rattle.route.specs.Route.{total_of, Fault};
ghost use Rattle.route_fields.specs.Fields.{bits_of, read_as, read_route, told_fields, write_route_number, route_written};
ghost use Rattle.refusals.specs.Numbers.{number_of};

use address::{Address, Family};
use refusals::{Refusal, RefusalAt};

// The fields of a route. An IPv4 address is in the first four octets, then zeros.
#[derive(Clone, Copy)]
pub struct RouteRead {
    pub distinguisher: [u8; 8],
    pub esi: [u8; 10],
    pub family: u8,
    pub address: [u8; 16],
}

// Reads a route: its distinguisher, identifier and originator, or the check's refusal and offset.
#[tactic(auto, using(crate::proofs::Laws::reading))]
pub fn read(s: &[u8]) -> Result<RouteRead, RefusalAt>
    ensures value { told_fields result ≡ read_route s.now }
    ensures fault { Fault s.now (told_fields result).number (told_fields result).offset }
{
    let a = route::check(s)?;
    let mut d = [0u8; 8];
    let mut e = [0u8; 10];
    octets::store(&mut d, 0, &s[2..10]);
    octets::store(&mut e, 0, &s[10..20]);
    let row = address::row(a);
    let o = address::octets(row[1], row[2], row[3], row[4]);
    Ok(RouteRead {
        distinguisher: d,
        esi: e,
        family: row[0] as u8,
        address: o,
    })
}

// All that the reader tells, by numbers: 0, offset 0 and the fields, or a refusal number, its offset and zeros. An IPv4 address is in the first four octets, then zeros.
#[derive(Clone, Copy)]
pub struct RouteAnswer {
    pub number: u8,
    pub offset: usize,
    pub distinguisher: [u8; 8],
    pub esi: [u8; 10],
    pub family: u8,
    pub address: [u8; 16],
}

// Reads a route as `read` does, and tells it by numbers: with a refusal all is zero but the number and the offset.
pub fn answer(s: &[u8]) -> RouteAnswer
    ensures value { result ≡ read_route s.now }
    ensures fault { Fault s.now result.number result.offset }
{
    match read(s) {
        Ok(route) => {
            let distinguisher = route.distinguisher;
            let esi = route.esi;
            let address = route.address;
            RouteAnswer {
                number: 0,
                offset: 0,
                distinguisher,
                esi,
                family: route.family,
                address,
            }
        }
        Err(refused) => RouteAnswer {
            number: refused.refusal.number(),
            offset: refused.offset,
            distinguisher: [0; 8],
            esi: [0; 10],
            family: 0,
            address: [0; 16],
        },
    }
}

// How many bits an address has in a route.
fn bits(a: Address) -> u8
    ensures { result ≡ bits_of (address_row a) }
{
    match a.family {
        Family::V4 => 32,
        Family::V6 => 128,
    }
}

// Writes a route into the first 25 octets of a buffer, or 37 for an IPv6 address: 1 for a distinguisher that is not eight octets, 4 for a reserved
// identifier, 6 for address zero, 14 for a buffer of fewer octets; these leave the buffer as it is. Reading what was written gives the three back.
pub fn write(
    buf: &mut [u8],
    distinguisher: &[u8],
    esi: &[u8],
    address: Address,
) -> Result<(), Refusal>
    ensures number { number_of result ≡ write_route_number distinguisher.now esi.now (address_row address) (length buf.old) }
    ensures written { buf.new ≡ route_written buf.old distinguisher.now esi.now (address_row address) }
    ensures reads { number_of result ≡ 0 → read_route (take (total_of (bits_of (address_row address))) buf.new) ≡ read_as 0 0 distinguisher.now esi.now (family_of (address_row address)) (octets_of_address (address_row address)) }
{
    if distinguisher.len() != 8 {
        return Err(Refusal::WrongLength);
    }
    if esi::is_reserved(esi) {
        return Err(Refusal::EsiReserved);
    }
    if address::is_zero(address) {
        return Err(Refusal::AddressZero);
    }
    let length = bits(address);
    let wanted = route::total(length);
    if buf.len() < wanted {
        return Err(Refusal::BufferShort);
    }
    let start = [4, (wanted - 2) as u8];
    let bits = [length];
    let a = address::octets(address.w0, address.w1, address.w2, address.w3);
    octets::store(buf, 0, &start);
    octets::store(buf, 2, distinguisher);
    octets::store(buf, 10, esi);
    octets::store(buf, 20, &bits);
    octets::store(buf, 21, &a[0..wanted - 21]);
    Ok(())
}
