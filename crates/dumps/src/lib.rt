// The last announcement of an address in two dumps of bench records (document 02, M-111; a dump is that document's word for a run of records as it was kept). One pass over
// each dump, in which nothing is kept but places. The records are cut by `frames` and judged by `judgement`, as the bench program's are.
#![tactic(auto)]

ghost use Rattle.std.specs.Prelude.{◌≡◌, [], ◌∷◌, ◌≤◌, length, get_or, eqb};
ghost use Rattle.octets.specs.Octets.{same_numbers};
ghost use Rattle.address.specs.Address.{address_row};
ghost use Rattle.route.specs.Route.{total_of, route_address};
ghost use Rattle.dumps.specs.Dumps.{route_in, announces, last_in, place_of};
ghost use Rattle.dumps.specs.Reads.{record_read, read_at};
ghost use Rattle.dumps.specs.Answers.{HandedBack};
ghost use Rattle.refusals.specs.Refusals.{bad_record};

use address::{Address, Family};
use frames::Frame;
use judgement::Judged;
use refusals::Refusal;

// Where a record of a dump stands: its octets, mark and length included, are `len` from `start` on.
#[derive(Clone, Copy)]
struct Part {
    start: usize,
    len: usize,
}

// What stands at a position of a dump: its end, a record that breaks the rules, or a good one, passed over or counted, with the position after it.
#[derive(Clone, Copy)]
enum Read {
    End,
    Broken,
    Passed(usize),
    Counted(usize),
}

// Whether the originator in the payload of an announcement is the IPv4 address of a word. Routers of one site differ in their last octets, so this one is looked at first.
fn names_ipv4(payload: &[u8], word: u32) -> bool
    requires { total_of (get_or payload.now 20 0) ≤ length payload.now }
    ensures { result ≡ same_numbers (route_address (route_in payload.now)) (4 ∷ word ∷ 0 ∷ 0 ∷ 0 ∷ []) }
{
    if payload[20] == 128 {
        return false;
    }
    if payload[24] != (word % 256) as u8 {
        return false;
    }
    payloads::word_at(payload, 21) == word
}

// Whether it is the IPv6 address of the words of `a`.
fn names_ipv6(payload: &[u8], a: Address) -> bool
    requires { total_of (get_or payload.now 20 0) ≤ length payload.now }
    ensures { result ≡ same_numbers (route_address (route_in payload.now)) (6 ∷ a.w0 ∷ a.w1 ∷ a.w2 ∷ a.w3 ∷ []) }
{
    if payload[20] != 128 {
        return false;
    }
    if payloads::word_at(payload, 33) != a.w3 {
        return false;
    }
    if payloads::word_at(payload, 29) != a.w2 {
        return false;
    }
    if payloads::word_at(payload, 25) != a.w1 {
        return false;
    }
    payloads::word_at(payload, 21) == a.w0
}

// Whether it is an address of either family.
fn names(payload: &[u8], address: Address) -> bool
    requires { total_of (get_or payload.now 20 0) ≤ length payload.now }
    ensures { result ≡ same_numbers (route_address (route_in payload.now)) (address_row address) }
{
    let family = address.family;
    match family {
        Family::V4 => names_ipv4(payload, address.w0),
        Family::V6 => names_ipv6(payload, address),
    }
}

// Whether the payload of an announcement announces an address. The originator is compared first, so that only routes that name the address are checked.
#[tactic(auto, using(crate::proofs::Counted::compared))]
fn is_of(payload: &[u8], address: Address) -> bool
    requires { total_of (get_or payload.now 20 0) ≤ length payload.now }
    ensures { result ≡ announces (address_row address) payload.now }
{
    if !names(payload, address) {
        return false;
    }
    let n = route::total(payload[20]);
    route::check(&payload[..n]).is_ok()
}

// What a whole record is to a search for an address, the first of the dump where `first` says so; `after` is the position after it.
fn read_record(first: bool, kind: u8, payload: &[u8], address: Address, after: usize) -> Read
    ensures { result ≡ record_read (address_row address) first kind payload.now after }
{
    let judged = judgement::judge(first, kind, payload);
    match judged {
        Judged::Text => Read::Passed(after),
        Judged::Announcement => {
            if is_of(payload, address) {
                return Read::Counted(after);
            }
            Read::Passed(after)
        }
        Judged::Withdrawal(_) => Read::Passed(after),
        Judged::Query(_) => Read::Passed(after),
        Judged::Bad => Read::Broken,
    }
}

// What stands at a position of a dump.
fn read_at(s: &[u8], at: usize, address: Address) -> Read
    ensures { result ≡ read_at (address_row address) s.now at }
{
    let frame = frames::frame_at(s, at);
    match frame {
        Frame::Nothing => Read::End,
        Frame::Bad => Read::Broken,
        Frame::Cut => Read::Broken,
        Frame::Whole { kind, start, len } => {
            let after = start + len;
            read_record(at == 0, kind, &s[start..after], address, after)
        }
    }
}

// Where the last record of a dump stands that is an announcement and counts for an address: 16 if the dump breaks the record rules, 9 if there is no such record.
fn last(s: &[u8], address: Address) -> Result<Part, Refusal>
    ensures { place_of result ≡ last_in (address_row address) s.now }
{
    let mut found = Err(Refusal::NotPresent);
    let mut at: usize = 0;
    loop {
        let read = read_at(s, at, address);
        match read {
            Read::End => return found,
            Read::Broken => return Err(Refusal::BadRecord),
            Read::Passed(after) => at = after,
            Read::Counted(after) => {
                found = Ok(Part {
                    start: at,
                    len: after - at,
                });
                at = after;
            }
        }
    }
}

// Whether a search ended at a record that breaks the rules.
fn is_broken(found: &Result<Part, Refusal>) -> bool
    ensures { result ≡ eqb (place_of found.now).number bad_record }
{
    matches!(found, Err(Refusal::BadRecord))
}

// Hands back the octets of the last announcement record of an address, mark and length included, from the first dump or, if there is none there, from the second: a part of that
// dump, at its very place. It is refused for address zero, with 6; where either dump breaks the record rules, with 16; where neither has such a record, with 9. Later withdrawals hide
// nothing; an announcement counts exactly if the route reader accepts its route; no text is read.
#[tactic(auto, using(crate::proofs::Answers::refusal_numbers))]
pub fn last_announcement<'a>(
    first: &'a [u8],
    second: &'a [u8],
    address: Address,
) -> Result<&'a [u8], Refusal>
    ensures { HandedBack (address_row address) first.entry second.entry result }
{
    if address::is_zero(address) {
        return Err(Refusal::AddressZero);
    }
    let one = last(first, address);
    let two = last(second, address);
    if is_broken(&one) {
        return Err(Refusal::BadRecord);
    }
    if is_broken(&two) {
        return Err(Refusal::BadRecord);
    }
    if let Ok(part) = one {
        return Ok(&first[part.start..part.start + part.len]);
    }
    if let Ok(part) = two {
        return Ok(&second[part.start..part.start + part.len]);
    }
    Err(Refusal::NotPresent)
}
