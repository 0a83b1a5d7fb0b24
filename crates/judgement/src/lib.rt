// The rules of a record, for the bench program and for dumps of its records (document 01, "The bench program"; document 02, M-111): what a record of a run is, judged by its
// place, its kind and its payload, and not carried out.
#![tactic(auto)]

ghost use Rattle.std.specs.Prelude.{◌≡◌, true, false};
ghost use Rattle.judgement.specs.Judgement.{announcement_of, withdrawal_of, query_of, first_of, later_of, judged_of};

// How many octets the route of an IPv4 router has, and none has fewer,
const LEAST_ROUTE: usize = 25;

// and that of an IPv6 router, and none has more.
const MOST_ROUTE: usize = 37;

// What octet 20 of a route says of an IPv6 router.
const IPV6_BITS: u8 = 128;

// What a record is: the text of an identifier (a plate, in document 01), an announcement, a withdrawal, a query, or bad. A withdrawal and a query say whether their addresses
// are IPv6.
#[derive(Clone, Copy)]
pub enum Judged {
    Text,
    Announcement,
    Withdrawal(bool),
    Query(bool),
    Bad,
}

// What a record is that should be an announcement: bad where it ends before its route does.
#[tactic(auto, unfolding(crate::specs::Judgement::announcement_of, route::specs::Route::total_of))]
fn announcement(payload: &[u8]) -> Judged
    ensures { result ≡ announcement_of payload.now }
{
    if payload.len() < LEAST_ROUTE {
        return Judged::Bad;
    }
    if MOST_ROUTE <= payload.len() {
        return Judged::Announcement;
    }
    if payload[20] == IPV6_BITS {
        return Judged::Bad;
    }
    Judged::Announcement
}

// What a record is that should be a withdrawal: bad unless it is one address.
fn withdrawal(payload: &[u8], v6: bool) -> Judged
    ensures { result ≡ withdrawal_of v6 payload.now }
{
    if payload.len() != payloads::size(v6) {
        return Judged::Bad;
    }
    Judged::Withdrawal(v6)
}

// What a record is that should be a query: bad unless it is a tag and whole addresses.
#[tactic(auto, unfolding(crate::specs::Judgement::query_of, payloads::specs::Payloads::size_of))]
fn query(payload: &[u8], v6: bool) -> Judged
    ensures { result ≡ query_of v6 payload.now }
{
    if payload.len() < 4 {
        return Judged::Bad;
    }
    if (payload.len() - 4) % payloads::size(v6) != 0 {
        return Judged::Bad;
    }
    Judged::Query(v6)
}

// What the first record is, by its kind: its payload is not looked at.
#[tactic(auto, unfolding(crate::specs::Judgement::first_of))]
fn first_record(kind: u8) -> Judged
    ensures { result ≡ first_of kind }
{
    if kind != 0 {
        return Judged::Bad;
    }
    Judged::Text
}

// What a record after the first is, by its kind and its payload.
fn later_record(kind: u8, payload: &[u8]) -> Judged
    ensures { result ≡ later_of kind payload.now }
{
    match kind {
        1 => announcement(payload),
        2 => withdrawal(payload, false),
        3 => query(payload, false),
        4 => withdrawal(payload, true),
        5 => query(payload, true),
        _ => Judged::Bad,
    }
}

// What a record is, the first of a run where `first` says so.
pub fn judge(first: bool, kind: u8, payload: &[u8]) -> Judged
    ensures { result ≡ judged_of first kind payload.now }
{
    if first {
        return first_record(kind);
    }
    later_record(kind, payload)
}
