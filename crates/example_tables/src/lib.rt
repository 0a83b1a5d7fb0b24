// The tables of the programs that run outside values, all of one segment: router n has the address 10.0.0.n. Each is a segment's state, with none set.
#![tactic(auto)]

ghost use Rattle.std.specs.Prelude.{◌≡◌};
ghost use Rattle.refusals.specs.Numbers.{number_at};
ghost use Rattle.segment_state.specs.State.{ValidSegment};

use address::{Address, Family};
use refusals::RefusalAt;
use segment::WORDS;

// 10.0.0.0
const NETWORK: u32 = 0x0A000000;

// The segment of all examples.
fn identifier() -> [u8; 10] {
    [0x00, 0x11, 0x22, 0x33, 0x44, 0x55, 0x66, 0x77, 0x88, 0x99]
}

// The address of router n.
pub fn router(n: u8) -> Address {
    Address {
        family: Family::V4,
        w0: NETWORK + n as u32,
        w1: 0,
        w2: 0,
        w3: 0,
    }
}

// A table of one segment.
#[derive(Clone, Copy)]
pub struct Table {
    pub words: [u32; WORDS],
}

// What an announcement answers, and the table after it.
#[derive(Clone, Copy)]
pub struct Change {
    pub answer: Result<(), RefusalAt>,
    pub table: Table,
}

// An empty table.
pub fn empty_table() -> Table
    ensures { ValidSegment result.words }
{
    let esi = identifier();
    let made = segment::fresh(&esi);
    let words = made.state;
    Table { words: words }
}

// The route of router n.
pub fn route_of(n: u8) -> [u8; 25] {
    let esi = identifier();
    let distinguisher = [0u8; 8];
    let mut octets = [0u8; 25];
    let _ = route_fields::write(&mut octets, &distinguisher, &esi, router(n));
    octets
}

// Router n announces a preference and a DP bit under an algorithm.
pub fn announce(t: Table, n: u8, algorithm: u8, preference: u16, dp: bool) -> Change
    requires { ValidSegment t.words }
    ensures { ValidSegment result.table.words }
{
    let octets = route_of(n);
    let mut community = [0u8; 8];
    let _ = community::write(&mut community, algorithm, false, dp, preference);
    let mut words = t.words;
    let answer = segment::announce(&mut words, &octets, &community);
    Change {
        answer,
        table: Table { words: words },
    }
}

// The number of an announcement's answer: 0 where it is not refused.
pub fn number(c: Change) -> u64
    ensures { result ≡ number_at c.answer }
{
    match c.answer {
        Ok(()) => 0,
        Err(told) => told.refusal.number() as u64,
    }
}

// The table after router n announced; a refusal leaves it as it was.
pub fn with(t: Table, n: u8, algorithm: u8, preference: u16, dp: bool) -> Table
    requires { ValidSegment t.words }
    ensures { ValidSegment result.words }
{
    let change = announce(t, n, algorithm, preference, dp);
    change.table
}

// The table without router n.
pub fn without(t: Table, n: u8) -> Table
    requires { ValidSegment t.words }
    ensures { ValidSegment result.words }
{
    let mut words = t.words;
    let _ = segment::withdraw(&mut words, router(n));
    Table { words: words }
}

// The number of the router that is elected for a tag, with an empty ready list; 0 if none is.
pub fn elected(t: Table, tag: u32) -> u64
    requires { ValidSegment t.words }
{
    let none = [0u32; 1];
    let words = t.words;
    match segment::elect(&words, tag, &none[..0]) {
        Ok(e) => (e.address[0] % 256) as u64,
        Err(_) => 0,
    }
}

// The number that an election answers.
pub fn refusal(t: Table, tag: u32) -> u64
    requires { ValidSegment t.words }
{
    let none = [0u32; 1];
    let words = t.words;
    let answer = segment::elect(&words, tag, &none[..0]);
    refusals::number(&answer) as u64
}

// Highest-Preference,
pub const HIGHEST: u8 = 2;

// and Lowest-Preference.
pub const LOWEST: u8 = 3;

// vES2 of RFC 9785, section 4.1: 100 in PE1, 200 in PE2, 300 in PE3.
pub fn second_segment(algorithm: u8, dp: bool) -> Table
    ensures { ValidSegment result.words }
{
    let mut t = with(empty_table(), 1, algorithm, 100, dp);
    t = with(t, 2, algorithm, 200, dp);
    with(t, 3, algorithm, 300, dp)
}
