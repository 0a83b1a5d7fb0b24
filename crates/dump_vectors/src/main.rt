// The last announcement of a router in two dumps (document 02, M-111): the example of docs/bench.md, run and printed beside what it should be. A record is known by its length: 29 octets without
// a community, 37 with one.
#![tactic(auto)]

ghost use Rattle.std.specs.Prelude.{◌<◌};

use address::{Address, Family};
use std::io;
use vector_lines::show_number;

// 10.0.0.1
const ONE: u32 = 0x0A000001;

// 10.0.0.2
const TWO: u32 = 0x0A000002;

// Puts the announcement of 10.0.0.n at a position of a dump: the head of its record, which has so many octets of payload, and its route.
fn put_announcement(dump: &mut [u8], at: usize, length: u8, n: u8)
    requires { at < 100 }
{
    let head = [0xD5, 0x4F, 1, length, 4, 23];
    let route = [0, 17, 34, 51, 68, 85, 102, 119, 136, 153, 32, 10, 0, 0, n];
    octets::store(dump, at, &head);
    octets::store(dump, at + 14, &route);
}

// A plate whose text is not looked at; 10.0.0.1 announced with a community, and again without one; and withdrawn.
fn first_dump() -> [u8; 79] {
    let mut dump = [0u8; 79];
    octets::store(&mut dump, 0, &[0xD5, 0x4F, 0, 1, 63]);
    put_announcement(&mut dump, 5, 33, 1);
    octets::store(&mut dump, 34, &[6, 6, 2, 0, 0, 0, 0, 100]);
    put_announcement(&mut dump, 42, 25, 1);
    octets::store(&mut dump, 71, &[0xD5, 0x4F, 2, 4, 10, 0, 0, 1]);
    dump
}

// A plate; 10.0.0.1 and 10.0.0.2 announced, each with a community.
fn second_dump() -> [u8; 78] {
    let mut dump = [0u8; 78];
    octets::store(&mut dump, 0, &[0xD5, 0x4F, 0, 0]);
    put_announcement(&mut dump, 4, 33, 1);
    octets::store(&mut dump, 33, &[6, 6, 2, 0, 0, 0, 0, 200]);
    put_announcement(&mut dump, 41, 33, 2);
    octets::store(&mut dump, 70, &[6, 6, 2, 0, 0, 0, 0, 200]);
    dump
}

// An IPv4 address.
fn ipv4(word: u32) -> Address {
    Address {
        family: Family::V4,
        w0: word,
        w1: 0,
        w2: 0,
        w3: 0,
    }
}

// Prints the number and the length of the part, beside what they should be.
fn show<'a>(
    rt: &impl Print,
    name: &[u8],
    first: &'a [u8],
    second: &'a [u8],
    address: Address,
    wanted: u64,
    length: u64,
) -> io::Result<()> {
    let (number, octets) = match dumps::last_announcement(first, second, address) {
        Ok(part) => (0, part.len() as u64),
        Err(refusal) => (refusal.number() as u64, 0),
    };
    show_number(rt, name, number, wanted)?;
    show_number(rt, b"  its octets", octets, length)
}

// Asks both dumps for the IPv4 address of a word.
fn ask(rt: &impl Print, name: &[u8], word: u32, wanted: u64, length: u64) -> io::Result<()> {
    let first = first_dump();
    let second = second_dump();
    show(rt, name, &first, &second, ipv4(word), wanted, length)
}

// The dumps the other way round.
fn ask_second_first(
    rt: &impl Print,
    name: &[u8],
    word: u32,
    wanted: u64,
    length: u64,
) -> io::Result<()> {
    let first = first_dump();
    let second = second_dump();
    show(rt, name, &second, &first, ipv4(word), wanted, length)
}

// The second dump with an octet missing at its end: the length octet of its last record says one more.
fn ask_cut(rt: &impl Print, name: &[u8], word: u32, wanted: u64, length: u64) -> io::Result<()> {
    let first = first_dump();
    let mut second = second_dump();
    second[44] = 34;
    show(rt, name, &first, &second, ipv4(word), wanted, length)
}

// An empty dump beside the second.
fn ask_empty(rt: &impl Print, name: &[u8], word: u32, wanted: u64, length: u64) -> io::Result<()> {
    let empty: [u8; 0] = [0; 0];
    let second = second_dump();
    show(rt, name, &empty, &second, ipv4(word), wanted, length)
}

fn main(rt: HostRuntime) -> io::Result<()> {
    ask(&rt, b"the last, though withdrawn", ONE, 0, 29)?;
    ask_second_first(&rt, b"the other dump first", ONE, 0, 37)?;
    ask(&rt, b"only in the second", TWO, 0, 37)?;
    ask(&rt, b"in neither", 0x0A000003, 9, 0)?;
    ask(&rt, b"address zero", 0, 6, 0)?;
    ask_cut(&rt, b"the second is cut", ONE, 16, 0)?;
    ask_empty(&rt, b"an empty dump", TWO, 0, 37)
}
