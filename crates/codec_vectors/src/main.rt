// Runs the readers and the digest on outside values and prints each beside what it should be: the offsets of document 02's M-103, where a text or a
// route is wrong, and the check value of CRC-32.
#![tactic(auto)]

use example_tables::{empty_table, route_of};
use refusals::RefusalAt;
use std::io;
use vector_lines::{show_hex, show_offset};

// The house rule for CRC-32 names its check value.
fn digests(rt: &impl Print) -> io::Result<()> {
    let text = b"123456789";
    show_hex(rt, b"CRC-32 of 123456789", hrw::crc32(text), 0xCBF43926)
}

// The number and the offset of a reader's answer: both 0 where it is not refused.
fn told<T>(read: &Result<T, RefusalAt>) -> (u64, u64) {
    match read {
        Ok(_) => (0, 0),
        Err(refused) => (refused.refusal.number() as u64, refused.offset as u64),
    }
}

// What reading a text tells.
fn show_text(
    rt: &impl Print,
    name: &[u8],
    text: &[u8],
    wanted: u64,
    wanted_offset: u64,
) -> io::Result<()> {
    let (number, offset) = told(&esi::read_text(text));
    show_offset(rt, name, number, offset, wanted, wanted_offset)
}

// Texts with wrong characters: the first is told.
fn text_characters(rt: &impl Print) -> io::Result<()> {
    show_text(
        rt,
        b"the letter O at offset 1",
        b"0O:11:22:33:44:55:66:77:88:99",
        13,
        1,
    )?;
    show_text(
        rt,
        b"wrong characters at places 2 and 28",
        b"00;11:22:33:44:55:66:77:88:9g",
        13,
        2,
    )
}

// Texts that are too short and too long.
fn text_lengths(rt: &impl Print) -> io::Result<()> {
    show_text(
        rt,
        b"a text of 28 characters",
        b"00:11:22:33:44:55:66:77:88:9",
        13,
        28,
    )?;
    show_text(
        rt,
        b"a text of 30 characters",
        b"00:11:22:33:44:55:66:77:88:99:",
        13,
        29,
    )
}

// Texts without a fault.
fn text_without_fault(rt: &impl Print) -> io::Result<()> {
    show_text(
        rt,
        b"a reserved identifier",
        b"ff:FF:ff:FF:ff:FF:ff:FF:ff:FF",
        4,
        0,
    )?;
    show_text(rt, b"a good text", b"00:11:22:33:44:55:66:77:88:99", 0, 0)
}

// What reading a route tells.
fn show_route(
    rt: &impl Print,
    name: &[u8],
    octets: &[u8],
    wanted: u64,
    wanted_offset: u64,
) -> io::Result<()> {
    let read = route_fields::answer(octets);
    show_offset(
        rt,
        name,
        read.number as u64,
        read.offset as u64,
        wanted,
        wanted_offset,
    )
}

// Runs of octets with a wrong total: 20 of them, and 24 with length octet 22, where the total is told.
fn route_totals(rt: &impl Print) -> io::Result<()> {
    let twenty = [4u8; 20];
    show_route(rt, b"a route of 20 octets", &twenty, 1, 20)?;
    let mut twenty_four = [0u8; 24];
    twenty_four[0] = 4;
    twenty_four[1] = 22;
    twenty_four[20] = 32;
    show_route(rt, b"length octet 22 and 24 octets", &twenty_four, 1, 24)
}

// A good route, and one with length octet 22.
fn route_length_octet(rt: &impl Print) -> io::Result<()> {
    let mut octets = route_of(1);
    show_route(rt, b"a good route", &octets, 0, 0)?;
    octets[1] = 22;
    show_route(rt, b"length octet 22", &octets, 1, 1)
}

// A route of type 5.
fn route_type(rt: &impl Print) -> io::Result<()> {
    let mut octets = route_of(1);
    octets[0] = 5;
    show_route(rt, b"route type 5", &octets, 2, 0)
}

// A route with address length 31; its announcement passes the offset on.
fn route_bits(rt: &impl Print) -> io::Result<()> {
    let mut octets = route_of(1);
    octets[20] = 31;
    show_route(rt, b"address length 31", &octets, 3, 20)?;
    let t = empty_table();
    let mut words = t.words;
    let (number, offset) = told(&segment::announce(&mut words, &octets, b""));
    show_offset(rt, b"address length 31, announced", number, offset, 3, 20)
}

fn main(rt: HostRuntime) -> io::Result<()> {
    digests(&rt)?;
    text_characters(&rt)?;
    text_lengths(&rt)?;
    text_without_fault(&rt)?;
    route_totals(&rt)?;
    route_length_octet(&rt)?;
    route_type(&rt)?;
    route_bits(&rt)
}
