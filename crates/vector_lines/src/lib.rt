// Lines of the programs that run outside values: each prints a value beside what it should be, and whether it is right. A function that prints takes what it
// prints to and has nothing to promise; a print that fails is answered as its error, and nothing more of the line is printed.
#![tactic(auto)]

use std::io;

// The last part of a line.
fn verdict(rt: &impl Print, is_right: bool) -> io::Result<()> {
    if is_right {
        rt.println(": right")
    } else {
        rt.println(": WRONG")
    }
}

// Prints a value beside what it should be.
pub fn show_number(rt: &impl Print, name: &[u8], value: u64, wanted: u64) -> io::Result<()> {
    rt.write_all(name)?;
    print!(rt; ": {value}, should be {wanted}")?;
    verdict(rt, value == wanted)
}

// The same in hexadecimal, eight digits.
pub fn show_hex(rt: &impl Print, name: &[u8], value: u32, wanted: u32) -> io::Result<()> {
    rt.write_all(name)?;
    print!(rt; ": {value:08x}, should be {wanted:08x}")?;
    verdict(rt, value == wanted)
}

// A preference and a DP bit beside what they should be.
pub fn show_pair(
    rt: &impl Print,
    name: &[u8],
    preference: u16,
    dp: bool,
    wanted: u16,
    wanted_dp: bool,
) -> io::Result<()> {
    let bit = dp as u8;
    let wanted_bit = wanted_dp as u8;
    rt.write_all(name)?;
    print!(rt; ": ({preference}, {bit}), should be ({wanted}, {wanted_bit})")?;
    verdict(rt, preference == wanted && dp == wanted_dp)
}

// A refusal number and its offset beside what they should be.
pub fn show_offset(
    rt: &impl Print,
    name: &[u8],
    number: u64,
    offset: u64,
    wanted: u64,
    wanted_offset: u64,
) -> io::Result<()> {
    rt.write_all(name)?;
    print!(rt; ": {number} {offset}, should be {wanted} {wanted_offset}")?;
    verdict(rt, number == wanted && offset == wanted_offset)
}
