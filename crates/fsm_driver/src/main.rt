// Drives machines by items from standard input, six octets each: a kind, an event's number, and four octets of a number, high octet first. Kind 0 hands in
// the event with the number as its clock reading; kind 1 hands in the clock reading alone; any other kind makes a machine with the number as its wait, and
// the items that follow are its own. The first machine is the one that a wait of 0 is refused with. After each item ten octets are written: the answer's
// number, the state's number, the wait and the start, four octets each. The run ends with the input; a cut item is left out. A read
// or a write that fails ends it with its error.
#![tactic(auto)]

ghost use Rattle.std.specs.Prelude.{◌≡◌};
ghost use Rattle.fsm_numbers.specs.Numbers.{driven_of};
ghost use Rattle.fsm_driver.specs.Items.{item_answer, item_octets};

use fsm::Machine;
use std::io;
use std::io::{ErrorKind, Read};

// The answer to an event that is handed in as a number: a refusal leaves the machine as it was.
fn event_answer(m: Machine, event: u8, now: u32) -> (u8, Machine)
    ensures { record { number = result.0; machine = result.1 } ≡ driven_of m event now }
{
    let answer = fsm_numbers::drive_number(m, event, now);
    (refusals::number(&answer), answer.unwrap_or(m))
}

// The answer to an item: its number, and the machine after it.
#[tactic(auto, unfolding(crate::specs::Items::item_answer))]
fn item_answer(m: Machine, kind: u8, event: u8, number: u32) -> (u8, Machine)
    ensures { record { number = result.0; machine = result.1 } ≡ item_answer m kind event number }
{
    match kind {
        0 => event_answer(m, event, number),
        1 => (0, fsm::tick(m, number)),
        _ => {
            let made = fsm::make(number);
            (refusals::number(&made.answer), made.machine)
        }
    }
}

// The ten octets that are written for an answer.
#[tactic(auto, unfolding(octets::specs::Octets::octets_of, crate::specs::Items::item_octets))]
fn octets_of(number: u8, m: Machine) -> [u8; 10]
    ensures { result ≡ item_octets (record { number = number; machine = m }) }
{
    let w = octets::of_u32(m.wait);
    let t = octets::of_u32(m.since);
    [
        number,
        m.state.number(),
        w[0],
        w[1],
        w[2],
        w[3],
        t[0],
        t[1],
        t[2],
        t[3],
    ]
}

// What becomes of an item: the machine after it, and the ten octets that are written.
fn taken(m: Machine, kind: u8, event: u8, number: u32) -> (Machine, [u8; 10])
    ensures machine { result.0 ≡ (item_answer m kind event number).machine }
    ensures octets { result.1 ≡ item_octets (item_answer m kind event number) }
{
    let (told, next) = item_answer(m, kind, event, number);
    (next, octets_of(told, next))
}

// Reads an item, writes what becomes of the machine, and answers it; none where the input ends before the item does.
fn take_item(rt: &impl Print, input: &mut impl Read, m: Machine) -> io::Result<Option<Machine>> {
    let mut item = [0u8; 6];
    if let Err(e) = input.read_exact(&mut item) {
        return if e.kind() == ErrorKind::UnexpectedEof {
            Ok(None)
        } else {
            Err(e)
        };
    }
    let number = octets::u32_of(item[2], item[3], item[4], item[5]);
    let (next, octets) = taken(m, item[0], item[1], number);
    rt.write_all(&octets)?;
    Ok(Some(next))
}

// A proved loop has to end, and nothing says that the input does: the loop counts its turns, up to a number that no run reaches.
fn main(rt: HostRuntime) -> io::Result<()> {
    let mut input = rt.reader();
    let mut m = fsm::make(0).machine;
    for _ in 0..u64::MAX {
        match take_item(&rt, &mut input, m)? {
            Some(next) => m = next,
            None => return Ok(()),
        }
    }
    Ok(())
}
