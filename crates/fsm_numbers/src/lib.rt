// The machine of `fsm` driven by events that are handed in as numbers.
#![tactic(auto)]

ghost use Rattle.std.specs.Prelude.{◌≡◌};
ghost use Rattle.fsm.specs.Machine.{answered};
ghost use Rattle.fsm_numbers.specs.Numbers.{event_of, driven_of};

use fsm::{Event, Machine};
use refusals::Refusal;

// The event of a number, if it has one.
#[tactic(auto, unfolding(crate::specs::Numbers::event_of))]
fn event_of(n: u8) -> Option<Event>
    ensures { result ≡ event_of n }
{
    match n {
        0 => Some(Event::EsUp),
        1 => Some(Event::EsDown),
        2 => Some(Event::VlanChange),
        3 => Some(Event::RcvdEs),
        4 => Some(Event::LostEs),
        5 => Some(Event::DfTimer),
        6 => Some(Event::Calculated),
        _ => None,
    }
}

// As `fsm::drive`, with the event's number: a number above 6 is refused with 23, and the answer then stands for the machine as it was.
#[tactic(auto, unfolding(crate::specs::Numbers::driven_of, crate::specs::Numbers::numbered_answer))]
pub fn drive_number(m: Machine, event: u8, now: u32) -> Result<Machine, Refusal>
    ensures { answered m result ≡ driven_of m event now }
{
    let e = event_of(event).ok_or(Refusal::EventUnknown)?;
    Ok(fsm::drive(m, e, now))
}
