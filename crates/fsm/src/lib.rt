// The DF election finite state machine (RFC 8584, section 2.1): when a router that has come up waits, when it calculates, and when it has elected.
// A machine goes in and comes back by value. Whatever list of events and clock readings follows its making, `make` promises what becomes of it.
// `fsm_numbers` takes events by their numbers.
#![tactic(auto)]

ghost use Rattle.std.specs.Prelude.{◌≡◌, ◌+◌, ◌%◌, ◌^◌, List};
ghost use Rattle.fsm.specs.Machine.{state_number, event_number, next_state, starts, waited_of, due, made_of, drive_of, tick_of};
ghost use Rattle.refusals.specs.Numbers.{number_of};
ghost use Rattle.fsm.specs.Runs.{Item, run, Claims};

use refusals::Refusal;

// The states, with their numbers.
#[derive(Clone, Copy, Debug, PartialEq, Eq)]
pub enum State {
    Init = 0,
    DfWait = 1,
    DfCalc = 2,
    DfDone = 3,
}

// The events, with their numbers.
#[derive(Clone, Copy, Debug, PartialEq, Eq)]
pub enum Event {
    EsUp = 0,
    EsDown = 1,
    VlanChange = 2,
    RcvdEs = 3,
    LostEs = 4,
    DfTimer = 5,
    Calculated = 6,
}

// The wait is in seconds; `since` is the clock reading of the ES_UP that left INIT.
#[derive(Clone, Copy, Debug, PartialEq, Eq)]
pub struct Machine {
    pub state: State,
    pub wait: u32,
    pub since: u32,
}

pub const MIN_WAIT: u32 = 1;

pub const MAX_WAIT: u32 = 600;

// What making a machine answers: whether the wait is refused, and the machine, which stands in INIT with wait 0 where it is.
#[derive(Clone, Copy, Debug, PartialEq, Eq)]
pub struct Made {
    pub answer: Result<(), Refusal>,
    pub machine: Machine,
}

// The machine that a refused wait leaves: in INIT with wait 0.
pub const INITIAL: Machine = Machine {
    state: State::Init,
    wait: 0,
    since: 0,
};

const INIT: State = State::Init;

const DF_WAIT: State = State::DfWait;

const DF_CALC: State = State::DfCalc;

const DF_DONE: State = State::DfDone;

// The next states: a row for each state, a column for each event, both in the order of their numbers.
const NEXT: [[State; 7]; 4] = [
    [DF_WAIT, INIT, INIT, INIT, INIT, INIT, INIT],
    [DF_WAIT, INIT, DF_WAIT, DF_WAIT, DF_WAIT, DF_CALC, DF_WAIT],
    [DF_CALC, INIT, DF_CALC, DF_CALC, DF_CALC, DF_CALC, DF_DONE],
    [DF_DONE, INIT, DF_CALC, DF_CALC, DF_CALC, DF_DONE, DF_DONE],
];

impl State {
    // The number of a state: INIT 0, DF_WAIT 1, DF_CALC 2, DF_DONE 3.
    pub fn number(self) -> u8
        ensures { result ≡ state_number self }
    {
        self as u8
    }
}

impl Event {
    // The number of an event: ES_UP 0, ES_DOWN 1, VLAN_CHANGE 2, RCVD_ES 3, LOST_ES 4, DF_TIMER 5, CALCULATED 6.
    fn number(self) -> usize
        ensures { result ≡ event_number self }
    {
        self as usize
    }
}

// The next state, looked up by state and event.
#[tactic(auto, using(crate::proofs::Laws::rows, crate::proofs::Laws::columns))]
fn next(s: State, e: Event) -> State
    ensures { result ≡ next_state s e }
{
    let row = s.number() as usize;
    let column = e.number();
    NEXT[row][column]
}

// The time waited: the later reading minus the earlier, modulo 2^32, as the clock runs over.
#[tactic(auto, using(crate::proofs::Laws::wrapped))]
pub fn waited(now: u32, since: u32) -> u32
    ensures answer { result ≡ waited_of now since }
    ensures difference { (result + since) % 2 ^ 32 ≡ now }
{
    std::num::wrapping_sub_u32(now, since)
}

// Whether an event starts the wait: ES_UP in INIT, and nothing else.
#[tactic(auto, unfolding(crate::specs::Machine::starts))]
fn starts_wait(s: State, e: Event) -> bool
    ensures { result ≡ starts s e }
{
    matches!((s, e), (State::Init, Event::EsUp))
}

// Whether a clock reading yields DF_TIMER: in DF_WAIT, with the time waited at least the wait.
#[tactic(auto, unfolding(crate::specs::Machine::due))]
fn is_due(m: Machine, now: u32) -> bool
    ensures { result ≡ due m now }
{
    m.state == State::DfWait && m.wait <= waited(now, m.since)
}

// A machine in INIT with a wait of 1 to 600 seconds; any other wait is refused with 17, and leaves a machine in INIT with wait 0. Whatever list of events and
// clock readings follows, the claims hold of the machine that it leaves.
#[tactic(auto, using(crate::proofs::Lists::claimed), unfolding(crate::specs::Machine::made_of))]
pub fn make(wait: u32) -> Made
    ensures answer { record { number = number_of result.answer; machine = result.machine } ≡ made_of wait }
    ensures runs { (l : List Item) → Claims result.machine (run result.machine l) }
{
    if wait < MIN_WAIT || MAX_WAIT < wait {
        return Made {
            answer: Err(Refusal::WaitOutOfRange),
            machine: INITIAL,
        };
    }
    Made {
        answer: Ok(()),
        machine: Machine { wait, ..INITIAL },
    }
}

// The machine after an event, with the clock reading handed in: the table's next state, the wait as it was. The wait runs from this reading exactly
// if the event is ES_UP and the machine stood in INIT.
#[tactic(auto, unfolding(crate::specs::Machine::drive_of))]
pub fn drive(m: Machine, e: Event, now: u32) -> Machine
    ensures { result ≡ drive_of m e now }
{
    let state = next(m.state, e);
    let since = if starts_wait(m.state, e) {
        now
    } else {
        m.since
    };
    Machine {
        state,
        wait: m.wait,
        since,
    }
}

// The machine after a clock reading alone: that of DF_TIMER where the reading yields it, else the machine as it was.
#[tactic(auto, unfolding(crate::specs::Machine::tick_of))]
pub fn tick(m: Machine, now: u32) -> Machine
    ensures { result ≡ tick_of m now }
{
    if is_due(m, now) {
        drive(m, Event::DfTimer, now)
    } else {
        m
    }
}
