// Request #108: one step of the call order, by value: from a state and a call with its notification to the answer and the next state.
#![tactic(auto)]

ghost use Rattle.std.specs.Prelude.{◌≡◌, ◌≤◌, MatchOption};
ghost use Rattle.station_order.specs.Order.{refusal, Orders};
ghost use Rattle.station_order.specs.Forms.{state_number, reached, Named};

// The calls, by the numbers that C passes.
pub const TEMP_RAM_INIT: u64 = 1;

pub const MEMORY_INIT: u64 = 2;

pub const TEMP_RAM_EXIT: u64 = 3;

pub const SILICON_INIT: u64 = 4;

pub const NOTIFY_PHASE: u64 = 5;

// The notification of a call that has none.
pub const NONE: u64 = 0;

// A call that the table has, NotifyPhase with its notification.
#[derive(Clone, Copy)]
enum Call {
    TempRamInit,
    MemoryInit,
    TempRamExit,
    SiliconInit,
    Notify20,
    Notify40,
    NotifyF0,
}

impl Call {
    // The call of these numbers, if the table has it: a notification counts with NotifyPhase alone.
    #[tactic(auto, unfolding(crate::specs::Order::noted))]
    fn of_numbers(call: u64, notification: u64) -> Option<Call>
        ensures { Named call notification result }
    {
        match (call, notification) {
            (TEMP_RAM_INIT, _) => Some(Call::TempRamInit),
            (MEMORY_INIT, _) => Some(Call::MemoryInit),
            (TEMP_RAM_EXIT, _) => Some(Call::TempRamExit),
            (SILICON_INIT, _) => Some(Call::SiliconInit),
            (NOTIFY_PHASE, 0x20) => Some(Call::Notify20),
            (NOTIFY_PHASE, 0x40) => Some(Call::Notify40),
            (NOTIFY_PHASE, 0xF0) => Some(Call::NotifyF0),
            _ => None,
        }
    }
}

// The states, by the numbers that C keeps.
#[derive(Clone, Copy)]
pub enum State {
    AtReset = 0,
    WithTempRam = 1,
    ToExit = 2,
    WithMemory = 3,
    WithSilicon = 4,
    Notified20 = 5,
    Notified40 = 6,
    NotifiedF0 = 7,
}

impl State {
    fn of_number(number: u32) -> Option<State>
        ensures { MatchOption result (8 ≤ number) (λ s. number ≡ state_number s) }
    {
        match number {
            0 => Some(State::AtReset),
            1 => Some(State::WithTempRam),
            2 => Some(State::ToExit),
            3 => Some(State::WithMemory),
            4 => Some(State::WithSilicon),
            5 => Some(State::Notified20),
            6 => Some(State::Notified40),
            7 => Some(State::NotifiedF0),
            _ => None,
        }
    }

    fn number(self) -> u32
        ensures { result ≡ state_number self }
    {
        self as u32
    }
}

// The number, 0 where the call is in order, and the state afterwards: numbers, as C writes them.
#[derive(Clone, Copy)]
pub struct Answer {
    pub number: u32,
    pub state: u32,
}

fn refused(state: u32, number: u32) -> Answer
    ensures { result ≡ refusal state number }
{
    Answer { number, state }
}

// The table: this call in this state, if it is one, leads to that state. (The call first, since its numbers were just told apart: so the
// compiler makes one choice of both.)
fn next(state: Option<State>, call: Call) -> Option<State>
    ensures { result ≡ reached state call }
{
    match (call, state) {
        (Call::TempRamInit, Some(State::AtReset)) => Some(State::WithTempRam),
        (Call::MemoryInit, Some(State::AtReset)) => Some(State::WithMemory),
        (Call::MemoryInit, Some(State::WithTempRam)) => Some(State::ToExit),
        (Call::TempRamExit, Some(State::ToExit)) => Some(State::WithMemory),
        (Call::SiliconInit, Some(State::WithMemory)) => Some(State::WithSilicon),
        (Call::Notify20, Some(State::WithSilicon)) => Some(State::Notified20),
        (Call::Notify40, Some(State::Notified20)) => Some(State::Notified40),
        (Call::NotifyF0, Some(State::Notified40)) => Some(State::NotifiedF0),
        _ => None,
    }
}

// The step.
pub fn step(state: u32, call: u64, notification: u64) -> Answer
    ensures { Orders state call notification result }
{
    let Some(named) = Call::of_numbers(call, notification) else {
        return refused(state, 41);
    };
    match next(State::of_number(state), named) {
        Some(to) => Answer {
            number: 0,
            state: to.number(),
        },
        None => refused(state, 40),
    }
}
