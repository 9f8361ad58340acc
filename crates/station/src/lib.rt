// Request #108: the bench's station. The call-order state is a record lent to be changed in place; each call reads it, runs the step of
// `station_order` and stores the next state.
#![tactic(auto)]

ghost use Rattle.station.specs.Station.{Calls, Resets, CallsFrom, ResetsFrom};

// The call-order state. Anyone may make one up: a number that is no state of ours has nothing in order.
#[derive(Clone, Copy)]
pub struct Station {
    pub state: u32,
}

// A call by its number.
pub fn call(station: &mut Station, call: u64, notification: u64) -> u32
    ensures { Calls call notification station.old result station.new }
{
    let r = station_order::step(station.state, call, notification);
    station.state = r.state;
    r.number
}

// A reset starts afresh.
pub fn reset(station: &mut Station)
    ensures { Resets station.new }
{
    station.state = station_order::State::AtReset as u32;
}

// A record made of a state, lent to one call: for a caller that keeps the state as a number.
pub fn call_from(state: u32, number: u64, notification: u64) -> station_order::Answer
    ensures { CallsFrom state number notification result }
{
    let mut station = Station { state };
    let number = call(&mut station, number, notification);
    station_order::Answer {
        number,
        state: station.state,
    }
}

// The same for the reset.
pub fn reset_from(state: u32) -> u32
    ensures { ResetsFrom result }
{
    let mut station = Station { state };
    reset(&mut station);
    station.state
}
