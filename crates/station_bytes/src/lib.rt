// Request #108: the bench's station, its state lent as eight bytes.
#![tactic(auto)]

ghost use Rattle.std.specs.Prelude.{◌≡◌, ◌≤◌, length};
ghost use Rattle.words.specs.Put.{put};
ghost use Rattle.station_order.specs.Order.{at_reset};
ghost use Rattle.station_bytes.specs.Stored.{state_of, stationed, station_bytes};

// The record's state for the number w: one that is none of ours where w doesn't fit.
fn state_of(w: usize) -> u32
    ensures { result ≡ state_of w }
{
    u32::try_from(w).unwrap_or(u32::MAX)
}

// One call.
pub fn call_in(state: &mut [u8], call: u64, notification: u64) -> u32
    requires { 8 ≤ length state.old }
    ensures { (result ≡ (stationed state.old call notification).number) × (state.new ≡ station_bytes state.old call notification) }
{
    let known = state_of(words::le64(state, 0));
    let r = station::call_from(known, call, notification);
    if r.number != 0 {
        return r.number;
    }
    words::put64(state, 0, r.state as u64);
    0
}

// A reset.
pub fn reset_in(state: &mut [u8])
    requires { 8 ≤ length state.old }
    ensures { state.new ≡ put 8 state.old 0 at_reset }
{
    let known = state_of(words::le64(state, 0));
    let fresh = station::reset_from(known);
    words::put64(state, 0, fresh as u64);
}
