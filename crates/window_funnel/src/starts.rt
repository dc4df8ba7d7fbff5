//! The first times of the chains of each length. Of two chains of one length the one that began later is never worse,
//! so one first time a length is all that the events so far say of those to come.
ghost use Rattle.std.specs.Prelude.{◌≡◌, ◌≤◌, ◌<◌, Some, length};
ghost use Rattle.value_types.specs.Folds.{event_of};
ghost use Rattle.window_funnel.specs.proving.Starts.{later, lengthened, longest, with_event};

use value_types::Event;

fn later_of(a: Option<u64>, b: Option<u64>) -> Option<u64>
    ensures { result ≡ later a b }
{
    match (a, b) {
        (Some(a), Some(b)) => Some(if a < b { b } else { a }),
        (Some(a), None) => Some(a),
        (None, b) => b,
    }
}

/// The first time of a chain of `i` events, if the event goes on with it.
fn going_on(window: u64, event: Event, i: usize, start: Option<u64>) -> Option<u64>
    requires { i < 32 }
    ensures { result ≡ lengthened window (event_of event) i start }
{
    let start = start?;
    let met = (event.mask >> i as u32) % 2 == 1;
    let within = event.time <= start || event.time - start <= window;
    if met && within { Some(start) } else { None }
}

/// Adds an event. It goes on with chains that were there before it, so that it serves one step.
pub fn add_event(starts: &mut [Option<u64>], window: u64, event: Event)
    requires { length starts.old ≤ 32 }
    ensures { starts.new ≡ with_event window (event_of event) 0 (Some event.time) starts.old }
{
    let mut shorter = Some(event.time);
    for i in 0..starts.len() {
        let before = starts[i];
        starts[i] = later_of(before, going_on(window, event, i, shorter));
        shorter = before;
    }
}

/// The greatest length that has a chain.
pub fn longest_of(starts: &[Option<u64>]) -> u32
    requires { length starts.now ≤ 32 }
    ensures { result ≡ longest 1 starts.now }
{
    let mut most = 0;
    for (i, start) in starts.iter().enumerate() {
        if start.is_some() {
            most = i as u32 + 1;
        }
    }
    most
}
