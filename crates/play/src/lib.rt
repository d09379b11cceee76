// Calls of a gate that are given as data, and reported as data.
#![tactic(auto)]

ghost use Rattle.std.specs.Prelude.{◌≡◌};
ghost use Rattle.promise.specs.Runs.{asked, Played};
ghost use Rattle.gate.specs.Gates.{view_of, rules_in, GateCall};

use gate::Gate;
use pace::{Pace, Penalty};
use promise::event::{Event, Request};
use source::Source;

// Makes the call that is asked for, and gives it with its answer. Calls are data, to be compared and reported, so they
// are matched and are no closures.
fn ask<S: Source, P: Pace, R: Penalty>(gate: &mut Gate<S, P, R>, request: Request) -> Event<S::Body>
    ensures call { GateCall S.Source P.Pace R.Penalty gate.old result gate.new }
    ensures asked { asked result ≡ request }
    ensures same { rules_in P.Pace R.Penalty gate.new ≡ rules_in P.Pace R.Penalty gate.old }
{
    match request {
        Request::Head => Event::Head(gate.head()),
        Request::Lapses => Event::Lapses(gate.lapses()),
        Request::Take => Event::Take(gate.take()),
        Request::Misses(class) => Event::Misses(class, gate.misses(class)),
        Request::Clock => Event::Clock(gate.clock()),
        Request::Released => Event::Released(gate.released()),
    }
}

// Makes the calls that are asked for one after another, as many as both buffers hold, and reports each with its
// answer. Answers how many there were.
pub fn play<S: Source, P: Pace, R: Penalty>(
    gate: &mut Gate<S, P, R>,
    requests: &[Request],
    events: &mut [Event<S::Body>],
) -> usize
    ensures played { Played (rules_in P.Pace R.Penalty gate.old) (view_of S.Source gate.old) (view_of S.Source gate.new) requests.now events.old events.new result }
    ensures same { rules_in P.Pace R.Penalty gate.new ≡ rules_in P.Pace R.Penalty gate.old }
{
    let count = requests.len().min(events.len());
    // Reported by place: nothing is known of what a loop over `iter_mut` beside another iterator wrote.
    for (i, request) in requests[..count].iter().enumerate() {
        events[i] = ask(gate, *request);
    }
    count
}
