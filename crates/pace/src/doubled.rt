// The one way in which waits double.
ghost use Rattle.std.specs.Prelude.{◌≡◌};
ghost use Rattle.pace.specs.Steps.{doubled};

use source::reply::HORIZON;

// One past the horizon: the longest wait, which no prediction survives.
const FOREVER: u32 = HORIZON + 1;

// A wait doubled so many times, and at most one past the horizon.
pub(crate) fn doubled(wait: u32, times: u32) -> u32
    ensures { result ≡ doubled wait times }
{
    let mut long = wait.min(FOREVER);
    for _ in 0..times {
        if long > HORIZON / 2 {
            return FOREVER;
        }
        long *= 2;
    }
    long
}
