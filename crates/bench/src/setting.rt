// The number of servers, checked once and in range ever after.
ghost use Rattle.std.specs.Prelude.{◌≡◌, ◌≤◌, Ok, Err};
ghost use Rattle.source.specs.Settings.{checked};

use source::fault::OutOfRange;

// The most servers that a bench has.
pub const MOST_SERVERS: usize = 4;

// The number of a bench's servers, from 1 to 4. It counts places of an array, so it is a `usize` and no `Setting`:
// a narrower number would ask more of a host.
#[derive(Clone, Copy)]
pub struct ServerCount {
    pub(crate) count: usize,
    ghost some: { 1 ≤ count },
    ghost few: { count ≤ 4 },
}

impl ServerCount {
    // So many servers. It is no `TryFrom`, so that a literal can be handed to it.
    pub fn new(count: usize) -> Result<ServerCount, OutOfRange>
        ensures { elim result [ Ok s ↦ Ok s.count | Err e ↦ Err e ] ≡ checked 1 4 count }
    {
        if count < 1 || count > MOST_SERVERS {
            return Err(OutOfRange);
        }
        Ok(ServerCount { count })
    }
}
