// A gate driven onto a page.
ghost use Rattle.std.specs.Prelude.{◌≡◌, ◌+◌, ◌*◌, ◌≤◌, length};
ghost use Rattle.promise.specs.Views.{all};
ghost use Rattle.gate.specs.Gates.{view_of, rules_in};
ghost use Rattle.driver.specs.Replays.{Fills, ReplayLeaves};

use gate::Gate;
use gate::opening::Opening;
use pace::{Pace, Penalty};
use page::begin;
use page::sheet::OpenPage;
use source::Source;
use source::reply::End;
use tally::line::{PageFault, PageRow};

// A page that was written: its bytes with the foot, and the mark that the gate ended with, or nothing where the page
// took no further row.
#[derive(Clone, Copy, PartialEq, Eq, Debug)]
pub struct Replayed {
    pub length: usize,
    pub end: Option<End>,
}

// Drives the gate onto the page until the gate ends or the page takes no further row; that reply stays in the gate.
// Answers the mark that the gate ended with, if it did.
fn fill<S: Source, P: Pace, R: Penalty>(
    gate: &mut Gate<S, P, R>,
    page: &mut OpenPage,
    buf: &mut [u8],
) -> Option<End>
    requires room { 36 * page.old.account.tally.rows + 36 ≤ length buf.old }
    requires clock { page.old.account.tally.clock ≡ (view_of S.Source gate.old).standing.clock }
    requires misses { page.old.account.tally.misses ≤ all (view_of S.Source gate.old).standing }
    ensures fills { Fills (rules_in P.Pace R.Penalty gate.old) (view_of S.Source gate.old) (view_of S.Source gate.new) page.old.account.tally page.new.account.tally buf.old buf.new result }
    ensures same { rules_in P.Pace R.Penalty gate.new ≡ rules_in P.Pace R.Penalty gate.old }
    ensures room { 36 * page.new.account.tally.rows + 36 ≤ length buf.new }
{
    while page.has_room(buf) {
        let release = match gate.release() {
            Ok(release) => release,
            Err(end) => return Some(end),
        };
        let Ok(()) = page.row(buf, PageRow::from(release)) else {
            unreachable()
        };
    }
    gate.head().err()
}

// Begins a page with the gate's clock as its opening, drives the gate onto it, and closes it with the gate's quanta.
// Refused, where not even the foot has room, it leaves the gate and the buffer as they were.
pub fn replay<S: Source, P: Pace, R: Penalty>(
    gate: &mut Gate<S, P, R>,
    buf: &mut [u8],
) -> Result<Replayed, PageFault>
    ensures value { ReplayLeaves (rules_in P.Pace R.Penalty gate.old) (view_of S.Source gate.old) (view_of S.Source gate.new) buf.old buf.new result }
    ensures same { rules_in P.Pace R.Penalty gate.new ≡ rules_in P.Pace R.Penalty gate.old }
{
    let Ok(opening) = Opening::new(gate.clock()) else {
        unreachable()
    };
    let mut page = begin(buf, opening)?;
    let end = fill(gate, &mut page, buf);
    match page.close(buf, gate.pace()) {
        Ok(closed) => Ok(Replayed {
            length: closed.length(),
            end,
        }),
        Err(_) => unreachable(),
    }
}
