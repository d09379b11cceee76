// Which rows a page takes, and its foot.
ghost use Rattle.std.specs.Prelude.{◌≡◌, ◌+◌, ◌<◌, ◌≤◌, List, length, Ok, Err, MatchResult};
ghost use Rattle.tally.specs.declared.line.PageRow.{PageRow};
ghost use Rattle.tally.specs.Tallies.{begun, tallied, orderly, roomy, taken, row_answer, foot_of, Bounds};

use super::account::{Account, Tally};
use super::leak::{exponent, marked, row_bits};
use super::line::{Foot, LINE, MOST_ROWS, PageFault, PageRow};
use gate::opening::Opening;
use pace::Pace;
use source::class::Class;
use source::reply::HORIZON;

// A row has at most this many misses, and a page at most so many.
pub const MOST_ROW_MISSES: u32 = 29;

pub const MOST_PAGE_MISSES: u32 = 9_999;

impl Account {
    // The account of a page without rows.
    pub fn new(opening: Opening) -> Account
        ensures { result.tally ≡ begun opening.value }
    {
        let tick = opening.value();
        Account {
            tally: Tally {
                opening: tick,
                rows: 0,
                clock: tick,
                misses: 0,
                occurs: [false; 8],
            },
        }
    }

    // Whether a row keeps the order and the range.
    pub fn admits(&self, row: PageRow) -> bool
        ensures { result ≡ orderly self.now.tally row }
    {
        row.asked <= row.release
            && self.tally.clock < row.release
            && row.release <= HORIZON
            && row.misses <= MOST_ROW_MISSES
            && self.tally.misses + row.misses <= MOST_PAGE_MISSES
    }

    // Whether a buffer of so many bytes has room for one row more and a foot.
    pub fn has_room(&self, room: usize) -> bool
        ensures { result ≡ roomy self.now.tally room }
    {
        self.tally.rows < MOST_ROWS && LINE * self.tally.rows as usize + 2 * LINE <= room
    }

    // Whether a page in a buffer of so many bytes takes a row, with its class, or why not.
    fn judge(&self, row: PageRow, room: usize) -> Result<Class, PageFault>
        ensures { MatchResult result (λ c. (row_answer self.now.tally row room ≡ Ok tt) × (c.number ≡ row.«class»)) (λ f. row_answer self.now.tally row room ≡ Err f) }
    {
        let class = Class::try_from(row.class).map_err(|_| PageFault::Class)?;
        if !self.admits(row) {
            return Err(PageFault::Order);
        }
        if !self.has_room(room) {
            return Err(PageFault::Room);
        }
        Ok(class)
    }

    // The account with one row more, in a buffer of so many bytes, or why the page does not take the row.
    pub fn with(&self, row: PageRow, room: usize) -> Result<Account, PageFault>
        ensures { MatchResult result (λ a. (row_answer self.now.tally row room ≡ Ok tt) × (a.tally ≡ taken self.now.tally row)) (λ f. row_answer self.now.tally row room ≡ Err f) }
    {
        let class = self.judge(row, room)?;
        let mut occurs = self.tally.occurs;
        occurs[class.index()] = true;
        Ok(Account {
            tally: Tally {
                rows: self.tally.rows + 1,
                clock: row.release,
                misses: self.tally.misses + row.misses,
                occurs,
                ..self.tally
            },
        })
    }

    // The foot that the rows so far and the quanta of a pace give.
    pub fn foot<P: Pace>(&self, quanta: &P) -> Foot
        ensures value { result ≡ foot_of (P.Pace.quanta quanta.now) self.now.tally }
        ensures classes { result.classes ≤ 8 }
        ensures bound { (rs : List PageRow) → self.now.tally ≡ tallied self.now.tally.opening rs → Bounds (P.Pace.quanta quanta.now) self.now.tally.opening rs result.clock result.bits }
    {
        let Tally {
            opening,
            rows,
            clock,
            misses,
            occurs,
        } = self.tally;
        Foot {
            rows,
            clock,
            classes: marked(&occurs),
            bits: row_bits(rows) * exponent(quanta, &occurs, clock - opening),
            misses,
        }
    }
}
