// Pages: rows of releases, and a foot with what their timing can tell at most.
#![tactic(auto)]

ghost use Rattle.std.specs.Prelude.{◌≡◌, ◌+◌, ◌*◌, ◌<◌, ◌≤◌, List, length, MatchResult};
ghost use Rattle.tally.specs.declared.line.PageFault.TheVariants.{Room};
ghost use Rattle.tally.specs.declared.line.PageRow.{PageRow};
ghost use Rattle.tally.specs.Tallies.{begun, tallied, roomy, row_answer, foot_of, Bounds};
ghost use Rattle.page.specs.Pages.{row_bytes, foot_bytes, RowLeaves, CloseLeaves};

use gate::opening::Opening;
use pace::Pace;
use rows::layout::{FOOT, PAGE_ROW};
use sheet::{ClosedPage, OpenPage};
use tally::account::Account;
use tally::line::{Foot, LINE, PageFault, PageRow};

pub mod sheet;

// A page that could not be closed, and why.
pub struct RefusedPage {
    pub fault: PageFault,
    pub page: OpenPage,
}

// Begins a page in a buffer, which needs room for a foot at least.
pub fn begin(buf: &[u8], opening: Opening) -> Result<OpenPage, PageFault>
    ensures { MatchResult result (λ p. (36 ≤ length buf.now) × (p.account.tally ≡ begun opening.value)) (λ f. (length buf.now < 36) × (f ≡ Room)) }
{
    if buf.len() < LINE {
        return Err(PageFault::Room);
    }
    Ok(OpenPage {
        account: Account::new(opening),
    })
}

impl OpenPage {
    // Whether a buffer has room for one row more and a foot.
    pub fn has_room(&self, buf: &[u8]) -> bool
        ensures { result ≡ roomy self.now.account.tally (length buf.now) }
    {
        self.account.has_room(buf.len())
    }

    // Writes one row more into the part of the buffer that starts at 36 times the rows.
    // Refused, it leaves the page and the buffer as they were. Room for the foot stays.
    pub fn row(&mut self, buf: &mut [u8], row: PageRow) -> Result<(), PageFault>
        ensures value { result ≡ row_answer self.old.account.tally row (length buf.old) }
        ensures after { RowLeaves row self.old.account.tally self.new.account.tally buf.old buf.new result }
        ensures room { 36 * self.old.account.tally.rows + 36 ≤ length buf.old → 36 * self.new.account.tally.rows + 36 ≤ length buf.new }
    {
        let account = self.account.with(row, buf.len())?;
        let rows = self.account.tally.rows;
        let at = LINE * rows as usize;
        write_row(&mut buf[at..at + LINE], rows + 1, row);
        self.account = account;
        Ok(())
    }

    // Writes the foot, with the quanta of a pace, and closes the page. Refused, it hands the page back.
    pub fn close<P: Pace>(self, buf: &mut [u8], quanta: &P) -> Result<ClosedPage, RefusedPage>
        ensures after { CloseLeaves (P.Pace.quanta quanta.now) self buf.old buf.new result }
        ensures bound { (rs : List PageRow) → self.account.tally ≡ tallied self.account.tally.opening rs → Bounds (P.Pace.quanta quanta.now) self.account.tally.opening rs self.account.tally.clock (foot_of (P.Pace.quanta quanta.now) self.account.tally).bits }
    {
        let at = LINE * self.account.tally.rows as usize;
        if buf.len() < at + LINE {
            return Err(RefusedPage {
                fault: PageFault::Room,
                page: self,
            });
        }
        let OpenPage { account } = self;
        write_foot(&mut buf[at..at + LINE], account.foot(quanta));
        Ok(ClosedPage {
            rows: account.tally.rows,
        })
    }
}

impl ClosedPage {
    // The bytes of the page with its foot.
    pub fn length(&self) -> usize
        ensures { result ≡ 36 * self.now.rows + 36 }
    {
        LINE * self.rows as usize + LINE
    }
}

// The bytes of a row of a page, which was judged before. The foot's are another layout's, so each has its writer.
fn write_row(line: &mut [u8], number: u32, row: PageRow)
    requires room { length line.old ≡ 36 }
    requires number { number ≤ 50000 }
    requires asked { row.asked ≤ row.release }
    requires release { row.release ≤ 1000000000 }
    requires known { row.«class» ≤ 7 }
    requires misses { row.misses ≤ 29 }
    ensures { line.new ≡ row_bytes number row }
{
    let Ok(()) = PAGE_ROW.write(&row.numbers(number), line) else {
        unreachable()
    };
}

// The bytes of a foot.
fn write_foot(line: &mut [u8], foot: Foot)
    requires room { length line.old ≡ 36 }
    requires rows { foot.rows ≤ 50000 }
    requires clock { foot.clock ≤ 1000000000 }
    requires classes { foot.classes ≤ 8 }
    requires misses { foot.misses ≤ 9999 }
    ensures { line.new ≡ foot_bytes foot }
{
    line[0] = b'=';
    let Ok(()) = FOOT.write(&foot.numbers(), &mut line[1..LINE]) else {
        unreachable()
    };
}
