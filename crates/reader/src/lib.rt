// Reading a page: its rows into the host's buffer, and its foot held against them.
#![tactic(auto)]

ghost use Rattle.std.specs.Prelude.{◌≡◌, ℕ, ◌+◌, ◌*◌, ◌≤◌, length, IfOk};
ghost use Rattle.text.specs.Files.{ending, Filled, Holds, fill, spare};
ghost use Rattle.text.specs.Filling.{fill_room};
ghost use Rattle.text.specs.Lists.{over};
ghost use Rattle.tally.specs.declared.line.PageRow.{PageRow};
ghost use Rattle.tally.specs.Tallies.{begun, tallied, foot_of};
ghost use Rattle.rows.specs.Columns.{foot_row};
ghost use Rattle.rows.specs.Rows.{row_read};
ghost use Rattle.reader.specs.PageRuns.{ReadsBack};
ghost use Rattle.reader.specs.PageFiles.{Fits, line_read, Reads, row_after, same_foot, foot_from, foot_read, foot_ending, page_count, reading, page_answer, page_read, PageExact};

use gate::opening::Opening;
use pace::Pace;
use rows::fault::{Numbered, RowFault, at_number};
use rows::field::FieldFault;
use rows::layout::{FOOT, PAGE_ROW};
use tally::account::Account;
use tally::line::{Foot, LINE, MOST_ROWS, PageRow};
use text::fault::FileFault;
use text::file::{RowTaker, count_rows, read_rows};

// The rows of a page of so many bytes, its foot left out, for a buffer of so many rows.
fn count_lines(size: usize, room: usize) -> Result<usize, FileFault>
    ensures value { result ≡ page_count room size }
    ensures within { IfOk result (λ n. (36 * n + 36 ≡ size) × (n ≤ 50000) × (n ≤ room)) }
{
    let rows = size.checked_sub(LINE).ok_or(FileFault::Size)?;
    count_rows(rows, LINE, (MOST_ROWS as usize).min(room))
}

// The row of a line that follows those of an account.
fn read_line(line: &[u8], account: &Account) -> Result<PageRow, RowFault>
    ensures { result ≡ line_read account.now.tally line.now }
{
    let [number, asked, class, release, misses] = PAGE_ROW.read(line)?;
    let row = PageRow {
        asked: asked as u32,
        class: class as u8,
        release: release as u32,
        misses: misses as u32,
    };
    if number != account.tally.rows as u64 + 1 || !account.admits(row) {
        return Err(RowFault::Order);
    }
    Ok(row)
}

// Whether numbers are those of a foot.
fn same_foot(numbers: [u64; 5], foot: Foot) -> bool
    ensures { result ≡ same_foot foot numbers }
{
    numbers == foot.numbers()
}

// Whether the fields after a "=" are those of a foot: their form, the newline, and then their numbers.
fn read_numbers(fields: &[u8], foot: Foot) -> Result<(), RowFault>
    ensures { result ≡ foot_from foot (row_read 2 foot_row fields.now) }
{
    let numbers = FOOT.read(fields)?;
    if same_foot(numbers, foot) {
        Ok(())
    } else {
        Err(RowFault::Order)
    }
}

// Whether a line is a foot. The "=" is its field 1.
fn read_foot(line: &[u8], foot: Foot) -> Result<(), RowFault>
    ensures { result ≡ foot_read foot line.now }
{
    match line {
        [b'=', fields @ ..] => read_numbers(fields, foot),
        _ => Err(RowFault::Field(Numbered {
            number: 1,
            fault: FieldFault::Form,
        })),
    }
}

// The lines of a page, read into the front of a buffer, and the account of their rows, which counts them.
#[derive(Drop)]
struct PageLines<'a> {
    account: Account,
    out: &'a mut [PageRow],
}

impl<'a> PageLines<'a> {
    fn new(opening: Opening, out: &'a mut [PageRow]) -> PageLines<'a>
        ensures same { result.out.ghost_name ≡ out.entry.ghost_name }
        ensures value { result.out.now ≡ out.old }
        ensures begun { result.account.tally ≡ begun opening.value }
    {
        PageLines {
            account: Account::new(opening),
            out,
        }
    }
}

impl RowTaker for PageLines<'_> {
    ghost State = { Filled Reads PageRow };

    ghost stands = { λ s self. Holds s s.kept.name self.out self.account.tally.rows × (self.account.tally ≡ tallied s.kept.opening s.front) };

    ghost step = { fill row_after };

    ghost room = { spare };

    fn take_row(&mut self, line: &[u8]) -> Result<(), RowFault> {
        let row = read_line(line, &self.account)?;
        let Ok(next) = self.account.with(row, usize::MAX) else {
            unreachable()
        };
        self.out[self.account.tally.rows as usize] = row;
        self.account = next;
        Ok(())
    }

    ghost takes_room = { fill_room row_after };
}

// Reads so many rows into the front of `out`, up to the first that is refused. How many there are is a length, which
// has no type of its own.
fn read_lines(
    bytes: &[u8],
    rows: usize,
    opening: Opening,
    out: &mut [PageRow],
) -> Result<usize, FileFault>
    requires whole { 36 * rows + 36 ≡ length bytes.now }
    requires few { rows ≤ 50000 }
    requires room { rows ≤ length out.old }
    ensures value { result ≡ ending rows (reading opening.value bytes.now rows).fault }
    ensures after { out.new ≡ over (reading opening.value bytes.now rows).left out.old }
{
    let mut page = PageLines::new(opening, out);
    read_rows(&bytes[..LINE * rows], rows, LINE, &mut page)
}

// The account of rows that a page took. By a rule of the project the foot of a page that is read comes from a loop over
// its rows.
fn account_of(rows: &[PageRow], opening: Opening) -> Account
    requires fits { Fits (begun opening.value) rows.now }
    requires few { length rows.now ≤ 50000 }
    ensures { result.tally ≡ tallied opening.value rows.now }
{
    let mut account = Account::new(opening);
    for row in rows {
        let Ok(next) = account.with(*row, usize::MAX) else {
            unreachable()
        };
        account = next;
    }
    account
}

// Whether the line after the rows is the foot that they and the quanta of a pace give.
fn check_foot<P: Pace>(
    line: &[u8],
    rows: &[PageRow],
    opening: Opening,
    quanta: &P,
) -> Result<usize, FileFault>
    requires fits { Fits (begun opening.value) rows.now }
    requires few { length rows.now ≤ 50000 }
    ensures { result ≡ foot_ending (length rows.now) (foot_read (foot_of (P.Pace.quanta quanta.now) (tallied opening.value rows.now)) line.now) }
{
    let foot = account_of(rows, opening).foot(quanta);
    at_number(rows.len() as u32 + 1, read_foot(line, foot))?;
    Ok(rows.len())
}

// Reads a page that was opened at a tick, with the quanta of a pace, into the front of `out`, and answers how many rows
// it has. Refused for its size, it writes nothing; refused at a line, it leaves the rows before that line.
pub fn read_page<P: Pace>(
    bytes: &[u8],
    opening: Opening,
    quanta: &P,
    out: &mut [PageRow],
) -> Result<usize, FileFault>
    ensures value { result ≡ page_answer (P.Pace.quanta quanta.now) opening.value bytes.now (length out.old) }
    ensures after { out.new ≡ over (page_read opening.value bytes.now (length out.old)) out.old }
    ensures exact { PageExact (P.Pace.quanta quanta.now) opening.value bytes.now (length out.old) (page_read opening.value bytes.now (length out.old)) result }
    ensures back { ReadsBack (P.Pace.quanta quanta.now) opening.value bytes.now (length out.old) (page_read opening.value bytes.now (length out.old)) result }
{
    let rows = count_lines(bytes.len(), out.len())?;
    read_lines(bytes, rows, opening, out)?;
    check_foot(&bytes[LINE * rows..], &out[..rows], opening, quanta)
}
