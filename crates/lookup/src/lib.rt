// Which rows of a page were released from one tick to another. The rows may stand in any order.
#![tactic(auto)]

ghost use Rattle.std.specs.Prelude.{◌≡◌, ℕ, ◌+◌, ◌≤◌, length, MatchResult};
ghost use Rattle.lookup.specs.Lookups.{within, Lies, Lowest, Highest, NoneLies};
ghost use Rattle.source.specs.declared.refusal.Code.TheVariants as code;

use source::refusal::{Code, Refused};
use tally::line::PageRow;

// No row was released there, which is all that these calls can refuse.
#[derive(Clone, Copy, PartialEq, Eq, Debug)]
pub struct NoRow;

impl Refused for NoRow {
    ghost refusal = { λ _. code.NoRow };

    fn code(&self) -> Code {
        Code::NoRow
    }
}

// Whether a row was released from t1 to t2, which are handed on as they came: a struct of both would be made in each
// public call.
fn within(row: PageRow, t1: u32, t2: u32) -> bool
    ensures { result ≡ within t1 t2 row }
{
    (t1..=t2).contains(&row.release)
}

// The number, from 1, of the lowest row that was released from t1 to t2.
fn lowest(rows: &[PageRow], t1: u32, t2: u32) -> Result<usize, NoRow>
    ensures { MatchResult result (Lowest t1 t2 rows.now) (λ _. NoneLies t1 t2 rows.now) }
{
    rows.iter()
        .position(|row| within(*row, t1, t2))
        .map(|i| i + 1)
        .ok_or(NoRow)
}

// The number, from 1, of the highest row that was released from t1 to t2.
fn highest(rows: &[PageRow], t1: u32, t2: u32) -> Result<usize, NoRow>
    ensures { MatchResult result (Highest t1 t2 rows.now) (λ _. NoneLies t1 t2 rows.now) }
{
    rows.iter()
        .rposition(|row| within(*row, t1, t2))
        .map(|i| i + 1)
        .ok_or(NoRow)
}

// The number, from 1, of some row that was released from t1 to t2.
pub fn find(rows: &[PageRow], t1: u32, t2: u32) -> Result<usize, NoRow>
    ensures { MatchResult result (Lies t1 t2 rows.now) (λ _. NoneLies t1 t2 rows.now) }
{
    lowest(rows, t1, t2)
}

// The numbers, from 1, of the lowest and the highest row that were released from t1 to t2.
pub fn span(rows: &[PageRow], t1: u32, t2: u32) -> Result<(usize, usize), NoRow>
    ensures { MatchResult result (λ p. Lowest t1 t2 rows.now p.0 × Highest t1 t2 rows.now p.1) (λ _. NoneLies t1 t2 rows.now) }
{
    Ok((lowest(rows, t1, t2)?, highest(rows, t1, t2)?))
}
