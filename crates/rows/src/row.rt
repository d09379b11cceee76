// Rows: one reader and one writer for every layout.
ghost use Rattle.std.specs.Prelude.{◌≡◌, ℕ, ◌≤◌, true, length, drop, MatchResult};
ghost use Rattle.rows.specs.Columns.{shapes};
ghost use Rattle.rows.specs.Rows.{column_read, row_read, row_shown, RowExact, RowRefused, fits, write_answer, Written};

use super::column::Column;
use super::fault::{Numbered, RowFault, at_number};
use super::field::{FieldFault, read_field, write_field};
use super::layout::Layout;

// The values do not fit the layout, or the room is not that of a row, which is all that a writing can refuse.
#[derive(Clone, Copy, PartialEq, Eq, Debug)]
pub struct Misfit;

// The field of a column at the front of the bytes, and the bytes after it; where they run out it has no form.
fn read_column(column: Column, bytes: &[u8]) -> Result<(u64, &[u8]), FieldFault>
    ensures { let read = column_read column.width column.limit bytes.now in MatchResult result (λ p. (read ≡ Ok p.0) × (p.1.now ≡ drop column.width bytes.now)) (λ f. read ≡ Err f) }
{
    let (field, rest) = bytes
        .split_at_checked(column.width)
        .ok_or(FieldFault::Form)?;
    let value = read_field(field, column.limit)?;
    Ok((value, rest))
}

impl<const N: usize> Layout<N> {
    // The numbers of a row: its fields from the left, and then the newline that must end it.
    pub fn read(&self, row: &[u8]) -> Result<[u64; N], RowFault>
        ensures value { result ≡ row_read self.now.first (shapes self.now.columns) row.now }
        ensures exact { RowExact (shapes self.now.columns) row.now result }
        ensures refused { RowRefused self.now.first (shapes self.now.columns) row.now result }
    {
        let mut values = [0; N];
        let mut rest = row;
        // Kept by place, since a field that is refused ends the row.
        for (i, column) in self.columns.iter().enumerate() {
            let number = self.first + i as u32;
            (values[i], rest) = at_number(number, read_column(*column, rest))?;
        }
        match rest {
            [b'\n'] => Ok(values),
            _ => Err(RowFault::Newline),
        }
    }

    // Whether each number is within its column's limit.
    fn fits(&self, values: &[u64]) -> bool
        requires { length values.now ≡ N }
        ensures { result ≡ fits (shapes self.now.columns) values.now }
    {
        values
            .iter()
            .zip(&self.columns)
            .all(|(value, column)| *value <= column.limit)
    }

    // Writes the fields one after another, and the newline.
    fn write_fields(&self, values: &[u64], out: &mut [u8])
        requires sized { length values.now ≡ N }
        requires room { length out.old ≡ self.now.bytes }
        requires within { fits (shapes self.now.columns) values.now ≡ true }
        ensures { out.new ≡ row_shown (shapes self.now.columns) values.now }
    {
        // Written by place: a proof does not follow a mutable slice that is cut in a loop.
        let mut at = 0;
        for (column, value) in self.columns.iter().zip(values) {
            let next = at + column.width;
            write_field(&mut out[at..next], *value);
            at = next;
        }
        out[at] = b'\n';
    }

    // Writes a row over the whole of `out`; refused, it leaves `out` as it was.
    pub fn write(&self, values: &[u64; N], out: &mut [u8]) -> Result<(), Misfit>
        ensures value { result ≡ write_answer (shapes self.now.columns) values.now (length out.old) }
        ensures after { Written (shapes self.now.columns) values.now out.old out.new result }
    {
        if out.len() != self.bytes || !self.fits(values) {
            return Err(Misfit);
        }
        self.write_fields(values, out);
        Ok(())
    }
}
