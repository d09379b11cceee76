// Files of rows: how many rows a file has, and one loop that reads the rows of every kind of file.
ghost use Rattle.std.specs.Prelude.{◌≡◌, ℕ, ◌+◌, ◌*◌, ◌/◌, ◌<◌, ◌≤◌, ◌^◌, List, Ok, Result, length, IfOk};
ghost use Rattle.rows.specs.declared.fault.RowFault.{RowFault};
ghost use Rattle.text.specs.Files.{row_count, RowTaken, RowsRead};

use super::fault::FileFault;
use rows::fault::{RowFault, at_number};

// What takes the rows of a file one after another.
pub trait RowTaker {
    // What the rows taken so far make, and where it stands.
    ghost State: { Type 0 };

    ghost stands: { State → Self → Type 0 };

    // What one row more makes of it, or why that row is refused.
    ghost step: { State → List ℕ → Result State RowFault };

    // How many more rows there is room for, at least.
    ghost room: { State → ℕ };

    // Takes a row; refused, it leaves what stood there.
    fn take_row(&mut self, row: &[u8]) -> Result<(), RowFault>
        requires { (s : State) × stands s self.old × (1 ≤ room s) }
        ensures { (s : State) → stands s self.old → RowTaken step s row.now (λ t. stands t self.new) result };

    // A row takes the room of one row at most.
    ghost takes_room: { (s t : State) (row : List ℕ) → step s row ≡ Ok t → room s ≤ room t + 1 };
}

// The rows of a file of `size` bytes: a whole number of them, and no more than `most`.
pub fn count_rows(size: usize, width: usize, most: usize) -> Result<usize, FileFault>
    ensures value { result ≡ row_count width most size }
    ensures within { IfOk result (λ n. (width * n ≡ size) × (n ≤ most)) }
{
    let rows = size.checked_div(width).unwrap_or(0);
    if width * rows != size || rows > most {
        return Err(FileFault::Size);
    }
    Ok(rows)
}

// Reads so many rows of a width one after another, up to the first that is refused. The readers of files call it, after
// they judged the size and the room; how many rows there are is a length, which has no type of its own.
pub fn read_rows<T: RowTaker>(
    bytes: &[u8],
    rows: usize,
    width: usize,
    taker: &mut T,
) -> Result<usize, FileFault>
    requires wide { 1 ≤ width }
    requires whole { width * rows ≡ length bytes.now }
    requires few { rows ≤ 50000 }
    requires room { (s : T.State) × T.stands s taker.old × (rows ≤ T.room s) }
    ensures { (s : T.State) → T.stands s taker.old → RowsRead T.step width rows bytes.now s (λ t. T.stands t taker.new) result }
{
    for (i, row) in bytes.chunks_exact(width).enumerate() {
        at_number(i as u32 + 1, taker.take_row(row))?;
    }
    Ok(rows)
}
