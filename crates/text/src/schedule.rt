// Schedule files: a step of a pace to a row.
ghost use Rattle.std.specs.Prelude.{◌≡◌, ℕ, List, Err};
ghost use Rattle.std.proofs.Common.{lit≤};
ghost use Rattle.text.specs.declared.fault.FileFault.TheVariants.{Size};
ghost use Rattle.pace.specs.Steps.{ladders_of};
ghost use Rattle.text.specs.Schedules.{schedule_step, schedule_answer, schedule_read, ScheduleExact};

use super::fault::FileFault;
use super::file::{RowTaker, count_rows, read_rows};
use pace::steps::Steps;
use rows::fault::RowFault;
use rows::layout::SCHEDULE_ROW;

// A schedule holds at most this many rows.
pub const MOST_STEPS: usize = 128;

impl RowTaker for Steps {
    ghost State = { List (List ℕ) };

    ghost stands = { λ ladders steps. ladders_of steps ≡ ladders };

    ghost step = { schedule_step };

    ghost room = { λ _. 128 };

    // Adds the step of a row; refused, it leaves the steps as they were.
    fn take_row(&mut self, row: &[u8]) -> Result<(), RowFault> {
        let [class, epoch, wait] = SCHEDULE_ROW.read(row)?;
        self.add(class as u8, epoch as u32, wait as u32)?;
        Ok(())
    }

    ghost takes_room = { λ _ _ _ _. lit≤ tt };
}

// Reads a schedule in place of the steps, and answers how many rows it has. Refused for its size, it leaves the steps
// as they were; refused at a row, it leaves the steps of the rows before that row.
pub fn read_schedule(bytes: &[u8], steps: &mut Steps) -> Result<usize, FileFault>
    ensures value { result ≡ schedule_answer bytes.now }
    ensures after { ladders_of steps.new ≡ schedule_read (ladders_of steps.old) bytes.now }
    ensures exact { ScheduleExact bytes.now (ladders_of steps.new) result }
    ensures same { result ≡ Err Size → steps.new ≡ steps.old }
{
    let rows = count_rows(bytes.len(), SCHEDULE_ROW.bytes, MOST_STEPS)?;
    *steps = Steps::new();
    read_rows(bytes, rows, SCHEDULE_ROW.bytes, steps)
}
