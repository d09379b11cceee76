// What is refused in a row. A row's fault holds whole the fault of the field, with the number of the field.
ghost use Rattle.std.specs.Prelude.{◌≡◌};
ghost use Rattle.rows.specs.Faults.{numbered_answer, field_fault_code};
ghost use Rattle.rows.specs.declared.fault.RowFault.TheVariants.{Field, Step};

use super::field::FieldFault;
use pace::fault::StepFault;
use source::refusal::{Code, Refused};

// A fault, and the number, from 1, of the part that it was found in.
#[derive(Clone, Copy, PartialEq, Eq, Debug)]
pub struct Numbered<E> {
    pub number: u32,
    pub fault: E,
}

// Why a row was refused: a field of it, its end, its place in the file, or the step that it holds.
#[derive(Clone, Copy, PartialEq, Eq, Debug)]
pub enum RowFault {
    Field(Numbered<FieldFault>),
    Newline,
    Order,
    Step(StepFault),
}

// Written out, as is the one below, so that contracts know which fault `?` makes.
impl From<Numbered<FieldFault>> for RowFault {
    ghost from_gives = { λ f r. r ≡ Field f };

    fn from(f: Numbered<FieldFault>) -> RowFault {
        RowFault::Field(f)
    }
}

impl From<StepFault> for RowFault {
    ghost from_gives = { λ f r. r ≡ Step f };

    fn from(f: StepFault) -> RowFault {
        RowFault::Step(f)
    }
}

// Puts the number of a part on the fault that was found in it.
pub fn at_number<T, E>(number: u32, r: Result<T, E>) -> Result<T, Numbered<E>>
    ensures { result ≡ numbered_answer number r }
{
    r.map_err(|fault| Numbered { number, fault })
}

impl Refused for FieldFault {
    ghost refusal = { field_fault_code };

    fn code(&self) -> Code {
        match self {
            FieldFault::Form => Code::Form,
            FieldFault::Limit => Code::Limit,
        }
    }
}
