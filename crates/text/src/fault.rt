// What is refused in a file. A file's fault holds whole the fault of the row, with the number of the row.
ghost use Rattle.std.specs.Prelude.{◌≡◌, Some, None};
ghost use Rattle.text.specs.Refusals.{refusal, printed_numbers, refusal_of, list_refusal};
ghost use Rattle.text.specs.declared.fault.FileFault.TheVariants.{Row};
ghost use Rattle.text.specs.declared.fault.ListFault.TheVariants.{File};

use rows::fault::{Numbered, RowFault};
use source::refusal::{Code, Refused};

// Why a file was refused: a row of it, or its size.
#[derive(Clone, Copy, PartialEq, Eq, Debug)]
pub enum FileFault {
    Row(Numbered<RowFault>),
    Size,
}

// Why a list was not written: what it is, or a buffer that is too short for it.
#[derive(Clone, Copy, PartialEq, Eq, Debug)]
pub enum ListFault {
    File(FileFault),
    Room,
}

// Written out, as is the one below, so that contracts know which fault `?` makes.
impl From<Numbered<RowFault>> for FileFault {
    ghost from_gives = { λ f r. r ≡ Row f };

    fn from(f: Numbered<RowFault>) -> FileFault {
        FileFault::Row(f)
    }
}

impl From<FileFault> for ListFault {
    ghost from_gives = { λ f r. r ≡ File f };

    fn from(f: FileFault) -> ListFault {
        ListFault::File(f)
    }
}

// A refusal, and the row and the field of a file that it names, where it names one.
#[derive(Clone, Copy, PartialEq, Eq, Debug)]
pub struct Refusal {
    pub code: Code,
    pub row: Option<u32>,
    pub field: Option<u32>,
}

impl Refusal {
    // Of a whole file.
    pub fn of_file(code: Code) -> Refusal
        ensures { result ≡ refusal code None None }
    {
        Refusal {
            code,
            row: None,
            field: None,
        }
    }

    // Of a row.
    pub fn of_row(code: Code, row: u32) -> Refusal
        ensures { result ≡ refusal code (Some row) None }
    {
        Refusal {
            row: Some(row),
            ..Refusal::of_file(code)
        }
    }

    // Of a field of a row.
    pub fn of_field(code: Code, row: u32, field: u32) -> Refusal
        ensures { result ≡ refusal code (Some row) (Some field) }
    {
        Refusal {
            field: Some(field),
            ..Refusal::of_row(code, row)
        }
    }

    // The number of the refusal, its row and its field, as they are printed: a part that does not apply is 0.
    pub fn numbers(&self) -> [u32; 3]
        ensures { result ≡ printed_numbers self.now }
    {
        [
            self.code.number(),
            self.row.unwrap_or(0),
            self.field.unwrap_or(0),
        ]
    }
}

impl FileFault {
    // The refusal that a fault is printed as.
    pub fn refusal(&self) -> Refusal
        ensures { result ≡ refusal_of self.now }
    {
        let FileFault::Row(row) = *self else {
            return Refusal::of_file(Code::Size);
        };
        match row.fault {
            RowFault::Field(field) => {
                Refusal::of_field(field.fault.code(), row.number, field.number)
            }
            RowFault::Newline => Refusal::of_row(Code::Newline, row.number),
            RowFault::Order => Refusal::of_row(Code::Order, row.number),
            RowFault::Step(step) => Refusal::of_row(step.code(), row.number),
        }
    }
}

impl ListFault {
    // The refusal that a fault is printed as.
    pub fn refusal(&self) -> Refusal
        ensures { result ≡ list_refusal self.now }
    {
        match self {
            ListFault::File(file) => file.refusal(),
            ListFault::Room => Refusal::of_file(Code::Room),
        }
    }
}
