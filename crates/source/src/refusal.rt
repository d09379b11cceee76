// The refusals, each with its number.
ghost use Rattle.std.specs.Prelude.{◌≡◌};
ghost use Rattle.source.specs.declared.refusal.Code.{Code};
ghost use Rattle.source.specs.Refusals.{number_of};

// What is refused, by the number that it is printed as.
#[derive(Clone, Copy, PartialEq, Eq, Debug)]
pub enum Code {
    // A field is not in its form.
    Form = 1,
    // A number passes its field's limit.
    Limit = 2,
    // A row has no newline at its end.
    Newline = 3,
    // A file has a wrong size.
    Size = 4,
    // A row is out of order or out of its range.
    Order = 5,
    // No reply is left.
    Dry = 6,
    // The next reply would pass the horizon.
    Horizon = 7,
    // A class is above 7.
    Class = 8,
    // A setting or a step is out of its range.
    Range = 9,
    // A step is out of order.
    Step = 10,
    // A buffer is too short.
    Room = 11,
    // A listed class has no step.
    NoStep = 12,
    // No row lies where one was asked for.
    NoRow = 13,
}

impl Code {
    // The number of the refusal.
    pub fn number(self) -> u32
        ensures { result ≡ number_of self }
    {
        self as u32
    }
}

// A fault that is one of the refusals.
pub trait Refused {
    ghost refusal: { Self → Code };

    // Which refusal it is.
    fn code(&self) -> Code
        ensures { result ≡ refusal self.now };

    // The number of the refusal.
    final fn number(&self) -> u32
        ensures { result ≡ number_of (refusal self.now) }
    {
        self.code().number()
    }
}
