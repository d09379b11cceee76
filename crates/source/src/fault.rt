// What a checked setting or class refuses. Each is a type of its own, as it is all that its calls can refuse.
ghost use Rattle.source.specs.declared.refusal.Code.TheVariants as code;

use super::refusal::{Code, Refused};

// A setting is below its lowest value or above its highest.
#[derive(Clone, Copy, PartialEq, Eq, Debug)]
pub struct OutOfRange;

impl Refused for OutOfRange {
    ghost refusal = { λ _. code.Range };

    fn code(&self) -> Code {
        Code::Range
    }
}

// A class is above 7.
#[derive(Clone, Copy, PartialEq, Eq, Debug)]
pub struct UnknownClass;

impl Refused for UnknownClass {
    ghost refusal = { λ _. code.Class };

    fn code(&self) -> Code {
        Code::Class
    }
}
