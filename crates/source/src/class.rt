// Classes that were checked once, and are known ever after.
ghost use Rattle.std.specs.Prelude.{◌≡◌, ◌<◌, ◌≤◌, MatchResult};

use super::fault::UnknownClass;
use super::reply::LAST_CLASS;

// A class from 0 to 7.
#[derive(Clone, Copy, PartialEq, Eq, Debug)]
pub struct Class {
    number: u8,
    ghost known: { number ≤ 7 },
}

impl TryFrom<u8> for Class {
    type Error = UnknownClass;

    ghost try_from_gives = { λ n r. MatchResult r (λ c. (n ≤ 7) × (c.number ≡ n)) (λ _. 7 < n) };

    fn try_from(number: u8) -> Result<Class, UnknownClass> {
        if number > LAST_CLASS {
            return Err(UnknownClass);
        }
        Ok(Class { number })
    }
}

impl Class {
    // The place of the class in a table.
    pub fn index(self) -> usize
        ensures value { result ≡ self.number }
        ensures known { result ≤ 7 }
    {
        usize::from(self.number)
    }
}
