// The rows of a page: one for each release, and the foot.
ghost use Rattle.std.specs.Prelude.{◌≡◌, [], ◌∷◌};
ghost use Rattle.tally.specs.Refusals.{page_fault_code};

use promise::release::Release;
use source::refusal::{Code, Refused};

// A page holds at most this many rows; its foot is extra.
pub const MOST_ROWS: u32 = 50_000;

// The bytes of a row, and of the foot.
pub const LINE: usize = 36;

// A release: when it was asked, its class, when it was released, and how many predictions it missed.
#[derive(Clone, Copy, PartialEq, Eq, Debug)]
pub struct PageRow {
    pub asked: u32,
    pub class: u8,
    pub release: u32,
    pub misses: u32,
}

// The row of a reply that is released, ready at its release tick.
impl<B: Copy> From<Release<B>> for PageRow {
    ghost from_gives = { λ x r. r ≡ record { asked = x.reply.asked; «class» = x.reply.«class»; release = x.reply.ready; misses = x.misses } };

    fn from(released: Release<B>) -> PageRow {
        PageRow {
            asked: released.reply.asked,
            class: released.reply.class,
            release: released.reply.ready,
            misses: released.misses,
        }
    }
}

impl PageRow {
    // The numbers of its line, of which the row's own number is the first.
    pub fn numbers(&self, number: u32) -> [u64; 5]
        ensures { result ≡ number ∷ self.now.asked ∷ self.now.«class» ∷ self.now.release ∷ self.now.misses ∷ [] }
    {
        [
            u64::from(number),
            u64::from(self.asked),
            u64::from(self.class),
            u64::from(self.release),
            u64::from(self.misses),
        ]
    }
}

// The foot: the number of rows, the last release or else the opening, the number of classes that occur, the bits that
// the timing of the page can tell at most, and the misses of all rows.
#[derive(Clone, Copy, PartialEq, Eq, Debug)]
pub struct Foot {
    pub rows: u32,
    pub clock: u32,
    pub classes: u32,
    pub bits: u32,
    pub misses: u32,
}

impl Foot {
    // The numbers of its line, after the "=".
    pub fn numbers(&self) -> [u64; 5]
        ensures { result ≡ self.now.rows ∷ self.now.clock ∷ self.now.classes ∷ self.now.bits ∷ self.now.misses ∷ [] }
    {
        [
            u64::from(self.rows),
            u64::from(self.clock),
            u64::from(self.classes),
            u64::from(self.bits),
            u64::from(self.misses),
        ]
    }
}

// Why a page took no row, or could not be begun or closed: the class is above 7; the row breaks the order or its
// range; or there is no room.
#[derive(Clone, Copy, PartialEq, Eq, Debug)]
pub enum PageFault {
    Class,
    Order,
    Room,
}

impl Refused for PageFault {
    ghost refusal = { page_fault_code };

    fn code(&self) -> Code {
        match self {
            PageFault::Class => Code::Class,
            PageFault::Order => Code::Order,
            PageFault::Room => Code::Room,
        }
    }
}
