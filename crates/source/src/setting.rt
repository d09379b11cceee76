// Settings that were checked once, and are in range ever after.
ghost use Rattle.std.specs.Prelude.{◌≡◌, ◌≤◌, Ok, Err};
ghost use Rattle.source.specs.Settings.{checked};

use super::fault::OutOfRange;

// The largest width of a bucket.
pub const LARGEST_WIDTH: u32 = 1_000_000;

// A number from LOW to HIGH.
#[derive(Clone, Copy, PartialEq, Eq, Debug)]
pub struct Setting<const LOW: u32, const HIGH: u32> {
    value: u32,
    ghost low: { LOW ≤ value },
    ghost high: { value ≤ HIGH },
}

impl<const LOW: u32, const HIGH: u32> Setting<LOW, HIGH> {
    // The number as a setting, if it is in range. It is no `TryFrom`, so that a literal can be handed to it.
    pub fn new(value: u32) -> Result<Setting<LOW, HIGH>, OutOfRange>
        ensures { elim result [ Ok s ↦ Ok s.value | Err e ↦ Err e ] ≡ checked LOW HIGH value }
    {
        if value < LOW || value > HIGH {
            return Err(OutOfRange);
        }
        Ok(Setting { value })
    }

    // The number.
    pub fn value(&self) -> u32
        ensures value { result ≡ self.now.value }
        ensures low { LOW ≤ result }
        ensures high { result ≤ HIGH }
    {
        self.value
    }
}

// The width of a bucket, from 1 to 1,000,000 ticks.
pub type Width = Setting<1, LARGEST_WIDTH>;
