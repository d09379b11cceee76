// How long a gate waits: paces give each class its waits, penalty rules turn misses into an epoch.
#![tactic(auto)]

ghost use Rattle.std.specs.Prelude.{◌≡◌, ℕ};
ghost use Rattle.pace.specs.Laws.{PaceLaws, PenaltyLaw, quantum_answer, wait_answer};

use fault::UnknownClass;

mod doubled;
pub mod doubling;
pub mod fault;
mod ladder;
mod quantum;
pub mod rules;
pub mod steps;

// The largest quantum, and the quantum of a class that was given none.
pub const LARGEST_QUANTUM: u32 = 1_000_000;

// A pace, by the quantum of each class and the wait of each class at each epoch.
pub trait Pace {
    ghost quanta: { Self → ℕ → ℕ };

    ghost waits: { Self → ℕ → ℕ → ℕ };

    // The shortest wait that the class can have.
    fn quantum(&self, class: u8) -> Result<u32, UnknownClass>
        ensures { result ≡ quantum_answer (quanta self.now) «class» };

    // The wait of the class at an epoch.
    fn wait(&self, class: u8, epoch: u32) -> Result<u32, UnknownClass>
        ensures { result ≡ wait_answer (waits self.now) «class» epoch };

    ghost lawful: { (p : Self) → PaceLaws (quanta p) (waits p) };
}

// A penalty rule, by the epoch that it gives for a class's own misses and all classes' misses.
pub trait Penalty {
    ghost rule: { Self → ℕ → ℕ → ℕ };

    // The epoch for so many own misses and so many misses in all.
    fn epoch(&self, own: u32, all: u32) -> u32
        ensures { result ≡ rule self.now own all };

    ghost lawful: { (p : Self) → PenaltyLaw (rule p) };
}
