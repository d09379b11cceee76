// A pace that doubles each class's quantum with each epoch.
ghost use Rattle.std.specs.Prelude.{◌≡◌, ◌<◌, ◌≤◌, Ok, Err, slice_set};
ghost use Rattle.pace.specs.declared.fault.QuantumFault.{QuantumFault};
ghost use Rattle.pace.specs.Doubling.{quanta_of, new_quanta, quantum_at, set_answer};
ghost use Rattle.pace.specs.Steps.{doubled};
ghost use Rattle.std.proofs.Common.{le_refl};
ghost use Rattle.std.proofs.Math.Nat.{min-le_right};
ghost use Rattle.pace.specs.Quanta.{quantum_bounds};

use super::doubled::doubled;
use super::fault::{QuantumFault, UnknownClass};
use super::quantum::Quantum;
use super::{LARGEST_QUANTUM, Pace};
use source::class::Class;

// The quantum of each class, in a plain table.
#[derive(Clone, Copy)]
pub struct Doubling {
    quanta: [Quantum; 8],
}

impl Doubling {
    // A table with the largest quantum for each class.
    pub fn new() -> Doubling
        ensures { quanta_of result ≡ new_quanta }
    {
        let Ok(largest) = Quantum::new(LARGEST_QUANTUM) else {
            unreachable()
        };
        Doubling {
            quanta: [largest; 8],
        }
    }

    // Gives a class its quantum; refused, it leaves every class as it was.
    pub fn set(&mut self, class: u8, quantum: u32) -> Result<(), QuantumFault>
        ensures value { result ≡ set_answer «class» quantum }
        ensures after { quanta_of self.new ≡ elim result [ Ok _ ↦ slice_set (quanta_of self.old) «class» quantum | Err _ ↦ quanta_of self.old ] }
        ensures refused { (f : QuantumFault) → result ≡ Err f → self.new ≡ self.old }
    {
        let index = Class::try_from(class)?.index();
        self.quanta[index] = Quantum::new(quantum)?;
        Ok(())
    }

    // The quantum of a class. Steps have such a method of their own: of one table for both, each caller would owe a
    // proof of what this says once.
    fn of_class(&self, class: u8) -> Result<&Quantum, UnknownClass>
        ensures { elim result [ Ok q ↦ («class» ≤ 7) × (q.now.value ≡ quantum_at (quanta_of self.now) «class») | Err _ ↦ 7 < «class» ] }
    {
        Ok(&self.quanta[Class::try_from(class)?.index()])
    }
}

impl Pace for Doubling {
    ghost quanta = { λ d c. quantum_at (quanta_of d) c };

    ghost waits = { λ d c e. doubled (quantum_at (quanta_of d) c) e };

    ghost lawful = { λ p.
        record {
          quantum_low = λ c _. (quantum_bounds p.quanta c).0;
          quantum_high = λ c _. (quantum_bounds p.quanta c).1;
          wait_low = λ c e _. le_refl _;
          wait_high = λ c e _. min-le_right _ _;
        } };

    fn quantum(&self, class: u8) -> Result<u32, UnknownClass> {
        Ok(self.of_class(class)?.value())
    }

    fn wait(&self, class: u8, epoch: u32) -> Result<u32, UnknownClass> {
        Ok(doubled(self.of_class(class)?.value(), epoch))
    }
}
