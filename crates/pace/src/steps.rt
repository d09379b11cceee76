// A pace by steps: up to sixteen waits written out for each class, and doubling from the last one on.
ghost use Rattle.std.specs.Prelude.{◌≡◌, ◌<◌, ◌≤◌, [], ◌∷◌, ◌++◌, Ok, Err};
ghost use Rattle.pace.specs.declared.fault.StepFault.{StepFault};
ghost use Rattle.pace.specs.Steps.{ladder_of, ladders_of, no_steps, ladder, has_step, steps_quantum, steps_wait, step_answer, add_answer, added};
ghost use Rattle.pace.specs.Ladders.{ladders_sound};
ghost use Rattle.pace.specs.Waits.{quantum_low, quantum_high, wait_low, wait_high};

use super::doubled::doubled;
use super::fault::{StepFault, UnknownClass};
use super::ladder::{ClassSteps, MOST_STEPS};
use super::{LARGEST_QUANTUM, Pace};
use source::class::Class;
use source::reply::HORIZON;

// The steps of each class, in a plain table.
#[derive(Clone, Copy)]
pub struct Steps {
    classes: [ClassSteps; 8],
}

impl ClassSteps {
    // A class with no step.
    fn new() -> ClassSteps
        ensures { ladder_of result ≡ [] }
    {
        ClassSteps {
            count: 0,
            waits: [0; 16],
        }
    }

    // The steps, from the wait at epoch 0 on.
    fn steps(&self) -> &[u32]
        ensures { result.now ≡ ladder_of self.now }
    {
        &self.waits[..self.count as usize]
    }

    fn quantum(&self) -> u32
        ensures { result ≡ steps_quantum (ladder_of self.now) }
    {
        self.steps().first().copied().unwrap_or(LARGEST_QUANTUM)
    }

    fn wait(&self, epoch: u32) -> u32
        ensures { result ≡ steps_wait (ladder_of self.now) epoch }
    {
        let steps = self.steps();
        if let Some(wait) = steps.get(epoch as usize) {
            return *wait;
        }
        match steps.last() {
            Some(last) => doubled(*last, epoch - (self.count - 1)),
            None => doubled(LARGEST_QUANTUM, epoch),
        }
    }

    // Whether a wait can be the next step, or why it cannot. Epoch and wait are handed on as they came.
    fn judge(&self, epoch: u32, wait: u32) -> Result<(), StepFault>
        ensures { result ≡ step_answer (ladder_of self.now) epoch wait }
    {
        let Some(first) = self.steps().first() else {
            return judge_first(epoch, wait);
        };
        let count = self.count;
        let least = doubled(*first, count);
        if wait > HORIZON {
            Err(StepFault::Range)
        } else if count == MOST_STEPS || wait < least || epoch != count {
            Err(StepFault::Order)
        } else {
            Ok(())
        }
    }

    // The class with one more step, which was judged.
    fn with(&self, epoch: u32, wait: u32) -> ClassSteps
        requires { step_answer (ladder_of self.now) epoch wait ≡ Ok tt }
        ensures { ladder_of result ≡ ladder_of self.now ++ wait ∷ [] }
    {
        let mut waits = self.waits;
        waits[self.count as usize] = wait;
        ClassSteps {
            count: self.count + 1,
            waits,
        }
    }
}

// Whether a wait can be the first step of a class.
fn judge_first(epoch: u32, wait: u32) -> Result<(), StepFault>
    ensures { result ≡ step_answer [] epoch wait }
{
    if wait < 1 || wait > LARGEST_QUANTUM {
        Err(StepFault::Range)
    } else if epoch == 0 {
        Ok(())
    } else {
        Err(StepFault::Order)
    }
}

impl Steps {
    // A pace without steps.
    pub fn new() -> Steps
        ensures { ladders_of result ≡ no_steps }
    {
        Steps {
            classes: [ClassSteps::new(); 8],
        }
    }

    // Adds the wait of a class at its next epoch; refused, it leaves every class as it was.
    pub fn add(&mut self, class: u8, epoch: u32, wait: u32) -> Result<(), StepFault>
        ensures value { result ≡ add_answer (ladders_of self.old) «class» epoch wait }
        ensures after { ladders_of self.new ≡ elim result [ Ok _ ↦ added (ladders_of self.old) «class» wait | Err _ ↦ ladders_of self.old ] }
        ensures refused { (f : StepFault) → result ≡ Err f → self.new ≡ self.old }
    {
        let index = Class::try_from(class)?.index();
        let steps = self.classes[index];
        steps.judge(epoch, wait)?;
        self.classes[index] = steps.with(epoch, wait);
        Ok(())
    }

    // Whether a class was given a step.
    pub fn has_step(&self, class: u8) -> bool
        ensures { result ≡ has_step (ladders_of self.now) «class» }
    {
        self.of_class(class).is_ok_and(|steps| steps.count > 0)
    }

    // The steps of a class. The doubling pace has such a method of its own: of one table for both, each caller would
    // owe a proof of what this says once.
    fn of_class(&self, class: u8) -> Result<&ClassSteps, UnknownClass>
        ensures { elim result [ Ok s ↦ («class» ≤ 7) × (ladder_of s.now ≡ ladder (ladders_of self.now) «class») | Err _ ↦ 7 < «class» ] }
    {
        Ok(&self.classes[Class::try_from(class)?.index()])
    }
}

impl Pace for Steps {
    ghost quanta = { λ s c. steps_quantum (ladder (ladders_of s) c) };

    ghost waits = { λ s c e. steps_wait (ladder (ladders_of s) c) e };

    ghost lawful = { λ p.
        record {
          quantum_low = λ c _. quantum_low _ (ladders_sound p.classes c);
          quantum_high = λ c _. quantum_high _ (ladders_sound p.classes c);
          wait_low = λ c e _. wait_low _ (ladders_sound p.classes c) e;
          wait_high = λ c e _. wait_high _ (ladders_sound p.classes c) e;
        } };

    fn quantum(&self, class: u8) -> Result<u32, UnknownClass> {
        Ok(self.of_class(class)?.quantum())
    }

    fn wait(&self, class: u8, epoch: u32) -> Result<u32, UnknownClass> {
        Ok(self.of_class(class)?.wait(epoch))
    }
}
