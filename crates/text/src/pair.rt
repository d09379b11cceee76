// A list and a schedule together: every class in the list has a step.
ghost use Rattle.std.specs.Prelude.{◌≡◌, take};
ghost use Rattle.pace.specs.Steps.{ladders_of};
ghost use Rattle.text.specs.Pairs.{pair_answer};
ghost use Rattle.text.specs.Refusals.{no_step_refusal};

use super::fault::Refusal;
use super::list::MOST_REPLIES;
use pace::steps::Steps;
use source::refusal::Code;
use source::reply::Reply;

// The row, from 1, of the first reply whose class has no step.
#[derive(Clone, Copy, PartialEq, Eq, Debug)]
pub struct NoStep {
    pub row: u32,
}

impl NoStep {
    // The refusal that it is printed as; it names the class, which is a list row's second field.
    pub fn refusal(&self) -> Refusal
        ensures { result ≡ no_step_refusal self.now }
    {
        Refusal::of_field(Code::NoStep, self.row, 2)
    }
}

// Checks that the class of each reply has a step; a class above 7 has none. A list has no more than 50,000 replies, so
// records past those are not looked at.
pub fn pair<B: Copy>(records: &[Reply<B>], steps: &Steps) -> Result<(), NoStep>
    ensures { result ≡ pair_answer (ladders_of steps.now) (take 50000 records.now) }
{
    let count = records.len().min(MOST_REPLIES);
    let first = records[..count]
        .iter()
        .position(|reply| !steps.has_step(reply.class));
    match first {
        Some(i) => Err(NoStep { row: i as u32 + 1 }),
        None => Ok(()),
    }
}
