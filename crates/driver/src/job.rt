// The whole job on bytes: a schedule and a list in, a page or a refusal line out.
ghost use Rattle.std.specs.Prelude.{◌≡◌, ℕ, ◌≤◌, length};
ghost use Rattle.pace.specs.Steps.{ladders_of, no_steps};
ghost use Rattle.promise.specs.Views.{View};
ghost use Rattle.driver.specs.Replays.{ReplayLeaves};
ghost use Rattle.driver.specs.declared.job.JobFault.TheVariants.{Pair, Page};
ghost use Rattle.std.specs.Option.{unwrap_or};
ghost use Rattle.driver.specs.Jobs.{place_of, job_rules, job_view, Prepares, JobLeaves, line_of, Prints};

use super::replay::{Replayed, replay};
use gate::Gate;
use gate::opening::Opening;
use pace::rules::OwnRule;
use pace::steps::Steps;
use rows::layout::REFUSAL_LINE;
use source::refusal::Refused;
use source::reply::Reply;
use source::trace::Trace;
use tally::line::PageFault;
use text::fault::{FileFault, Refusal};
use text::list::read_list;
use text::pair::{NoStep, pair};
use text::schedule::read_schedule;

// Why a job was refused: the schedule, the list, a class of the list without a step, or the page.
#[derive(Clone, Copy, PartialEq, Eq, Debug)]
pub enum JobFault {
    Schedule(FileFault),
    List(FileFault),
    Pair(NoStep),
    Page(PageFault),
}

// Written out, as is the one below, so that contracts know which fault `?` makes.
impl From<NoStep> for JobFault {
    ghost from_gives = { λ f r. r ≡ Pair f };

    fn from(f: NoStep) -> JobFault {
        JobFault::Pair(f)
    }
}

impl From<PageFault> for JobFault {
    ghost from_gives = { λ f r. r ≡ Page f };

    fn from(f: PageFault) -> JobFault {
        JobFault::Page(f)
    }
}

// The files of a job, by the number that a refusal names them with.
#[derive(Clone, Copy, PartialEq, Eq, Debug)]
pub enum File {
    Schedule = 1,
    List = 2,
    Page = 3,
}

// Where a job was refused: the file, and the refusal with what it names of the file.
#[derive(Clone, Copy, PartialEq, Eq, Debug)]
pub struct Place {
    pub file: File,
    pub refusal: Refusal,
}

impl JobFault {
    // Where the job was refused.
    pub fn place(&self) -> Place
        ensures { result ≡ place_of self.now }
    {
        match self {
            JobFault::Schedule(fault) => Place {
                file: File::Schedule,
                refusal: fault.refusal(),
            },
            JobFault::List(fault) => Place {
                file: File::List,
                refusal: fault.refusal(),
            },
            JobFault::Pair(fault) => Place {
                file: File::List,
                refusal: fault.refusal(),
            },
            JobFault::Page(fault) => Place {
                file: File::Page,
                refusal: Refusal::of_file(fault.code()),
            },
        }
    }
}

// Reads the schedule into the steps and then the list into the records, and pairs them; answers how many replies
// the list has. The buffers are the host's, and are lent on as they came.
fn prepare(
    schedule: &[u8],
    list: &[u8],
    steps: &mut Steps,
    records: &mut [Reply<u32>],
) -> Result<usize, JobFault>
    requires { ladders_of steps.old ≡ no_steps }
    ensures { Prepares schedule.now list.now (length records.old) (ladders_of steps.new) records.new result }
{
    read_schedule(schedule, steps).map_err(JobFault::Schedule)?;
    let count = read_list(list, records).map_err(JobFault::List)?;
    pair(&records[0..count], steps)?;
    Ok(count)
}

// The page of a gate over a trace of the replies, opened at 0, with the steps and the own rule.
fn print(replies: &[Reply<u32>], steps: Steps, out: &mut [u8]) -> Result<Replayed, PageFault>
    ensures { (w : View ℕ) × ReplayLeaves (job_rules (ladders_of steps)) (job_view replies.now) w out.old out.new result }
{
    let Ok(opening) = Opening::new(0) else {
        unreachable()
    };
    let mut gate = Gate::open(Trace::new(replies), steps, OwnRule, opening);
    replay(&mut gate, out)
}

// Reads the schedule, then the list into the records, pairs them, and prints the page of a gate over the list.
pub fn run(
    schedule: &[u8],
    list: &[u8],
    records: &mut [Reply<u32>],
    out: &mut [u8],
) -> Result<Replayed, JobFault>
    ensures { JobLeaves schedule.now list.now (length records.old) out.old out.new result }
{
    let mut steps = Steps::new();
    let count = prepare(schedule, list, &mut steps, records)?;
    let replayed = print(&records[0..count], steps, out)?;
    Ok(replayed)
}

// A refusal line: four numbers, each in six columns, and a newline.
pub type RefusalLine = [u8; 25];

// The line of a place: the numbers of the refusal and of its file, its row and its field.
fn line(place: Place) -> RefusalLine
    requires row { unwrap_or place.refusal.row 0 ≤ 50000 }
    requires field { unwrap_or place.refusal.field 0 ≤ 9 }
    ensures { result ≡ line_of place }
{
    let [number, row, field] = place.refusal.numbers();
    let values = [number, place.file as u32, row, field].map(u64::from);
    let mut line = [0; 25];
    let Ok(()) = REFUSAL_LINE.write(&values, &mut line) else {
        unreachable()
    };
    line
}

// The whole job: the page of a schedule and a list, as that many bytes of the buffer, or the line of the refusal. The
// records hold the list.
pub fn job(
    schedule: &[u8],
    list: &[u8],
    records: &mut [Reply<u32>],
    out: &mut [u8],
) -> Result<usize, RefusalLine>
    ensures { Prints schedule.now list.now (length records.old) out.old out.new result }
{
    match run(schedule, list, records, out) {
        Ok(replayed) => Ok(replayed.length),
        Err(fault) => Err(line(fault.place())),
    }
}
