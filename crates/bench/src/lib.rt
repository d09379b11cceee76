// A bench: replies that servers work out from jobs in the host's buffer.
#![tactic(auto)]

ghost use Rattle.std.specs.Prelude.{◌≡◌, ◌<◌, [], take, drop, replicate, IfOk, slice_set};
ghost use Rattle.bench.specs.Benches.{free_of, earliest, job_follows, shift_answer, shifts, shifts_mark, replies, first_shift, NextOf, Plan};
ghost use Rattle.source.specs.Beginnings.{lawful_alone};
ghost use Rattle.bench.specs.Plans.{plan_lawful};

use setting::ServerCount;
use source::Source;
use source::buffer::Buffer;
use source::reply::{End, HORIZON, LAST_CLASS, Reply};

pub mod setting;

// The most work of a job.
pub const MOST_WORK: u32 = 1_000_000;

// A job: when it was asked, its class, how many ticks of work it is, and the body of its reply.
#[derive(Clone, Copy, PartialEq, Eq, Debug)]
pub struct Job<B> {
    pub asked: u32,
    pub class: u8,
    pub work: u32,
    pub body: B,
}

impl<B> Job<B> {
    // Whether the job is in range and may follow one asked at `last`. A reply is judged alike, but by its ready tick.
    pub fn follows(&self, last: u32) -> bool
        ensures { result ≡ job_follows last self.now }
    {
        last <= self.asked
            && self.asked <= HORIZON
            && self.class <= LAST_CLASS
            && self.work <= MOST_WORK
    }
}

// How many servers there are, and the tick at which each of them is free: by a rule of the project four ticks by value,
// of which the first `number` count.
#[derive(Clone, Copy)]
struct Servers {
    number: ServerCount,
    free: [u32; 4],
}

impl Servers {
    // Servers that are all free at tick 0.
    fn new(number: ServerCount) -> Servers
        ensures { result ≡ record { number = number; free = replicate 4 0 } }
    {
        Servers {
            number,
            free: [0; 4],
        }
    }

    // The tick at which each server is free.
    fn free(&self) -> &[u32]
        ensures { result.now ≡ free_of self.now }
    {
        &self.free[..self.number.count]
    }

    // The server that is free earliest, the lowest-numbered on a tie.
    fn earliest(&self) -> usize
        ensures value { result ≡ earliest (free_of self.now) }
        ensures known { result < self.now.number.count }
    {
        let free = self.free();
        let mut first = 0;
        for (server, tick) in free.iter().enumerate() {
            if *tick < free[first] {
                first = server;
            }
        }
        first
    }

    // Keeps a server busy up to a tick.
    fn occupy(&mut self, server: usize, until: u32)
        requires { server < self.old.number.count }
        ensures after { free_of self.new ≡ slice_set (free_of self.old) server until }
        ensures same { self.new.number ≡ self.old.number }
    {
        self.free[server] = until;
    }
}

// A job on its server: when it starts, and the reply that it gives.
#[derive(Clone, Copy)]
struct Shift<B> {
    server: usize,
    start: u32,
    reply: Reply<B>,
}

// The jobs, how many were taken, the asked tick of the last one taken, and the servers. A trace keeps the same of its
// records: a cursor for both would hold two numbers and no code.
#[derive(Drop)]
pub struct Bench<J> {
    jobs: J,
    taken: usize,
    last: u32,
    servers: Servers,
}

impl<B: Copy, J: Buffer<Item = Job<B>>> Bench<J> {
    // A bench for the first 50,000 jobs.
    pub fn new(jobs: J, servers: ServerCount) -> Bench<J>
        ensures value { result ≡ record { jobs = jobs; taken = 0; last = 0; servers = record { number = servers; free = replicate 4 0 } } }
        ensures planned { Plan servers.count [] 0 (take 50000 (J.Buffer.items jobs)) (shifts (J.Buffer.items result.jobs) result) (shifts_mark (J.Buffer.items result.jobs) result) }
    {
        Bench {
            jobs,
            taken: 0,
            last: 0,
            servers: Servers::new(servers),
        }
    }

    // The shift of a job on the server that is free earliest, or the mark that the job ends the list with.
    fn shift(&self, job: Job<B>) -> Result<Shift<B>, End>
        ensures value { result ≡ shift_answer self.now.last (free_of self.now.servers) job }
        ensures known { IfOk result (λ x. x.server < self.now.servers.number.count) }
    {
        if !job.follows(self.last) {
            return Err(End::Dry);
        }
        let server = self.servers.earliest();
        let start = job.asked.max(self.servers.free[server]);
        if start > HORIZON - job.work {
            return Err(End::Horizon);
        }
        // Written out: a job is no reply, and is worked first.
        let reply = Reply {
            asked: job.asked,
            class: job.class,
            ready: start + job.work,
            body: job.body,
        };
        Ok(Shift {
            server,
            start,
            reply,
        })
    }

    // The shift that would be taken next, or why there is none.
    fn next_shift(&self) -> Result<Shift<B>, End>
        ensures value { result ≡ first_shift (shifts (J.Buffer.items self.now.jobs) self.now) (shifts_mark (J.Buffer.items self.now.jobs) self.now) }
        ensures next { NextOf (J.Buffer.items self.now.jobs) self.now result }
    {
        let job = self.jobs.early(self.taken).ok_or(End::Dry)?;
        self.shift(job)
    }
}

impl<B: Copy, J: Buffer<Item = Job<B>>> Source for Bench<J> {
    type Body = B;

    ghost coming = { λ b. replies (shifts (J.Buffer.items b.jobs) b) };

    ghost mark = { λ b. shifts_mark (J.Buffer.items b.jobs) b };

    ghost lawful = { λ b. lawful_alone b.last _ (plan_lawful b.last (free_of b.servers) (drop b.taken (take 50000 (J.Buffer.items b.jobs)))) };

    fn head(&self) -> Result<Reply<B>, End> {
        Ok(self.next_shift()?.reply)
    }

    fn take(&mut self) -> Result<Reply<B>, End> {
        let shift = self.next_shift()?;
        self.taken += 1;
        self.last = shift.reply.asked;
        self.servers.occupy(shift.server, shift.reply.ready);
        Ok(shift.reply)
    }
}
