// A trace: replies read from records in the host's buffer.
ghost use Rattle.std.specs.Prelude.{◌≡◌, take, drop};
ghost use Rattle.source.specs.declared.reply.End.TheVariants.{Dry};
ghost use Rattle.source.specs.Replies.{first, LongestLawful};
ghost use Rattle.source.specs.Traces.{shown, NextOf};
ghost use Rattle.source.specs.Beginnings.{beginning_lawful, lawful_alone};

use super::Source;
use super::buffer::Buffer;
use super::reply::{End, Reply};

// A trace reads no further than this many records.
pub const MOST_RECORDS: usize = 50_000;

// The records, how many were taken, and the asked tick of the last one taken. A bench keeps
// the same of its jobs: a cursor for both would hold two numbers and no code. The buffer is a type parameter, since a
// host's need be no slice.
#[derive(Drop)]
pub struct Trace<R> {
    records: R,
    taken: usize,
    last: u32,
}

impl<B: Copy, R: Buffer<Item = Reply<B>>> Trace<R> {
    // A trace of the longest lawful beginning of the first 50,000 records.
    pub fn new(records: R) -> Trace<R>
        ensures value { result ≡ record { records = records; taken = 0; last = 0 } }
        ensures longest { LongestLawful (take 50000 (R.Buffer.items records)) (shown (R.Buffer.items result.records) result) }
    {
        Trace {
            records,
            taken: 0,
            last: 0,
        }
    }

    // The reply that would be taken next, or why there is none.
    fn next_reply(&self) -> Result<Reply<B>, End>
        ensures value { result ≡ first (shown (R.Buffer.items self.now.records) self.now) Dry }
        ensures next { NextOf (R.Buffer.items self.now.records) self.now result }
    {
        self.records
            .early(self.taken)
            .filter(|reply| reply.follows(self.last))
            .ok_or(End::Dry)
    }
}

impl<B: Copy, R: Buffer<Item = Reply<B>>> Source for Trace<R> {
    type Body = B;

    ghost coming = { λ t. shown (R.Buffer.items t.records) t };

    ghost mark = { λ _. Dry };

    ghost lawful = { λ s. lawful_alone s.last _ (beginning_lawful s.last (drop s.taken (take 50000 (R.Buffer.items s.records)))) };

    fn head(&self) -> Result<Reply<B>, End> {
        self.next_reply()
    }

    fn take(&mut self) -> Result<Reply<B>, End> {
        let reply = self.next_reply()?;
        self.taken += 1;
        self.last = reply.asked;
        Ok(reply)
    }
}
