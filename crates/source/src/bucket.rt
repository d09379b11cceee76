// A bucket: a source whose replies are ready at multiples of a width only.
ghost use Rattle.std.specs.Prelude.{◌≡◌};
ghost use Rattle.source.specs.Buckets.{LeastMultiple, raise, raise_answer, raised, raised_mark};
ghost use Rattle.source.specs.Raises.{raised_lawful};

use super::Source;
use super::reply::{End, HORIZON, Reply};
use super::setting::Width;

impl Width {
    // A tick raised to the least multiple of the width not below it, or the mark where that passes the horizon.
    pub fn raise(&self, tick: u32) -> Result<u32, End>
        ensures value { result ≡ raise_answer self.now.value tick }
        ensures least { LeastMultiple self.now.value tick (raise self.now.value tick) }
    {
        if tick > HORIZON {
            return Err(End::Horizon);
        }
        let up = tick.next_multiple_of(self.value());
        if up <= HORIZON {
            Ok(up)
        } else {
            Err(End::Horizon)
        }
    }
}

// The source below, and the width.
#[derive(Drop)]
pub struct Bucket<S> {
    source: S,
    width: Width,
}

impl<S: Source> Bucket<S> {
    // A bucket over a source.
    pub fn new(source: S, width: Width) -> Bucket<S>
        ensures { result ≡ record { source = source; width = width } }
    {
        Bucket { source, width }
    }
}

impl<S: Source> Source for Bucket<S> {
    type Body = S::Body;

    ghost coming = { λ b. raised b.width.value (S.Source.coming b.source) };

    ghost mark = { λ b. raised_mark b.width.value (S.Source.coming b.source) (S.Source.mark b.source) };

    ghost lawful = { λ b. raised_lawful b.width.value b.width.low 0 _ (S.Source.lawful b.source) };

    fn head(&self) -> Result<Reply<S::Body>, End> {
        let reply = self.source.head()?;
        let ready = self.width.raise(reply.ready)?;
        Ok(Reply { ready, ..reply })
    }

    fn take(&mut self) -> Result<Reply<S::Body>, End> {
        let reply = self.head()?;
        let _ = self.source.take();
        Ok(reply)
    }
}
