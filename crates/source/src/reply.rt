// A reply of a service, and how a list of replies ends.
ghost use Rattle.std.specs.Prelude.{◌≡◌};
ghost use Rattle.source.specs.Refusals.{end_code};
ghost use Rattle.source.specs.Replies.{follows};

use super::refusal::{Code, Refused};

// The horizon: the last tick.
pub const HORIZON: u32 = 1_000_000_000;

// Classes go from 0 to this one.
pub const LAST_CLASS: u8 = 7;

// A reply: when it was asked, its class, when it is ready, and a body of any kind that is copied whole.
// The asked tick and the class are public, the rest is secret.
#[derive(Clone, Copy, PartialEq, Eq, Debug)]
pub struct Reply<B> {
    pub asked: u32,
    pub class: u8,
    pub ready: u32,
    pub body: B,
}

impl<B> Reply<B> {
    // Whether the reply is in range and may follow one asked at `last`. A job is judged alike, but by its work.
    pub fn follows(&self, last: u32) -> bool
        ensures { result ≡ follows last self.now }
    {
        last <= self.asked
            && self.asked <= self.ready
            && self.ready <= HORIZON
            && self.class <= LAST_CLASS
    }
}

// Why a list of replies ended: no more came, or the next one would pass the horizon.
#[derive(Clone, Copy, PartialEq, Eq, Debug)]
pub enum End {
    Dry,
    Horizon,
}

impl Refused for End {
    ghost refusal = { end_code };

    fn code(&self) -> Code {
        match self {
            End::Dry => Code::Dry,
            End::Horizon => Code::Horizon,
        }
    }
}
