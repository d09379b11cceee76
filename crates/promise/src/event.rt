// The six calls of a gate as data, to be asked of it and as they were answered.
use pace::fault::UnknownClass;
use source::reply::{End, Reply};

// A call to be made: misses is asked of a class.
#[derive(Clone, Copy, PartialEq, Eq, Debug)]
pub enum Request {
    Head,
    Lapses,
    Take,
    Misses(u8),
    Clock,
    Released,
}

// A call with its answer.
#[derive(Clone, Copy, PartialEq, Eq, Debug)]
pub enum Event<B> {
    Head(Result<Reply<B>, End>),
    Lapses(Result<u32, End>),
    Take(Result<Reply<B>, End>),
    Misses(u8, Result<u32, UnknownClass>),
    Clock(u32),
    Released(u32),
}
