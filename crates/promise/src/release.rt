// What the predictions for a reply come to.
use source::reply::Reply;

// The release tick of a reply, and how many predictions were missed before.
#[derive(Clone, Copy)]
pub struct Settled {
    pub tick: u32,
    pub misses: u32,
}

// A reply as it is released, its ready tick the release tick, and how many predictions it missed.
#[derive(Clone, Copy)]
pub struct Release<B> {
    pub reply: Reply<B>,
    pub misses: u32,
}
