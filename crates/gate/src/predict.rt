// How a release tick is predicted.
ghost use Rattle.std.specs.Prelude.{◌≡◌, ◌+◌, ◌^◌, ◌<◌, ◌≤◌, nat_le};
ghost use Rattle.promise.specs.Rules.{rules_of};
ghost use Rattle.promise.specs.Predictions.{predict, Predicted, Comes};

use pace::{Pace, Penalty};
use promise::release::Settled;
use source::reply::HORIZON;

// What the predictions for a reply start from: its class and ready tick, the misses of its class and of all classes,
// and the base, which the first wait is added to.
#[derive(Clone, Copy)]
pub struct Pending {
    pub(crate) class: u8,
    pub(crate) ready: u32,
    pub(crate) own: u32,
    pub(crate) all: u32,
    pub(crate) base: u32,
    ghost known: { «class» ≤ 7 },
    ghost part: { own ≤ all },
    ghost within: { base ≤ 1000000000 },
}

impl Pending {
    // Whether the reply is ready by a tick.
    fn ready_by(&self, tick: u32) -> bool
        ensures { result ≡ nat_le self.now.ready tick }
    {
        self.ready <= tick
    }

    // After a prediction was missed: one miss more, and that prediction is the new base. It is built whole, since a
    // struct with facts in its type cannot be written by what differs.
    fn missed(&self, tick: u32) -> Pending
        requires few { self.now.all + 1 < 2 ^ 32 }
        requires within { tick ≤ 1000000000 }
        ensures same { (result.«class» ≡ self.now.«class») × (result.ready ≡ self.now.ready) }
        ensures after { (result.own ≡ self.now.own + 1) × (result.all ≡ self.now.all + 1) × (result.base ≡ tick) }
    {
        Pending {
            class: self.class,
            ready: self.ready,
            own: self.own + 1,
            all: self.all + 1,
            base: tick,
        }
    }
}

// The pace and the penalty rule that predictions are made by.
#[derive(Drop)]
pub(crate) struct Predictor<'a, P, R> {
    pub(crate) pace: &'a P,
    pub(crate) penalty: &'a R,
}

impl<P: Pace, R: Penalty> Predictor<'_, P, R> {
    // One prediction: the base and the wait that the misses call for, or nothing where that passes the horizon.
    fn prediction(&self, pending: Pending) -> Option<u32>
        ensures { Predicted (predict (rules_of P.Pace R.Penalty self.now.pace.now self.now.penalty.now) pending.«class» pending.base pending.own pending.all) result }
    {
        let epoch = self.penalty.epoch(pending.own, pending.all);
        let Ok(wait) = self.pace.wait(pending.class, epoch) else {
            unreachable()
        };
        pending
            .base
            .checked_add(wait)
            .filter(|tick| *tick <= HORIZON)
    }

    // Predicts until a prediction is not before the ready tick, or passes the horizon.
    pub(crate) fn settle(&self, pending: Pending) -> Option<Settled>
        requires { pending.all ≤ 232 }
        ensures { Comes (rules_of P.Pace R.Penalty self.now.pace.now self.now.penalty.now) pending.«class» pending.ready pending.base pending.own pending.all result }
    {
        let mut next = pending;
        let mut misses = 0;
        loop {
            let tick = self.prediction(next)?;
            if next.ready_by(tick) {
                return Some(Settled { tick, misses });
            }
            misses += 1;
            next = next.missed(tick);
        }
    }
}
