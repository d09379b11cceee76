// A gate: holds each reply of a source and lets it go at a predicted tick.
#![tactic(auto)]

ghost use Rattle.std.specs.Prelude.{◌≡◌, ◌≤◌, IfOk, Err};
ghost use Rattle.source.specs.declared.reply.End.{End};
ghost use Rattle.promise.specs.Rules.{rules_of};
ghost use Rattle.promise.specs.Views.{opened, settled, base, released, ending, release, reply_of, Timely};
ghost use Rattle.promise.specs.declared.event.Event.TheVariants as event;
ghost use Rattle.promise.specs.Promise.{Promise};
ghost use Rattle.promise.proofs.Releases.{released_lawful};
ghost use Rattle.gate.specs.Gates.{view_of, rules_in, standing_of, GateCall};

use ledger::Ledger;
use opening::Opening;
use pace::fault::UnknownClass;
use pace::{Pace, Penalty};
use predict::{Pending, Predictor};
use promise::release::{Release, Settled};
use source::Source;
use source::class::Class;
use source::reply::{End, Reply};

pub mod ledger;
pub mod opening;
pub mod predict;
pub mod row;

// A gate over a source, with its pace, its penalty rule and its ledger.
#[derive(Drop)]
pub struct Gate<S, P, R> {
    source: S,
    pace: P,
    penalty: R,
    ledger: Ledger,
}

impl<S: Source, P: Pace, R: Penalty> Gate<S, P, R> {
    // A gate over the source that is opened at a tick.
    pub fn open(source: S, pace: P, penalty: R, opening: Opening) -> Gate<S, P, R>
        ensures view { view_of S.Source result ≡ opened (S.Source.coming source) (S.Source.mark source) opening.value }
        ensures source { result.source ≡ source }
        ensures pace { result.pace ≡ pace }
        ensures penalty { result.penalty ≡ penalty }
        ensures promise { Promise (rules_of P.Pace R.Penalty pace penalty) (S.Source.coming source) (S.Source.mark source) opening.value }
    {
        Gate {
            source,
            pace,
            penalty,
            ledger: Ledger::new(opening),
        }
    }

    // The pace of the gate.
    pub fn pace(&self) -> &P
        ensures { result.now ≡ self.now.pace }
    {
        &self.pace
    }

    // Where the predictions for a reply asked at a tick begin: the later of that tick and the clock.
    fn base(&self, asked: u32) -> u32
        ensures { result ≡ base (view_of S.Source self.now).standing asked }
    {
        asked.max(self.ledger.clock)
    }

    // The release tick of a reply and its misses, or nothing where a prediction passes the horizon. Class and asked
    // tick are a reply's own, which the law of its source bounds.
    fn settle(&self, reply: Reply<S::Body>) -> Option<Settled>
        requires known { reply.«class» ≤ 7 }
        requires within { reply.asked ≤ 1000000000 }
        ensures { result ≡ settled (rules_in P.Pace R.Penalty self.now) (view_of S.Source self.now).standing reply }
    {
        let pending = Pending {
            class: reply.class,
            ready: reply.ready,
            own: self.ledger.rows[reply.class as usize].misses,
            all: self.ledger.all_misses,
            base: self.base(reply.asked),
        };
        let predictor = Predictor {
            pace: &self.pace,
            penalty: &self.penalty,
        };
        predictor.settle(pending)
    }

    // The next reply as it will be released, with its misses.
    fn upcoming(&self) -> Result<Release<S::Body>, End>
        ensures { result ≡ release (rules_in P.Pace R.Penalty self.now) (view_of S.Source self.now) }
    {
        let reply = self.source.head()?;
        let settled = self.settle(reply).ok_or(End::Horizon)?;
        Ok(Release {
            reply: Reply {
                ready: settled.tick,
                ..reply
            },
            misses: settled.misses,
        })
    }

    // The next reply as it will be released. Charges nothing.
    pub fn head(&self) -> Result<Reply<S::Body>, End>
        ensures call { GateCall S.Source P.Pace R.Penalty self.now (event.Head result) self.now }
    {
        self.upcoming().map(|next| next.reply)
    }

    // The misses that the next reply will have. Charges nothing.
    pub fn lapses(&self) -> Result<u32, End>
        ensures call { GateCall S.Source P.Pace R.Penalty self.now (event.Lapses result) self.now }
    {
        self.upcoming().map(|next| next.misses)
    }

    // The misses that a class was charged.
    pub fn misses(&self, class: u8) -> Result<u32, UnknownClass>
        ensures call { GateCall S.Source P.Pace R.Penalty self.now (event.Misses «class» result) self.now }
    {
        Ok(self.ledger.misses(Class::try_from(class)?))
    }

    // The last release tick, or else the opening.
    pub fn clock(&self) -> u32
        ensures call { GateCall S.Source P.Pace R.Penalty self.now (event.Clock result) self.now }
        ensures within { result ≤ 1000000000 }
    {
        self.ledger.clock
    }

    // How many replies were taken.
    pub fn released(&self) -> u32
        ensures call { GateCall S.Source P.Pace R.Penalty self.now (event.Released result) self.now }
    {
        self.ledger.released()
    }

    // Lets the next reply go: charges its misses, moves the clock, and answers the reply with its misses.
    // Refused, it leaves the whole gate as it was.
    pub fn release(&mut self) -> Result<Release<S::Body>, End>
        ensures value { result ≡ release (rules_in P.Pace R.Penalty self.old) (view_of S.Source self.old) }
        ensures call { GateCall S.Source P.Pace R.Penalty self.old (event.Take (reply_of result)) self.new }
        ensures same { rules_in P.Pace R.Penalty self.new ≡ rules_in P.Pace R.Penalty self.old }
        ensures refused { (e : End) → result ≡ Err e → self.new ≡ self.old }
        ensures timely { IfOk result (Timely (view_of S.Source self.old).standing.clock) }
    {
        let next = self.upcoming()?;
        let _ = self.source.take();
        let settled = Settled {
            tick: next.reply.ready,
            misses: next.misses,
        };
        self.ledger.charge(next.reply.class, settled);
        Ok(next)
    }

    // Lets the next reply go, as `release` does, and answers the reply alone.
    pub fn take(&mut self) -> Result<Reply<S::Body>, End>
        ensures call { GateCall S.Source P.Pace R.Penalty self.old (event.Take result) self.new }
        ensures same { rules_in P.Pace R.Penalty self.new ≡ rules_in P.Pace R.Penalty self.old }
        ensures refused { (e : End) → result ≡ Err e → self.new ≡ self.old }
    {
        self.release().map(|released| released.reply)
    }
}

// A gate is a source: of the replies below with each ready tick replaced by the release tick.
impl<S: Source, P: Pace, R: Penalty> Source for Gate<S, P, R> {
    type Body = S::Body;

    ghost coming = { λ g. released (rules_in P.Pace R.Penalty g) (standing_of g.ledger) (S.Source.coming g.source) };

    ghost mark = { λ g. ending (rules_in P.Pace R.Penalty g) (standing_of g.ledger) (S.Source.coming g.source) (S.Source.mark g.source) };

    ghost lawful = { λ g.
        released_lawful
        (rules_in (record { quanta = P.Pace.quanta; waits = P.Pace.waits }) (record { rule = R.Penalty.rule }) g)
        (record { pace = P.Pace.lawful g.pace; penalty = R.Penalty.lawful g.penalty })
        (standing_of g.ledger) 0 _ (S.Source.lawful g.source) };

    fn head(&self) -> Result<Reply<S::Body>, End> {
        self.head()
    }

    fn take(&mut self) -> Result<Reply<S::Body>, End> {
        self.take()
    }
}
