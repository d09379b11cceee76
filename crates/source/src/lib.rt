// Where replies come from. Every source means a lawful list of replies still to come and a mark of how it ends.
#![tactic(auto)]

ghost use Rattle.std.specs.Prelude.{◌≡◌, List, Err};
ghost use Rattle.source.specs.declared.reply.Reply.{Reply};
ghost use Rattle.source.specs.declared.reply.End.{End};
ghost use Rattle.source.specs.Replies.{Lawful, first, rest};

use reply::{End, Reply};

pub mod body;
pub mod bucket;
pub mod buffer;
pub mod class;
pub mod fault;
pub mod refusal;
pub mod reply;
pub mod setting;
pub mod trace;

// A source of replies, by the lawful list that is still to come and the mark with which that list ends.
pub trait Source {
    type Body: Copy;

    ghost coming: { Self → List (Reply Self.Body) };

    ghost mark: { Self → End };

    // The first reply, or why there is none.
    fn head(&self) -> Result<Reply<Self::Body>, End>
        ensures { result ≡ first (coming self.now) (mark self.now) };

    // Answers what `head` would, and removes that reply; refused, it leaves the whole source as it was.
    fn take(&mut self) -> Result<Reply<Self::Body>, End>
        ensures value { result ≡ first (coming self.old) (mark self.old) }
        ensures rest { coming self.new ≡ rest (coming self.old) }
        ensures mark { mark self.new ≡ mark self.old }
        ensures refused { (e : End) → result ≡ Err e → self.new ≡ self.old };

    ghost lawful: { (s : Self) → Lawful (coming s) };
}
