// The penalty rules.
ghost use Rattle.std.proofs.Common.{le_refl};

use super::Penalty;

// A class counts its own misses only.
#[derive(Clone, Copy, PartialEq, Eq, Debug)]
pub struct OwnRule;

impl Penalty for OwnRule {
    ghost rule = { λ _ own all. own };

    ghost lawful = { λ _ own all part. (le_refl own, part) };

    fn epoch(&self, own: u32, _all: u32) -> u32 {
        own
    }
}

// Every class counts the misses of all.
#[derive(Clone, Copy, PartialEq, Eq, Debug)]
pub struct SharedRule;

impl Penalty for SharedRule {
    ghost rule = { λ _ own all. all };

    ghost lawful = { λ _ own all part. (part, le_refl all) };

    fn epoch(&self, _own: u32, all: u32) -> u32 {
        all
    }
}
