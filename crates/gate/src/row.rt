// One class's row of the ledger.
ghost use Rattle.std.specs.Prelude.{◌≡◌, ◌+◌, ◌^◌, ◌<◌};

#[derive(Clone, Copy, Default)]
pub struct Row {
    pub(crate) misses: u32,
    pub(crate) releases: u32,
}

impl Row {
    // One release more, after so many misses.
    pub(crate) fn charge(&mut self, misses: u32)
        requires misses { self.old.misses + misses < 2 ^ 32 }
        requires releases { self.old.releases + 1 < 2 ^ 32 }
        ensures { self.new ≡ record { misses = self.old.misses + misses; releases = self.old.releases + 1 } }
    {
        self.misses += misses;
        self.releases += 1;
    }
}
