// A page that takes rows, and one that has its foot.
ghost use Rattle.std.specs.Prelude.{◌≤◌};

use tally::account::Account;

// A page that takes rows. It is not `Drop`: it has to be closed.
pub struct OpenPage {
    pub(crate) account: Account,
}

// A page that has its foot.
#[derive(Clone, Copy, PartialEq, Eq, Debug)]
pub struct ClosedPage {
    pub(crate) rows: u32,
    ghost few: { rows ≤ 50000 },
}
