// The ledger of a gate: when it was opened, its clock, and what each class was charged.
ghost use Rattle.std.specs.Prelude.{◌≡◌, ℕ, ◌+◌, ◌-◌, ◌^◌, ◌<◌, ◌≤◌, length, sum, slice_index};
ghost use Rattle.gate.specs.Rows.{misses_at, misses_in, releases_in};

use super::opening::Opening;
use super::row::Row;
use promise::release::Settled;
use source::class::Class;

// All misses are kept beside the table, so that no reply has to add them up again. The table is a plain one of rows.
#[derive(Clone, Copy)]
pub struct Ledger {
    pub(crate) opening: u32,
    pub(crate) clock: u32,
    pub(crate) all_misses: u32,
    pub(crate) rows: [Row; 8],
    ghost table: { length rows ≡ 8 },
    ghost after: { opening ≤ clock },
    ghost within: { clock ≤ 1000000000 },
    ghost charged: { (c : ℕ) → c < 8 → 2 ^ misses_at rows c - 1 ≤ clock - opening },
    ghost summed: { all_misses ≡ sum (misses_in rows) },
    ghost counted: { sum (releases_in rows) ≤ clock - opening },
}

impl Ledger {
    ghost use Rattle.promise.specs.Views.{charged, fresh};
    ghost use Rattle.gate.specs.Gates.{standing_of};

    // The ledger of a gate that is opened at a tick.
    pub(crate) fn new(opening: Opening) -> Ledger
        ensures value { standing_of result ≡ fresh opening.value }
        ensures releases { sum (releases_in result.rows) ≡ 0 }
    {
        let tick = opening.value();
        Ledger {
            opening: tick,
            clock: tick,
            all_misses: 0,
            rows: [Row::default(); 8],
        }
    }

    // Charges a class the misses of a reply, counts its release, and moves the clock to its release tick: the table is
    // copied out, one row of it is changed, and the ledger is written whole. The class is a reply's own, which the law
    // of its source bounds.
    pub(crate) fn charge(&mut self, class: u8, settled: Settled)
        requires known { «class» ≤ 7 }
        requires after { self.old.clock < settled.tick }
        requires within { settled.tick ≤ 1000000000 }
        requires few { 2 ^ (misses_at self.old.rows «class» + settled.misses) - 1 ≤ settled.tick - self.old.opening }
        ensures after { standing_of self.new ≡ charged (standing_of self.old) «class» settled }
        ensures releases { sum (releases_in self.new.rows) ≡ sum (releases_in self.old.rows) + 1 }
    {
        let mut rows = self.rows;
        rows[class as usize].charge(settled.misses);
        *self = Ledger {
            opening: self.opening,
            clock: settled.tick,
            all_misses: self.all_misses + settled.misses,
            rows,
        };
    }

    // The misses of a class.
    pub(crate) fn misses(&self, class: Class) -> u32
        ensures { result ≡ slice_index (misses_in self.now.rows) class.number }
    {
        self.rows[class.index()].misses
    }

    // The releases of all classes.
    pub(crate) fn released(&self) -> u32
        ensures { result ≡ sum (releases_in self.now.rows) }
    {
        self.rows.iter().map(|row| row.releases).sum()
    }
}
