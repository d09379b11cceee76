// What a page has taken, in plain numbers that keep their bounds.
ghost use Rattle.std.specs.Prelude.{◌≡◌, ◌≤◌, length};

// The opening, the rows so far, the last release or else the opening, the misses of all rows, the classes that occur
// as a plain table of marks.
#[derive(Clone, Copy)]
pub struct Tally {
    pub opening: u32,
    pub rows: u32,
    pub clock: u32,
    pub misses: u32,
    pub occurs: [bool; 8],
}

// A tally of at most 50,000 rows, with a clock from the opening to the horizon and at most 9,999 misses.
#[derive(Clone, Copy)]
pub struct Account {
    pub tally: Tally,
    ghost few: { tally.rows ≤ 50000 },
    ghost since: { tally.opening ≤ tally.clock },
    ghost timely: { tally.clock ≤ 1000000000 },
    ghost fair: { tally.misses ≤ 9999 },
    ghost table: { length tally.occurs ≡ 8 },
}
