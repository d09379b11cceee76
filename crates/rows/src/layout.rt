// Layouts: the columns of each kind of row, one line for each column.
ghost use Rattle.std.specs.Prelude.{◌≡◌, ◌+◌, ◌≤◌, length};
ghost use Rattle.rows.specs.Columns.{shapes, widths};

use super::column::Column;

// The columns of a row in order, the number of its first field, and the bytes of the whole row with its newline.
#[derive(Clone, Copy)]
pub struct Layout<const N: usize> {
    pub(crate) columns: [Column; N],
    pub(crate) first: u32,
    pub bytes: usize,
    ghost sized: { length columns ≡ N },
    ghost whole: { bytes ≡ widths (shapes columns) + 1 },
    ghost few: { first + length columns ≤ 99 },
}

// A reply of a list.
pub const LIST_ROW: Layout<4> = Layout {
    columns: [
        Column {
            width: 10,
            limit: 1_000_000_000,
        }, // asked
        Column { width: 2, limit: 7 }, // class
        Column {
            width: 11,
            limit: 1_000_000_000,
        }, // ready
        Column {
            width: 11,
            limit: 4_294_967_295,
        }, // word
    ],
    first: 1,
    bytes: 35,
};

// A step of a schedule.
pub const SCHEDULE_ROW: Layout<3> = Layout {
    columns: [
        Column { width: 2, limit: 7 }, // class
        Column {
            width: 3,
            limit: 999,
        }, // epoch
        Column {
            width: 11,
            limit: 1_000_000_000,
        }, // wait
    ],
    first: 1,
    bytes: 17,
};

// A release of a page.
pub const PAGE_ROW: Layout<5> = Layout {
    columns: [
        Column {
            width: 6,
            limit: 999_999,
        }, // row
        Column {
            width: 11,
            limit: 1_000_000_000,
        }, // asked
        Column { width: 3, limit: 7 }, // class
        Column {
            width: 11,
            limit: 1_000_000_000,
        }, // release
        Column {
            width: 4,
            limit: 9_999,
        }, // misses
    ],
    first: 1,
    bytes: 36,
};

// The foot of a page, after the "=" that is its first field.
pub const FOOT: Layout<5> = Layout {
    columns: [
        Column {
            width: 5,
            limit: 99_999,
        }, // rows
        Column {
            width: 11,
            limit: 1_000_000_000,
        }, // clock
        Column {
            width: 3,
            limit: 999,
        }, // classes
        Column {
            width: 11,
            limit: 99_999_999_999,
        }, // bits
        Column {
            width: 4,
            limit: 9_999,
        }, // misses
    ],
    first: 2,
    bytes: 35,
};

// A refusal as it is printed.
pub const REFUSAL_LINE: Layout<4> = Layout {
    columns: [
        Column {
            width: 6,
            limit: 999_999,
        }, // number
        Column {
            width: 6,
            limit: 999_999,
        }, // file
        Column {
            width: 6,
            limit: 999_999,
        }, // row
        Column {
            width: 6,
            limit: 999_999,
        }, // field
    ],
    first: 1,
    bytes: 25,
};
