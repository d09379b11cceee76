// Rows of every kind: the form and the limit of each field, and the newline.
use rows::fault::{Numbered, RowFault};
use rows::field::FieldFault;
use rows::layout::{FOOT, LIST_ROW, Layout, PAGE_ROW, REFUSAL_LINE, SCHEDULE_ROW};
use rows::row::Misfit;
use std::process::Abort;
use std::test::Fail;

// What a field may not end with, where only spaces stand before: spaces, leading zeros, signs, tabs, carriage returns,
// newlines, the bytes on both sides of the digits, bytes out of place.
const NO_NUMBERS: [&[u8; 2]; 17] = [
    b"  ", b"00", b"07", b"+7", b"-7", b"\t7", b"7\t", b"\r7", b"7\r", b"7\n", b"7 ", b"7/", b"7:",
    b"/7", b":7", b"\x007", b"a7",
];

// Reads a row and expects the fault of a field.
fn refuses<const N: usize>(
    rt: &impl Abort,
    layout: &Layout<N>,
    row: &[u8],
    number: u32,
    fault: FieldFault,
) -> Result<(), Fail> {
    let Err(found) = layout.read(row) else {
        return Err(Fail::new("a row was read"));
    };
    assert_eq!(rt; found, RowFault::Field(Numbered { number, fault }));
    Ok(())
}

// A row whose field up to `end` is spoilt in each way is refused for that field's form. `room` holds the spoilt row.
fn refuses_form<const N: usize>(
    rt: &impl Abort,
    layout: &Layout<N>,
    row: &[u8],
    room: &mut [u8],
    end: usize,
    number: u32,
) -> Result<(), Fail> {
    assert!(rt; row.len() == room.len() && 2 <= end && end <= room.len());
    room.copy_from_slice(row);
    for ending in NO_NUMBERS {
        room[end - 2] = ending[0];
        room[end - 1] = ending[1];
        refuses(rt, layout, room, number, FieldFault::Form)?;
    }
    Ok(())
}

// The columns that end the fields, with the fields' numbers.
fn refuses_each_form<const N: usize>(
    rt: &impl Abort,
    layout: &Layout<N>,
    row: &[u8],
    ends: &[(usize, u32)],
) -> Result<(), Fail> {
    assert!(rt; layout.read(row).is_ok() && row.len() <= 36);
    for (end, number) in ends {
        let mut room = [0u8; 36];
        refuses_form(rt, layout, row, &mut room[0..row.len()], *end, *number)?;
    }
    Ok(())
}

#[test]
fn a_field_is_spaces_and_then_digits_without_a_leading_zero(rt: HostRuntime) -> Result<(), Fail> {
    refuses_each_form(
        &rt,
        &LIST_ROW,
        b"         0 0          0          0\n",
        &[(10, 1), (12, 2), (23, 3), (34, 4)],
    )?;
    refuses_each_form(
        &rt,
        &SCHEDULE_ROW,
        b" 0  0          0\n",
        &[(2, 1), (5, 2), (16, 3)],
    )?;
    refuses_each_form(
        &rt,
        &PAGE_ROW,
        b"     0          0  0          0   0\n",
        &[(6, 1), (17, 2), (20, 3), (31, 4), (35, 5)],
    )?;
    refuses_each_form(
        &rt,
        &FOOT,
        b"    0          0  0          0   0\n",
        &[(5, 2), (16, 3), (19, 4), (30, 5), (34, 6)],
    )?;
    refuses_each_form(
        &rt,
        &REFUSAL_LINE,
        b"     0     0     0     0\n",
        &[(6, 1), (12, 2), (18, 3), (24, 4)],
    )
}

// Each row is refused for the limit of the field.
fn refuses_each_limit<const N: usize>(
    rt: &impl Abort,
    layout: &Layout<N>,
    rows: &[(&[u8], u32)],
) -> Result<(), Fail> {
    for (row, number) in rows {
        refuses(rt, layout, *row, *number, FieldFault::Limit)?;
    }
    Ok(())
}

#[test]
fn a_number_one_past_its_limit_and_a_width_of_nines_pass_the_limit(
    rt: HostRuntime,
) -> Result<(), Fail> {
    refuses_each_limit(
        &rt,
        &LIST_ROW,
        &[
            (b"1000000001 0          0          0\n", 1),
            (b"9999999999 0          0          0\n", 1),
            (b"         0 8          0          0\n", 2),
            (b"         099          0          0\n", 2),
            (b"         0 0 1000000001          0\n", 3),
            (b"         0 099999999999          0\n", 3),
            (b"         0 0          0 4294967296\n", 4),
            (b"         0 0          099999999999\n", 4),
        ],
    )?;
    refuses_each_limit(
        &rt,
        &SCHEDULE_ROW,
        &[
            (b" 8  0          0\n", 1),
            (b"99  0          0\n", 1),
            (b" 0  0 1000000001\n", 3),
            (b" 0  099999999999\n", 3),
        ],
    )?;
    refuses_each_limit(
        &rt,
        &PAGE_ROW,
        &[
            (b"     0 1000000001  0          0   0\n", 2),
            (b"     099999999999  0          0   0\n", 2),
            (b"     0          0  8          0   0\n", 3),
            (b"     0          0999          0   0\n", 3),
            (b"     0          0  0 1000000001   0\n", 4),
            (b"     0          0  099999999999   0\n", 4),
        ],
    )?;
    refuses_each_limit(
        &rt,
        &FOOT,
        &[
            (b"    0 1000000001  0          0   0\n", 3),
            (b"    099999999999  0          0   0\n", 3),
        ],
    )
}

// Numbers at their limits are read, and are written as the same row, over just that many bytes.
fn holds<const N: usize>(
    rt: &impl Abort,
    layout: &Layout<N>,
    row: &[u8],
    values: [u64; N],
) -> Result<(), Fail> {
    let Ok(read) = layout.read(row) else {
        return Err(Fail::new("a row was refused"));
    };
    assert!(rt; read == values && row.len() < 40);
    let mut long = [0u8; 40];
    assert!(rt; layout.write(&values, &mut long[0..row.len() + 1]).is_err());
    let mut bytes = [0u8; 40];
    let room = &mut bytes[0..row.len()];
    assert!(rt; layout.write(&values, room).is_ok());
    assert!(rt; &*room == row);
    Ok(())
}

#[test]
fn a_number_at_its_limit_is_read_and_written(rt: HostRuntime) -> Result<(), Fail> {
    holds(
        &rt,
        &LIST_ROW,
        b"1000000000 7 1000000000 4294967295\n",
        [1_000_000_000, 7, 1_000_000_000, 4_294_967_295],
    )?;
    holds(
        &rt,
        &SCHEDULE_ROW,
        b" 7999 1000000000\n",
        [7, 999, 1_000_000_000],
    )?;
    holds(
        &rt,
        &PAGE_ROW,
        b"999999 1000000000  7 10000000009999\n",
        [999_999, 1_000_000_000, 7, 1_000_000_000, 9_999],
    )?;
    holds(
        &rt,
        &FOOT,
        b"99999 1000000000999999999999999999\n",
        [99_999, 1_000_000_000, 999, 99_999_999_999, 9_999],
    )?;
    holds(
        &rt,
        &REFUSAL_LINE,
        b"999999999999999999999999\n",
        [999_999; 4],
    )
}

#[test]
fn a_row_that_ends_in_a_field_has_no_form_there(rt: HostRuntime) -> Result<(), Fail> {
    let line = b"111111222222333333444444\n\n";
    for size in 0..24 {
        let number = size as u32 / 6 + 1;
        refuses(&rt, &REFUSAL_LINE, &line[0..size], number, FieldFault::Form)?;
    }
    assert_eq!(rt; REFUSAL_LINE.read(&line[0..24]), Err(RowFault::Newline));
    assert_eq!(rt; REFUSAL_LINE.read(line), Err(RowFault::Newline));
    Ok(())
}

// The numbers are not written as a row of a list, and the buffer stays as it was.
fn misfits(rt: &impl Abort, values: [u64; 4]) {
    let mut row = [7u8; 35];
    assert_eq!(rt; LIST_ROW.write(&values, &mut row), Err(Misfit));
    assert_eq!(rt; row, [7; 35]);
}

#[test]
fn a_number_past_its_limit_is_not_written(rt: HostRuntime) {
    misfits(&rt, [1_000_000_001, 0, 0, 0]);
    misfits(&rt, [0, 8, 0, 0]);
    misfits(&rt, [0, 0, 1_000_000_001, 0]);
    misfits(&rt, [0, 0, 0, 4_294_967_296]);
}
