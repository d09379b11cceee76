// Pages read back: what each refusal names and leaves. The quanta are 10 unless said.
use gate::opening::Opening;
use pace::doubling::Doubling;
use pace::fault::QuantumFault;
use reader::read_page;
use rows::layout::{FOOT, PAGE_ROW};
use rows::row::Misfit;
use std::process::Abort;
use std::test::Fail;
use tally::line::PageRow;
use text::fault::FileFault;

const fn row(asked: u32, class: u8, release: u32, misses: u32) -> PageRow {
    PageRow {
        asked,
        class,
        release,
        misses,
    }
}

// What the buffers hold before a call.
const OLD: PageRow = PageRow {
    asked: 7,
    class: 7,
    release: 7,
    misses: 7,
};

// The page of the four quotes.
const WORKED: &[u8; 180] =
    b"     1          0  0         10   0\n     2         12  0         42   1\n     3         15  1         52   0\n     4         50  0        192   2\n=    4        192  2         27   3\n";

fn every_class(quantum: u32) -> Result<Doubling, QuantumFault> {
    let mut pace = Doubling::new();
    for class in 0..8 {
        pace.set(class, quantum)?;
    }
    Ok(pace)
}

// A page opened at a tick with some quanta is refused.
fn refuses(
    rt: &impl Abort,
    bytes: &[u8],
    opening: u32,
    quantum: u32,
    refusal: [u32; 3],
) -> Result<(), Fail> {
    let mut out = [OLD; 5];
    let Err(fault) = read_page(
        bytes,
        Opening::new(opening)?,
        &every_class(quantum)?,
        &mut out,
    ) else {
        return Err(Fail::new("a page was read"));
    };
    assert_eq!(rt; fault.refusal().numbers(), refusal);
    Ok(())
}

#[test]
fn the_worked_page_reads_as_its_rows_and_leaves_the_rest_of_the_buffer(
    rt: HostRuntime,
) -> Result<(), Fail> {
    let mut out = [OLD; 5];
    assert_eq!(rt;
        read_page(WORKED, Opening::new(0)?, &every_class(10)?, &mut out),
        Ok(4)
    );
    assert_eq!(rt;
        out,
        [
            row(0, 0, 10, 0),
            row(12, 0, 42, 1),
            row(15, 1, 52, 0),
            row(50, 0, 192, 2),
            OLD,
        ]
    );
    Ok(())
}

#[test]
fn a_page_without_rows_is_its_foot(rt: HostRuntime) -> Result<(), Fail> {
    let foot = b"=    0          5  0          0   0\n";
    assert_eq!(rt;
        read_page(foot, Opening::new(5)?, &every_class(10)?, &mut []),
        Ok(0)
    );
    refuses(&rt, foot, 6, 10, [5, 1, 0])
}

// The worked page with one byte changed is refused.
fn refuses_changed(rt: &impl Abort, at: usize, byte: u8, refusal: [u32; 3]) -> Result<(), Fail> {
    let mut bytes = *WORKED;
    if at < 180 {
        bytes[at] = byte;
    }
    refuses(rt, &bytes, 0, 10, refusal)
}

// The worked page cut to so many bytes is refused.
fn refuses_cut(rt: &impl Abort, bytes: usize, refusal: [u32; 3]) -> Result<(), Fail> {
    let page = *WORKED;
    refuses(rt, &page[0..bytes.min(180)], 0, 10, refusal)
}

#[test]
fn one_byte_changed_is_refused_where_it_stands(rt: HostRuntime) -> Result<(), Fail> {
    for (at, byte, number, row, field) in [
        (5, b'2', 5, 1, 0),
        (5, b' ', 1, 1, 1),
        (16, b'-', 1, 1, 2),
        (19, b'8', 2, 1, 3),
        (30, b'x', 1, 1, 4),
        (34, b'\t', 1, 1, 5),
        (35, b'\r', 3, 1, 0),
        (65, b'5', 5, 3, 0),
        (34, b'1', 5, 5, 0),
        (144, b' ', 1, 5, 1),
        (149, b'5', 5, 5, 0),
        (149, b'x', 1, 5, 2),
        (160, b'3', 5, 5, 0),
        (160, b' ', 1, 5, 3),
        (163, b'3', 5, 5, 0),
        (163, b'+', 1, 5, 4),
        (174, b'8', 5, 5, 0),
        (174, b'x', 1, 5, 5),
        (178, b'4', 5, 5, 0),
        (178, b' ', 1, 5, 6),
        (179, b' ', 3, 5, 0),
    ] {
        refuses_changed(&rt, at, byte, [number, row, field])?;
    }
    Ok(())
}

#[test]
fn a_page_that_is_cut_lacks_its_foot_or_is_no_page(rt: HostRuntime) -> Result<(), Fail> {
    for rows in 1..5u32 {
        let refusal = [1, rows, 1];
        refuses_cut(&rt, 36 * rows as usize, refusal)?;
    }
    for bytes in [0, 35, 37, 143, 179] {
        let refusal = [4, 0, 0];
        refuses_cut(&rt, bytes, refusal)?;
    }
    Ok(())
}

#[test]
fn another_opening_or_other_quanta_are_refused(rt: HostRuntime) -> Result<(), Fail> {
    let first = [5, 1, 0];
    refuses(&rt, WORKED, 10, 10, first)?;
    let foot = [5, 5, 0];
    refuses(&rt, WORKED, 0, 20, foot)
}

#[test]
fn a_refused_page_leaves_the_rows_before_the_fault(rt: HostRuntime) -> Result<(), Fail> {
    let mut bytes = *WORKED;
    bytes[65] = b'5';
    let mut out = [OLD; 5];
    let fault = read_page(&bytes, Opening::new(0)?, &every_class(10)?, &mut out);
    assert!(rt; fault != Ok(4));
    assert_eq!(rt; out, [row(0, 0, 10, 0), row(12, 0, 52, 1), OLD, OLD, OLD]);
    let mut short = [OLD; 3];
    assert_eq!(rt;
        read_page(WORKED, Opening::new(0)?, &every_class(10)?, &mut short),
        Err(FileFault::Size)
    );
    assert_eq!(rt; short, [OLD; 3]);
    Ok(())
}

// The line of a row asked at 0 and released at the tick of its number.
fn line_of(release: u64) -> Result<[u8; 36], Misfit> {
    let mut line = [b' '; 36];
    PAGE_ROW.write(&[release, 0, 0, release, 0], &mut line)?;
    Ok(line)
}

#[test]
fn a_page_has_fifty_thousand_rows_at_most(rt: HostRuntime) -> Result<(), Fail> {
    let mut bytes = vec![in rt.alloc()]?;
    for release in 1..50_001u64 {
        bytes.extend_from_slice(&line_of(release)?)?;
    }
    let mut foot = [b'='; 36];
    FOOT.write(&[50_000, 50_000, 1, 208, 0], &mut foot[1..36])?;
    bytes.extend_from_slice(&foot)?;
    let mut out = vec![in rt.alloc(); OLD; 50_001]?;
    let opening = Opening::new(0)?;
    let quanta = every_class(10)?;
    assert_eq!(rt;
        read_page(bytes.as_slice(), opening, &quanta, out.as_mut_slice()),
        Ok(50_000)
    );
    assert_eq!(rt; out.get(49_999).copied(), Some(row(0, 0, 50_000, 0)));
    assert_eq!(rt; out.get(50_000).copied(), Some(OLD));
    bytes.extend_from_slice(&foot)?;
    assert_eq!(rt;
        read_page(bytes.as_slice(), opening, &quanta, out.as_mut_slice()),
        Err(FileFault::Size)
    );
    Ok(())
}
