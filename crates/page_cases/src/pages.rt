// Pages written by their calls. The quanta are 10.
ghost use Rattle.std.specs.Prelude.{◌+◌, ◌*◌, ◌≤◌, length};

use gate::opening::Opening;
use pace::doubling::Doubling;
use pace::fault::QuantumFault;
use page::begin;
use page::sheet::OpenPage;
use source::refusal::Refused;
use std::test::Fail;
use tally::line::{PageFault, PageRow};

const fn row(asked: u32, class: u8, release: u32, misses: u32) -> PageRow {
    PageRow {
        asked,
        class,
        release,
        misses,
    }
}

fn tens() -> Result<Doubling, QuantumFault> {
    let mut pace = Doubling::new();
    for class in 0..8 {
        pace.set(class, 10)?;
    }
    Ok(pace)
}

// Hands rows to a page one after another; it takes some and refuses others.
fn hand(page: &mut OpenPage, buf: &mut [u8], rows: &[PageRow])
    requires { 36 * page.old.account.tally.rows + 36 ≤ length buf.old }
    ensures { 36 * page.new.account.tally.rows + 36 ≤ length buf.new }
{
    for row in rows {
        let _ = page.row(buf, *row);
    }
}

// Writes a page of the rows that it takes, and answers its length.
fn write(rows: &[PageRow], opening: Opening, quanta: &Doubling, buf: &mut [u8]) -> Option<usize> {
    let Ok(mut page) = begin(buf, opening) else {
        return None;
    };
    hand(&mut page, buf, rows);
    match page.close(buf, quanta) {
        Ok(closed) => Some(closed.length()),
        Err(_) => unreachable(),
    }
}

// What a page opened at 5 answers to a row after one released at 10, in a buffer of so many bytes.
fn answer(row: PageRow, quanta: &Doubling, buf: &mut [u8]) -> Option<Result<(), PageFault>> {
    let Ok(opening) = Opening::new(5) else {
        return None;
    };
    let Ok(mut page) = begin(buf, opening) else {
        return None;
    };
    let first = PageRow {
        asked: 0,
        class: 0,
        release: 10,
        misses: 0,
    };
    let _ = page.row(buf, first);
    let answer = page.row(buf, row);
    match page.close(buf, quanta) {
        Ok(_) => Some(answer),
        Err(_) => unreachable(),
    }
}

#[test]
fn a_page_has_the_rows_it_took_and_a_foot_and_nothing_else_changes(
    rt: HostRuntime,
) -> Result<(), Fail> {
    let rows = [
        row(0, 0, 10, 0),
        row(0, 8, 20, 0),
        row(12, 0, 42, 1),
        row(13, 0, 42, 0),
        row(15, 1, 52, 0),
        row(50, 0, 49, 0),
        row(50, 0, 192, 2),
        row(60, 0, 300, 0),
    ];
    let mut buf = [b'#'; 184];
    assert_eq!(rt;
        write(&rows, Opening::new(0)?, &tens()?, &mut buf),
        Some(180)
    );
    assert_eq!(rt;
        &buf,
        b"     1          0  0         10   0\n     2         12  0         42   1\n     3         15  1         52   0\n     4         50  0        192   2\n=    4        192  2         27   3\n####"
    );
    Ok(())
}

#[test]
fn a_row_is_refused_for_its_class_then_its_order_then_the_room(
    rt: HostRuntime,
) -> Result<(), Fail> {
    let quanta = tens()?;
    for (row, expected) in [
        (row(0, 0, 11, 29), Ok(())),
        (row(0, 7, 1_000_000_000, 0), Ok(())),
        (row(11, 0, 11, 0), Ok(())),
        (row(0, 8, 10, 30), Err(PageFault::Class)),
        (row(0, 0, 10, 0), Err(PageFault::Order)),
        (row(0, 0, 9, 0), Err(PageFault::Order)),
        (row(12, 0, 11, 0), Err(PageFault::Order)),
        (row(0, 0, 1_000_000_001, 0), Err(PageFault::Order)),
        (row(0, 0, 11, 30), Err(PageFault::Order)),
    ] {
        let mut buf = [b'#'; 108];
        assert_eq!(rt; answer(row, &quanta, &mut buf), Some(expected));
    }
    let mut short = [b'#'; 107];
    assert_eq!(rt;
        answer(row(0, 0, 10, 0), &quanta, &mut short),
        Some(Err(PageFault::Order))
    );
    assert_eq!(rt;
        answer(row(0, 0, 11, 0), &quanta, &mut short),
        Some(Err(PageFault::Room))
    );
    assert_eq!(rt; PageFault::Class.number(), 8);
    assert_eq!(rt; PageFault::Order.number(), 5);
    assert_eq!(rt; PageFault::Room.number(), 11);
    Ok(())
}

#[test]
fn a_page_needs_room_for_its_foot(rt: HostRuntime) -> Result<(), Fail> {
    let mut buf = [b'#'; 36];
    assert_eq!(rt;
        write(&[], Opening::new(0)?, &tens()?, &mut buf[0..35]),
        None
    );
    assert_eq!(rt; buf, [b'#'; 36]);
    assert_eq!(rt; write(&[], Opening::new(0)?, &tens()?, &mut buf), Some(36));
    assert_eq!(rt; &buf, b"=    0          0  0          0   0\n");
    Ok(())
}

// One row released at a tick, in a page opened at 0: the bits are one more than the most misses of its class.
#[test]
fn a_class_can_miss_as_often_as_its_quantum_doubles_in_the_time(
    rt: HostRuntime,
) -> Result<(), Fail> {
    let quanta = tens()?;
    for (release, bits) in [(9, b'1'), (10, b'2'), (29, b'2'), (30, b'3')] {
        let mut buf = [0u8; 72];
        let rows = [row(0, 0, release, 0)];
        assert_eq!(rt; write(&rows, Opening::new(0)?, &quanta, &mut buf), Some(72));
        assert_eq!(rt; buf[66], bits);
    }
    Ok(())
}

#[test]
fn a_page_takes_fifty_thousand_rows(rt: HostRuntime) -> Result<(), Fail> {
    let mut rows = vec![in rt.alloc()]?;
    for release in 1..50_002 {
        rows.push(row(0, 0, release, 0))?;
    }
    let mut buf = vec![in rt.alloc(); b'#'; 1_800_108]?;
    assert_eq!(rt;
        write(
            rows.as_slice(),
            Opening::new(0)?,
            &tens()?,
            buf.as_mut_slice(),
        ),
        Some(1_800_036)
    );
    assert_eq!(rt;
        &buf.as_slice()[1_800_000..1_800_037],
        b"=50000      50000  1        208   0\n#".as_slice()
    );
    Ok(())
}
