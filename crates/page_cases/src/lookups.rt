// Rows found by their release ticks, in buffers that are sorted and that are not.
use lookup::{NoRow, find, span};
use source::refusal::Refused;
use std::test::Fail;
use tally::line::PageRow;

const fn at(release: u32) -> PageRow {
    PageRow {
        asked: 0,
        class: 0,
        release,
        misses: 0,
    }
}

#[test]
fn the_rows_of_a_page_are_found_by_their_release(rt: HostRuntime) -> Result<(), Fail> {
    let rows = [at(10), at(42), at(52), at(192)];
    for (t1, t2, low, high) in [
        (0, 1_000_000_000, 1, 4),
        (10, 10, 1, 1),
        (11, 52, 2, 3),
        (53, 192, 4, 4),
        (192, 192, 4, 4),
    ] {
        assert_eq!(rt; span(&rows, t1, t2), Ok((low, high)));
        let Ok(found) = find(&rows, t1, t2) else {
            return Err(Fail::new("no row was found"));
        };
        assert!(rt; low <= found && found <= high);
    }
    Ok(())
}

#[test]
fn no_row_between_two_ticks_is_refusal_13(rt: HostRuntime) {
    let rows = [at(10), at(42), at(52), at(192)];
    for (t1, t2) in [
        (0, 9),
        (11, 41),
        (193, 1_000_000_000),
        (42, 10),
        (4_294_967_295, 0),
    ] {
        assert_eq!(rt; find(&rows, t1, t2), Err(NoRow));
        assert_eq!(rt; span(&rows, t1, t2), Err(NoRow));
    }
    assert_eq!(rt; find(&[], 0, 4_294_967_295), Err(NoRow));
    assert_eq!(rt; NoRow.number(), 13);
}

#[test]
fn rows_in_any_order_are_spanned_by_their_places(rt: HostRuntime) {
    let rows = [at(52), at(4_294_967_295), at(10), at(52), at(0), at(42)];
    for (t1, t2, low, high) in [
        (52, 52, 1, 4),
        (0, 10, 3, 5),
        (40, 50, 6, 6),
        (53, 4_294_967_295, 2, 2),
        (0, 4_294_967_295, 1, 6),
    ] {
        assert_eq!(rt; span(&rows, t1, t2), Ok((low, high)));
    }
}
