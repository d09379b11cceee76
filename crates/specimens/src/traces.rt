// Traces, and the refusals' numbers.
use source::Source;
use source::body::{Place, Word};
use source::refusal::Refused;
use source::reply::{End, Reply};
use source::trace::Trace;
use std::test::Fail;

fn word(asked: u32, ready: u32) -> Reply<Word> {
    Reply {
        asked,
        class: 0,
        ready,
        body: 900,
    }
}

#[test]
fn a_record_that_breaks_the_order_ends_the_list(rt: HostRuntime) {
    let records = [word(5, 6), word(7, 7), word(6, 9), word(8, 9)];
    let records: &[Reply<Word>] = &records;
    let mut trace = Trace::new(records);
    assert_eq!(rt; trace.head(), Ok(word(5, 6)));
    assert_eq!(rt; trace.take(), Ok(word(5, 6)));
    assert_eq!(rt; trace.take(), Ok(word(7, 7)));
    assert_eq!(rt; trace.head(), Err(End::Dry));
    assert_eq!(rt; trace.take(), Err(End::Dry));
}

#[test]
fn a_record_out_of_range_ends_the_list(rt: HostRuntime) {
    let place = Place {
        start: 3,
        length: 12,
    };
    let good = Reply {
        asked: 0,
        class: 7,
        ready: 1_000_000_000,
        body: place,
    };
    let bad = Reply {
        asked: 0,
        class: 8,
        ready: 0,
        body: place,
    };
    let records = [good, bad];
    let records: &[Reply<Place>] = &records;
    let mut trace = Trace::new(records);
    assert_eq!(rt; trace.take(), Ok(good));
    assert_eq!(rt; trace.take(), Err(End::Dry));
}

#[test]
fn a_trace_reads_fifty_thousand_records(rt: HostRuntime) -> Result<(), Fail> {
    let records = vec![in rt.alloc(); word(0, 0); 50_001]?;
    let mut trace = Trace::new(records.as_slice());
    for _ in 0..50_000 {
        assert_eq!(rt; trace.take(), Ok(word(0, 0)));
    }
    assert_eq!(rt; trace.take(), Err(End::Dry));
    Ok(())
}

#[test]
fn the_marks_have_their_numbers(rt: HostRuntime) {
    assert_eq!(rt; End::Dry.number(), 6);
    assert_eq!(rt; End::Horizon.number(), 7);
}
