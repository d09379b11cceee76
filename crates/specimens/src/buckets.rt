// Buckets.
use source::Source;
use source::body::{Place, Word};
use source::bucket::Bucket;
use source::reply::{End, Reply};
use source::setting::Width;
use source::trace::Trace;
use std::test::Fail;

fn word(ready: u32) -> Reply<Word> {
    Reply {
        asked: 0,
        class: 2,
        ready,
        body: 77,
    }
}

#[test]
fn ready_ticks_are_raised_to_multiples_of_ten(rt: HostRuntime) -> Result<(), Fail> {
    let records = [word(1), word(10), word(11), word(0)];
    let records: &[Reply<Word>] = &records;
    let mut bucket = Bucket::new(Trace::new(records), Width::new(10)?);
    assert_eq!(rt; bucket.head(), Ok(word(10)));
    assert_eq!(rt; bucket.take(), Ok(word(10)));
    assert_eq!(rt; bucket.take(), Ok(word(10)));
    assert_eq!(rt; bucket.take(), Ok(word(20)));
    assert_eq!(rt; bucket.take(), Ok(word(0)));
    assert_eq!(rt; bucket.take(), Err(End::Dry));
    Ok(())
}

#[test]
fn a_multiple_past_the_horizon_ends_the_list(rt: HostRuntime) -> Result<(), Fail> {
    let place = Place {
        start: 65_535,
        length: 65_535,
    };
    let last = Reply {
        asked: 0,
        class: 0,
        ready: 999_999_999,
        body: place,
    };
    let records = [last];
    let records: &[Reply<Place>] = &records;
    let mut bucket = Bucket::new(Trace::new(records), Width::new(1_000_000)?);
    assert_eq!(rt;
        bucket.take(),
        Ok(Reply {
            asked: 0,
            class: 0,
            ready: 1_000_000_000,
            body: place,
        })
    );
    let mut past = Bucket::new(Trace::new(records), Width::new(7)?);
    assert_eq!(rt; past.take(), Err(End::Horizon));
    assert_eq!(rt; past.head(), Err(End::Horizon));
    Ok(())
}

#[test]
fn a_width_is_from_one_to_a_million(rt: HostRuntime) {
    assert!(rt; Width::new(0).is_err() && Width::new(1_000_001).is_err());
    assert!(rt; Width::new(1).is_ok() && Width::new(1_000_000).is_ok());
}
