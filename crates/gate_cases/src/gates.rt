// Gates, and calls of them that are played. Every class has the quantum 10, doubled with each miss.
use gate::Gate;
use gate::opening::Opening;
use pace::doubling::Doubling;
use pace::fault::{QuantumFault, UnknownClass};
use pace::rules::{OwnRule, SharedRule};
use play::play;
use promise::event::{Event, Request};
use source::Source;
use source::body::Word;
use source::bucket::Bucket;
use source::refusal::Refused;
use source::reply::{End, Reply};
use source::setting::Width;
use source::trace::Trace;
use std::test::Fail;

fn word(asked: u32, class: u8, ready: u32) -> Reply<Word> {
    Reply {
        asked,
        class,
        ready,
        body: 900,
    }
}

fn four() -> [Reply<Word>; 4] {
    [
        word(0, 0, 7),
        word(12, 0, 40),
        word(15, 1, 41),
        word(50, 0, 120),
    ]
}

fn tens() -> Result<Doubling, QuantumFault> {
    let mut pace = Doubling::new();
    for class in 0..8 {
        pace.set(class, 10)?;
    }
    Ok(pace)
}

// A gate over the records, with the own rule.
fn over(
    records: &[Reply<Word>],
    pace: Doubling,
    opening: Opening,
) -> Gate<Trace<&[Reply<Word>]>, Doubling, OwnRule> {
    Gate::open(Trace::new(records), pace, OwnRule, opening)
}

#[test]
fn a_class_waits_longer_for_its_own_misses(rt: HostRuntime) -> Result<(), Fail> {
    let records = four();
    let mut gate = over(&records, tens()?, Opening::new(0)?);
    let expected = [
        (0, 0, 10, 0),
        (12, 0, 42, 1),
        (15, 1, 52, 0),
        (50, 0, 192, 2),
    ];
    for (asked, class, tick, misses) in expected {
        assert_eq!(rt; gate.lapses(), Ok(misses));
        assert_eq!(rt; gate.head(), Ok(word(asked, class, tick)));
        assert_eq!(rt; gate.take(), Ok(word(asked, class, tick)));
        assert_eq!(rt; gate.clock(), tick);
    }
    assert_eq!(rt; gate.take(), Err(End::Dry));
    assert_eq!(rt; gate.misses(0), Ok(3));
    assert_eq!(rt; gate.misses(1), Ok(0));
    assert_eq!(rt; gate.released(), 4);
    Ok(())
}

#[test]
fn under_the_shared_rule_every_class_waits_for_the_misses_of_all(
    rt: HostRuntime,
) -> Result<(), Fail> {
    let records = four();
    let records: &[Reply<Word>] = &records;
    let mut gate = Gate::open(Trace::new(records), tens()?, SharedRule, Opening::new(0)?);
    let expected = [
        (0, 0, 10, 0),
        (12, 0, 42, 1),
        (15, 1, 62, 0),
        (50, 0, 122, 1),
    ];
    for (asked, class, tick, misses) in expected {
        assert_eq!(rt; gate.lapses(), Ok(misses));
        assert_eq!(rt; gate.take(), Ok(word(asked, class, tick)));
    }
    assert_eq!(rt; gate.misses(0), Ok(2));
    assert_eq!(rt; gate.misses(1), Ok(0));
    Ok(())
}

#[test]
fn a_reply_ready_at_its_prediction_is_in_time(rt: HostRuntime) -> Result<(), Fail> {
    let in_time = [word(0, 0, 10)];
    let mut gate = over(&in_time, tens()?, Opening::new(0)?);
    assert_eq!(rt; gate.take(), Ok(word(0, 0, 10)));
    assert_eq!(rt; gate.misses(0), Ok(0));
    let late = [word(0, 0, 11)];
    let mut gate = over(&late, tens()?, Opening::new(0)?);
    assert_eq!(rt; gate.take(), Ok(word(0, 0, 30)));
    assert_eq!(rt; gate.misses(0), Ok(1));
    Ok(())
}

#[test]
fn a_prediction_may_reach_the_horizon_and_not_pass_it(rt: HostRuntime) -> Result<(), Fail> {
    let early = [word(0, 0, 5)];
    let mut gate = over(&early, tens()?, Opening::new(999_999_990)?);
    assert_eq!(rt; gate.take(), Ok(word(0, 0, 1_000_000_000)));
    let mut gate = over(&early, tens()?, Opening::new(999_999_991)?);
    assert_eq!(rt; gate.head(), Err(End::Horizon));
    assert_eq!(rt; gate.lapses(), Err(End::Horizon));
    assert_eq!(rt; gate.take(), Err(End::Horizon));
    assert_eq!(rt; End::Horizon.number(), 7);
    let last = [word(0, 0, 1_000_000_000)];
    let mut gate = over(&last, tens()?, Opening::new(999_999_990)?);
    assert_eq!(rt; gate.take(), Ok(word(0, 0, 1_000_000_000)));
    assert_eq!(rt; gate.misses(0), Ok(0));
    Ok(())
}

#[test]
fn a_reply_whose_second_prediction_passes_the_horizon_charges_nothing(
    rt: HostRuntime,
) -> Result<(), Fail> {
    let late = [word(0, 3, 999_999_991)];
    let mut gate = over(&late, tens()?, Opening::new(999_999_980)?);
    assert_eq!(rt; gate.take(), Err(End::Horizon));
    assert_eq!(rt; gate.take(), Err(End::Horizon));
    assert_eq!(rt; gate.misses(3), Ok(0));
    assert_eq!(rt; gate.clock(), 999_999_980);
    assert_eq!(rt; gate.released(), 0);
    Ok(())
}

#[test]
fn head_and_lapses_charge_nothing(rt: HostRuntime) -> Result<(), Fail> {
    let records = [word(12, 0, 40)];
    let mut gate = over(&records, tens()?, Opening::new(0)?);
    for _ in 0..2 {
        assert_eq!(rt; gate.head(), Ok(word(12, 0, 42)));
        assert_eq!(rt; gate.lapses(), Ok(1));
        assert_eq!(rt; gate.misses(0), Ok(0));
        assert_eq!(rt; gate.released(), 0);
        assert_eq!(rt; gate.clock(), 0);
    }
    assert_eq!(rt; gate.take(), Ok(word(12, 0, 42)));
    assert_eq!(rt; gate.misses(0), Ok(1));
    assert_eq!(rt; gate.released(), 1);
    assert_eq!(rt; gate.clock(), 42);
    Ok(())
}

#[test]
fn refused_takes_count_nothing(rt: HostRuntime) -> Result<(), Fail> {
    let records = [word(12, 0, 40)];
    let mut gate = over(&records, tens()?, Opening::new(0)?);
    assert_eq!(rt; gate.take(), Ok(word(12, 0, 42)));
    for _ in 0..2 {
        assert_eq!(rt; gate.take(), Err(End::Dry));
        assert_eq!(rt; gate.head(), Err(End::Dry));
        assert_eq!(rt; gate.lapses(), Err(End::Dry));
        assert_eq!(rt; gate.released(), 1);
        assert_eq!(rt; gate.clock(), 42);
        assert_eq!(rt; gate.misses(0), Ok(1));
    }
    Ok(())
}

#[test]
fn a_class_above_seven_is_refused(rt: HostRuntime) -> Result<(), Fail> {
    let records = four();
    let gate = over(&records, tens()?, Opening::new(0)?);
    assert_eq!(rt; gate.misses(7), Ok(0));
    assert_eq!(rt; gate.misses(8), Err(UnknownClass));
    assert_eq!(rt; gate.misses(255), Err(UnknownClass));
    assert_eq!(rt; UnknownClass.number(), 8);
    Ok(())
}

#[test]
fn a_gate_over_a_gate_opened_alike_adds_nothing(rt: HostRuntime) -> Result<(), Fail> {
    let records = four();
    let mut gate = Gate::open(
        over(&records, tens()?, Opening::new(0)?),
        tens()?,
        OwnRule,
        Opening::new(0)?,
    );
    assert_eq!(rt; gate.take(), Ok(word(0, 0, 10)));
    assert_eq!(rt; gate.take(), Ok(word(12, 0, 42)));
    assert_eq!(rt; gate.take(), Ok(word(15, 1, 52)));
    assert_eq!(rt; gate.take(), Ok(word(50, 0, 192)));
    assert_eq!(rt; gate.take(), Err(End::Dry));
    assert_eq!(rt; gate.misses(0), Ok(3));
    Ok(())
}

#[test]
fn a_bucket_over_a_gate_raises_its_release_ticks(rt: HostRuntime) -> Result<(), Fail> {
    let records = four();
    let mut bucket = Bucket::new(over(&records, tens()?, Opening::new(0)?), Width::new(25)?);
    assert_eq!(rt; bucket.take(), Ok(word(0, 0, 25)));
    assert_eq!(rt; bucket.take(), Ok(word(12, 0, 50)));
    assert_eq!(rt; bucket.take(), Ok(word(15, 1, 75)));
    assert_eq!(rt; bucket.take(), Ok(word(50, 0, 200)));
    assert_eq!(rt; bucket.take(), Err(End::Dry));
    Ok(())
}

#[test]
fn a_gate_over_a_bucket_predicts_from_the_raised_ticks(rt: HostRuntime) -> Result<(), Fail> {
    let records = four();
    let records: &[Reply<Word>] = &records;
    let bucket = Bucket::new(Trace::new(records), Width::new(25)?);
    let mut gate = Gate::open(bucket, tens()?, OwnRule, Opening::new(0)?);
    let expected = [
        (0, 0, 30, 1),
        (12, 0, 50, 0),
        (15, 1, 60, 0),
        (50, 0, 200, 2),
    ];
    for (asked, class, tick, misses) in expected {
        assert_eq!(rt; gate.lapses(), Ok(misses));
        assert_eq!(rt; gate.take(), Ok(word(asked, class, tick)));
    }
    assert_eq!(rt; gate.misses(0), Ok(3));
    assert_eq!(rt; gate.misses(1), Ok(0));
    Ok(())
}

// Two replies, which leave at 42 after one miss and at 52.
fn two() -> [Reply<Word>; 2] {
    [word(12, 0, 40), word(15, 1, 41)]
}

#[test]
fn repeats_refused_takes_and_bad_classes_are_played_as_they_are_asked(
    rt: HostRuntime,
) -> Result<(), Fail> {
    let records = two();
    let mut gate = over(&records, tens()?, Opening::new(0)?);
    let mut events = [Event::Clock(7); 17];
    let requests = [
        Request::Head,
        Request::Head,
        Request::Lapses,
        Request::Take,
        Request::Misses(0),
        Request::Misses(8),
        Request::Clock,
        Request::Released,
        Request::Lapses,
        Request::Take,
        Request::Take,
        Request::Take,
        Request::Head,
        Request::Lapses,
        Request::Misses(1),
        Request::Released,
        Request::Clock,
    ];
    let expected = [
        Event::Head(Ok(word(12, 0, 42))),
        Event::Head(Ok(word(12, 0, 42))),
        Event::Lapses(Ok(1)),
        Event::Take(Ok(word(12, 0, 42))),
        Event::Misses(0, Ok(1)),
        Event::Misses(8, Err(UnknownClass)),
        Event::Clock(42),
        Event::Released(1),
        Event::Lapses(Ok(0)),
        Event::Take(Ok(word(15, 1, 52))),
        Event::Take(Err(End::Dry)),
        Event::Take(Err(End::Dry)),
        Event::Head(Err(End::Dry)),
        Event::Lapses(Err(End::Dry)),
        Event::Misses(1, Ok(0)),
        Event::Released(2),
        Event::Clock(52),
    ];
    assert_eq!(rt; play(&mut gate, &requests, &mut events), 17);
    assert_eq!(rt; events, expected);
    Ok(())
}

#[test]
fn swapped_calls_have_other_answers(rt: HostRuntime) -> Result<(), Fail> {
    let records = two();
    let mut events = [Event::Clock(7); 2];
    let mut gate = over(&records, tens()?, Opening::new(0)?);
    assert_eq!(rt;
        play(&mut gate, &[Request::Head, Request::Take], &mut events),
        2
    );
    assert_eq!(rt;
        events,
        [
            Event::Head(Ok(word(12, 0, 42))),
            Event::Take(Ok(word(12, 0, 42))),
        ]
    );
    let mut gate = over(&records, tens()?, Opening::new(0)?);
    assert_eq!(rt;
        play(&mut gate, &[Request::Take, Request::Head], &mut events),
        2
    );
    assert_eq!(rt;
        events,
        [
            Event::Take(Ok(word(12, 0, 42))),
            Event::Head(Ok(word(15, 1, 52))),
        ]
    );
    Ok(())
}

#[test]
fn requests_without_a_place_are_not_made(rt: HostRuntime) -> Result<(), Fail> {
    let records = two();
    let mut gate = over(&records, tens()?, Opening::new(0)?);
    let mut events = [Event::Clock(7); 2];
    let requests = [Request::Take, Request::Clock, Request::Take, Request::Take];
    assert_eq!(rt; play(&mut gate, &requests, &mut events), 2);
    assert_eq!(rt;
        events,
        [Event::Take(Ok(word(12, 0, 42))), Event::Clock(42)]
    );
    assert_eq!(rt; gate.released(), 1);
    assert_eq!(rt; gate.head(), Ok(word(15, 1, 52)));
    Ok(())
}

#[test]
fn places_behind_the_reports_stay_as_they_were(rt: HostRuntime) -> Result<(), Fail> {
    let records = two();
    let mut gate = over(&records, tens()?, Opening::new(0)?);
    let mut events = [Event::Clock(7); 4];
    let none: [Request; 0] = [];
    assert_eq!(rt; play(&mut gate, &none, &mut events), 0);
    assert_eq!(rt; events, [Event::Clock(7); 4]);
    assert_eq!(rt;
        play(&mut gate, &[Request::Lapses, Request::Take], &mut events),
        2
    );
    assert_eq!(rt;
        events,
        [
            Event::Lapses(Ok(1)),
            Event::Take(Ok(word(12, 0, 42))),
            Event::Clock(7),
            Event::Clock(7),
        ]
    );
    Ok(())
}
