// Benches.
use bench::setting::ServerCount;
use bench::{Bench, Job};
use source::Source;
use source::body::{Place, Word};
use source::fault::OutOfRange;
use source::refusal::Refused;
use source::reply::{End, Reply};
use std::test::Fail;

fn job(asked: u32, work: u32) -> Job<Word> {
    Job {
        asked,
        class: 0,
        work,
        body: 1,
    }
}

fn reply(asked: u32, ready: u32) -> Reply<Word> {
    Reply {
        asked,
        class: 0,
        ready,
        body: 1,
    }
}

#[test]
fn three_jobs_on_two_servers_and_on_one(rt: HostRuntime) -> Result<(), Fail> {
    let jobs = [job(0, 5), job(0, 3), job(1, 4)];
    let jobs: &[Job<Word>] = &jobs;
    let mut two = Bench::new(jobs, ServerCount::new(2)?);
    assert_eq!(rt; two.take(), Ok(reply(0, 5)));
    assert_eq!(rt; two.take(), Ok(reply(0, 3)));
    assert_eq!(rt; two.take(), Ok(reply(1, 7)));
    assert_eq!(rt; two.take(), Err(End::Dry));
    let mut one = Bench::new(jobs, ServerCount::new(1)?);
    assert_eq!(rt; one.take(), Ok(reply(0, 5)));
    assert_eq!(rt; one.take(), Ok(reply(0, 8)));
    assert_eq!(rt; one.head(), Ok(reply(1, 12)));
    assert_eq!(rt; one.take(), Ok(reply(1, 12)));
    assert_eq!(rt; one.head(), Err(End::Dry));
    Ok(())
}

#[test]
fn the_first_job_that_ends_the_list_gives_its_mark(rt: HostRuntime) -> Result<(), Fail> {
    let place = Place {
        start: 0,
        length: 9,
    };
    let late = Job {
        asked: 1_000_000_000,
        class: 0,
        work: 1,
        body: place,
    };
    let unknown = Job {
        asked: 1_000_000_000,
        class: 8,
        work: 1,
        body: place,
    };
    let late_first = [late, unknown];
    let late_first: &[Job<Place>] = &late_first;
    assert_eq!(rt;
        Bench::new(late_first, ServerCount::new(4)?).head(),
        Err(End::Horizon)
    );
    let unknown_first = [unknown, late];
    let unknown_first: &[Job<Place>] = &unknown_first;
    assert_eq!(rt;
        Bench::new(unknown_first, ServerCount::new(4)?).head(),
        Err(End::Dry)
    );
    Ok(())
}

#[test]
fn a_job_ends_the_list_where_it_falls_or_is_out_of_range(rt: HostRuntime) -> Result<(), Fail> {
    let cases = [job(4, 1), job(1_000_000_001, 0), job(5, 1_000_001)];
    for bad in cases {
        let jobs = [job(5, 1_000_000), bad];
        let jobs: &[Job<Word>] = &jobs;
        let mut bench = Bench::new(jobs, ServerCount::new(3)?);
        assert_eq!(rt; bench.take(), Ok(reply(5, 1_000_005)));
        assert_eq!(rt; bench.take(), Err(End::Dry));
    }
    Ok(())
}

#[test]
fn there_are_one_to_four_servers(rt: HostRuntime) {
    assert!(rt; ServerCount::new(0).is_err() && ServerCount::new(5).is_err());
    assert!(rt; ServerCount::new(1).is_ok() && ServerCount::new(4).is_ok());
    assert_eq!(rt; OutOfRange.number(), 9);
}
