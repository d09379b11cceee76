// Paces and penalty rules.
use pace::doubling::Doubling;
use pace::fault::{QuantumFault, StepFault, UnknownClass};
use pace::rules::{OwnRule, SharedRule};
use pace::steps::Steps;
use pace::{Pace, Penalty};
use source::refusal::Refused;

#[test]
fn two_steps_give_their_waits_and_then_double(rt: HostRuntime) {
    let mut steps = Steps::new();
    assert_eq!(rt; steps.add(0, 0, 10), Ok(()));
    assert_eq!(rt; steps.add(0, 1, 25), Ok(()));
    assert_eq!(rt; steps.quantum(0), Ok(10));
    assert_eq!(rt; steps.wait(0, 0), Ok(10));
    assert_eq!(rt; steps.wait(0, 1), Ok(25));
    assert_eq!(rt; steps.wait(0, 2), Ok(50));
    assert_eq!(rt; steps.wait(0, 4294967295), Ok(1_000_000_001));
    assert_eq!(rt; steps.wait(1, 0), Ok(1_000_000));
    assert_eq!(rt; steps.wait(8, 0), Err(UnknownClass));
    assert!(rt; steps.has_step(0) && !steps.has_step(1) && !steps.has_step(8));
}

#[test]
fn a_step_is_refused_for_its_class_then_its_range_then_its_order(rt: HostRuntime) {
    let mut steps = Steps::new();
    assert_eq!(rt; steps.add(8, 0, 0), Err(StepFault::Class(UnknownClass)));
    assert_eq!(rt; steps.add(7, 1, 0), Err(StepFault::Range));
    assert_eq!(rt; steps.add(7, 1, 1_000_001), Err(StepFault::Range));
    assert_eq!(rt; steps.add(7, 1, 10), Err(StepFault::Order));
    assert_eq!(rt; steps.add(7, 0, 10), Ok(()));
    assert_eq!(rt; steps.add(7, 2, 1_000_000_001), Err(StepFault::Range));
    assert_eq!(rt; steps.add(7, 2, 20), Err(StepFault::Order));
    assert_eq!(rt; steps.add(7, 1, 19), Err(StepFault::Order));
    assert_eq!(rt; steps.add(7, 1, 20), Ok(()));
}

#[test]
fn a_class_has_sixteen_steps_at_most(rt: HostRuntime) {
    let mut steps = Steps::new();
    let mut wait = 1;
    for epoch in 0..16 {
        assert_eq!(rt; steps.add(3, epoch, wait), Ok(()));
        wait *= 2;
    }
    assert_eq!(rt; steps.wait(3, 15), Ok(32_768));
    assert_eq!(rt; steps.wait(3, 16), Ok(65_536));
    assert_eq!(rt; steps.add(3, 16, 65_536), Err(StepFault::Order));
}

#[test]
fn a_quantum_doubles_with_each_epoch(rt: HostRuntime) {
    let mut pace = Doubling::new();
    assert_eq!(rt; pace.quantum(7), Ok(1_000_000));
    assert_eq!(rt; pace.set(8, 0), Err(QuantumFault::Class(UnknownClass)));
    assert_eq!(rt; pace.set(7, 0), Err(QuantumFault::Range));
    assert_eq!(rt; pace.set(7, 1_000_001), Err(QuantumFault::Range));
    assert_eq!(rt; pace.set(7, 10), Ok(()));
    assert_eq!(rt; pace.wait(7, 3), Ok(80));
    assert_eq!(rt; pace.wait(7, 26), Ok(671_088_640));
    assert_eq!(rt; pace.wait(7, 27), Ok(1_000_000_001));
    assert_eq!(rt; pace.quantum(8), Err(UnknownClass));
}

#[test]
fn the_rules_count_own_or_all_misses(rt: HostRuntime) {
    assert_eq!(rt; OwnRule.epoch(2, 5), 2);
    assert_eq!(rt; SharedRule.epoch(2, 5), 5);
}

#[test]
fn refusals_have_their_numbers(rt: HostRuntime) {
    assert_eq!(rt; StepFault::Class(UnknownClass).number(), 8);
    assert_eq!(rt; StepFault::Range.number(), 9);
    assert_eq!(rt; StepFault::Order.number(), 10);
    assert_eq!(rt; QuantumFault::Class(UnknownClass).number(), 8);
    assert_eq!(rt; QuantumFault::Range.number(), 9);
}
