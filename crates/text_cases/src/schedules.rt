// Schedule files: what each refusal names and leaves, the order of judgement and the limits; a list with its schedule.
use pace::Pace;
use pace::steps::Steps;
use source::reply::Reply;
use std::alloc::AllocError;
use std::process::Abort;
use std::test::Fail;
use text::fault::FileFault;
use text::pair::{NoStep, pair};
use text::schedule::read_schedule;

// Reads a first step of class 0 and then a row that is refused; the first step stands, and the steps of before are gone.
fn refuses(rt: &impl Abort, second: &[u8; 17], number: u32, field: u32) -> Result<(), Fail> {
    let mut bytes = [0u8; 34];
    bytes[0..17].copy_from_slice(b" 0  0         10\n");
    bytes[17..34].copy_from_slice(second);
    let mut steps = Steps::new();
    assert!(rt; steps.add(7, 0, 5).is_ok());
    let Err(fault) = read_schedule(&bytes, &mut steps) else {
        return Err(Fail::new("a schedule was read"));
    };
    assert_eq!(rt; fault.refusal().numbers(), [number, 2, field]);
    assert!(rt; steps.has_step(0) && !steps.has_step(1) && !steps.has_step(7));
    assert_eq!(rt; steps.wait(0, 1), Ok(20));
    Ok(())
}

#[test]
fn a_refused_row_is_named_and_the_steps_before_it_stand(rt: HostRuntime) -> Result<(), Fail> {
    for (row, number, field) in [
        (b"01  0         10\n", 1, 1),
        (b" 1\t 0         10\n", 1, 2),
        (b" 1  0        -10\n", 1, 3),
        (b" 1  0        10\r\n", 1, 3),
        (b" 8  0         10\n", 2, 1),
        (b" 1  0 1000000001\n", 2, 3),
        (b" 1  0         10\r", 3, 0),
        (b" 1  0          0\n", 9, 0),
        (b" 1  0    1000001\n", 9, 0),
        (b" 1  1         10\n", 10, 0),
        (b" 0  0         20\n", 10, 0),
        (b" 0  2         20\n", 10, 0),
        (b" 0  1         19\n", 10, 0),
    ] {
        refuses(&rt, row, number, field)?;
    }
    Ok(())
}

#[test]
fn fields_come_from_the_left_then_the_newline_then_the_range_then_the_order(
    rt: HostRuntime,
) -> Result<(), Fail> {
    for (row, number, field) in [
        (b"01  x 1000000001\r", 1, 1),
        (b" 8  x         10\n", 2, 1),
        (b" 8  x 1000000001\r", 2, 1),
        (b" 1  x 1000000001\r", 1, 2),
        (b" 1999 1000000001\r", 2, 3),
        (b" 1999          x\r", 1, 3),
        (b" 1999          0\r", 3, 0),
        (b" 1999          0\n", 9, 0),
        (b" 1  1          0\n", 9, 0),
        (b" 1999          1\n", 10, 0),
    ] {
        refuses(&rt, row, number, field)?;
    }
    Ok(())
}

// A file of a wrong size; the steps of before stay.
fn wrong_size(rt: &impl Abort, bytes: &[u8]) {
    let mut steps = Steps::new();
    assert!(rt; steps.add(7, 0, 5).is_ok());
    assert_eq!(rt; read_schedule(bytes, &mut steps), Err(FileFault::Size));
    assert!(rt; steps.has_step(7));
}

#[test]
fn the_size_of_a_schedule_is_judged_before_its_rows(rt: HostRuntime) {
    let bytes = [b'x'; 2193];
    for size in [1, 16, 18, 33, 35, 2175, 2177, 2193] {
        assert!(rt; size <= 2193);
        wrong_size(&rt, &bytes[0..size]);
    }
    let mut steps = Steps::new();
    assert!(rt; steps.add(7, 0, 5).is_ok());
    assert_eq!(rt; read_schedule(b"", &mut steps), Ok(0));
    assert!(rt; !steps.has_step(7));
}

// The row of a class and an epoch: the first step of a class is 1, each other 99,999.
fn row_of(class: u8, epoch: u8) -> [u8; 17] {
    let mut row = *b" 0  0      99999\n";
    if epoch == 0 {
        row = *b" 0  0          1\n";
    }
    row[1] = b'0' + class % 8;
    row[4] = b'0' + epoch % 10;
    if epoch > 9 {
        row[3] = b'1';
    }
    row
}

// Sixteen steps of a class.
fn add_class(bytes: &mut Vec<u8>, class: u8) -> Result<(), AllocError> {
    for epoch in 0..16 {
        bytes.extend_from_slice(&row_of(class, epoch))?;
    }
    Ok(())
}

#[test]
fn a_schedule_has_128_rows_at_most(rt: HostRuntime) -> Result<(), Fail> {
    let mut bytes = vec![in rt.alloc()]?;
    for class in 0..8 {
        add_class(&mut bytes, class)?;
    }
    let mut steps = Steps::new();
    assert_eq!(rt; read_schedule(bytes.as_slice(), &mut steps), Ok(128));
    assert_eq!(rt; steps.wait(7, 16), Ok(199_998));
    bytes.extend_from_slice(&row_of(0, 0))?;
    wrong_size(&rt, bytes.as_slice());
    Ok(())
}

#[test]
fn a_seventeenth_step_of_a_class_is_refusal_10(rt: HostRuntime) -> Result<(), Fail> {
    let mut bytes = vec![in rt.alloc()]?;
    add_class(&mut bytes, 3)?;
    bytes.extend_from_slice(&row_of(3, 16))?;
    let mut steps = Steps::new();
    let Err(fault) = read_schedule(bytes.as_slice(), &mut steps) else {
        return Err(Fail::new("seventeen steps were read"));
    };
    assert_eq!(rt; fault.refusal().numbers(), [10, 17, 0]);
    assert_eq!(rt; steps.wait(3, 16), Ok(199_998));
    Ok(())
}

#[test]
fn the_first_row_whose_class_has_no_step_is_refusal_12(rt: HostRuntime) {
    let mut steps = Steps::new();
    let rows = b" 0  0         10\n 2  0         10\n";
    assert_eq!(rt; read_schedule(rows, &mut steps), Ok(2));
    for (classes, answer) in [
        ([0, 2, 0], Ok(())),
        ([1, 2, 1], Err(NoStep { row: 1 })),
        ([0, 7, 1], Err(NoStep { row: 2 })),
        ([2, 0, 8], Err(NoStep { row: 3 })),
        ([0, 2, 255], Err(NoStep { row: 3 })),
    ] {
        assert_eq!(rt; pair(&of_classes(classes), &steps), answer);
    }
    assert_eq!(rt; NoStep { row: 3 }.refusal().numbers(), [12, 3, 2]);
}

// Replies of these classes; their bodies hold nothing.
fn of_classes(classes: [u8; 3]) -> [Reply<()>; 3] {
    classes.map(|class| Reply {
        asked: 0,
        class,
        ready: 0,
        body: (),
    })
}
