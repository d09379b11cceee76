// List files: what each refusal names and leaves, the order of judgement, the limits, and writing.
use source::reply::Reply;
use std::process::Abort;
use std::test::Fail;
use text::fault::{FileFault, ListFault};
use text::list::{read_list, write_list};

const fn reply(asked: u32, class: u8, ready: u32, body: u32) -> Reply<u32> {
    Reply {
        asked,
        class,
        ready,
        body,
    }
}

// What the buffers hold before a call.
const OLD: Reply<u32> = Reply {
    asked: 1,
    class: 2,
    ready: 3,
    body: 4,
};

const FIRST_ROW: &[u8; 35] = b"         5 0          5          1\n";

// Reads the first row and then another, which is refused; the first reply stands, and the rest of the buffer.
fn refuses(rt: &impl Abort, second: &[u8; 35], number: u32, field: u32) -> Result<(), Fail> {
    let mut bytes = [0u8; 70];
    bytes[0..35].copy_from_slice(FIRST_ROW);
    bytes[35..70].copy_from_slice(second);
    let mut out = [OLD; 3];
    let Err(fault) = read_list(&bytes, &mut out) else {
        return Err(Fail::new("a list was read"));
    };
    assert_eq!(rt; fault.refusal().numbers(), [number, 2, field]);
    assert_eq!(rt; out, [reply(5, 0, 5, 1), OLD, OLD]);
    Ok(())
}

#[test]
fn a_refused_row_is_named_and_the_replies_before_it_stand(rt: HostRuntime) -> Result<(), Fail> {
    for (row, number, field) in [
        (b"        09 0          9          0\n", 1, 1),
        (b"         9\t0          9          0\n", 1, 2),
        (b"         9 0         +9          0\n", 1, 3),
        (b"         9 0          9         0\r\n", 1, 4),
        (b"1000000001 0 1000000001          0\n", 2, 1),
        (b"         9 8          9          0\n", 2, 2),
        (b"         9 0 1000000001          0\n", 2, 3),
        (b"         9 0          9 4294967296\n", 2, 4),
        (b"         9 0          9          0\r", 3, 0),
        (b"         4 0          9          0\n", 5, 0),
        (b"         9 0          8          0\n", 5, 0),
    ] {
        refuses(&rt, row, number, field)?;
    }
    Ok(())
}

#[test]
fn fields_come_from_the_left_then_the_newline_then_the_order(rt: HostRuntime) -> Result<(), Fail> {
    for (row, number, field) in [
        (b"        4x 8 1000000001          x\r", 1, 1),
        (b"1000000001 x          x          x\r", 2, 1),
        (b"         9 8          x          0\n", 2, 2),
        (b"         4 8          x          x\r", 2, 2),
        (b"         4 x 1000000001          x\r", 1, 2),
        (b"         4 0 1000000001          x\r", 2, 3),
        (b"         4 0          x 4294967296\r", 1, 3),
        (b"         4 0          3 4294967296\r", 2, 4),
        (b"         4 0          3          x\r", 1, 4),
        (b"         4 0          3          0\r", 3, 0),
        (b"         4 0          3          0\n", 5, 0),
    ] {
        refuses(&rt, row, number, field)?;
    }
    Ok(())
}

// So many bytes that are no row are refused for their size, where there is room for two replies.
fn wrong_size(rt: &impl Abort, size: usize) {
    let bytes = [b'x'; 105];
    let mut out = [OLD; 2];
    assert!(rt; size <= 105);
    assert_eq!(rt; read_list(&bytes[0..size], &mut out), Err(FileFault::Size));
    assert_eq!(rt; out, [OLD; 2]);
}

#[test]
fn the_size_of_a_list_is_judged_before_its_rows(rt: HostRuntime) {
    for size in [1, 34, 36, 69, 71, 104, 105] {
        wrong_size(&rt, size);
    }
    let mut out = [OLD; 2];
    assert_eq!(rt; read_list(b"", &mut out), Ok(0));
    assert_eq!(rt; out, [OLD; 2]);
    assert_eq!(rt; FileFault::Size.refusal().numbers(), [4, 0, 0]);
}

#[test]
fn a_list_written_reads_back_and_both_leave_what_lies_after_it(rt: HostRuntime) {
    let text =
        b"         5 0          5          1\n         5 7 1000000000 4294967295\n1000000000 3 1000000000          0\n";
    let list = [
        reply(5, 0, 5, 1),
        reply(5, 7, 1_000_000_000, 4_294_967_295),
        reply(1_000_000_000, 3, 1_000_000_000, 0),
    ];
    let mut bytes = [7u8; 108];
    assert_eq!(rt; write_list(&list, &mut bytes), Ok(105));
    assert!(rt; &bytes[0..105] == text.as_slice());
    assert!(rt; &bytes[105..108] == [7, 7, 7].as_slice());
    let mut out = [OLD; 4];
    assert_eq!(rt; read_list(&bytes[0..105], &mut out), Ok(3));
    assert!(rt; &out[0..3] == list.as_slice());
    assert_eq!(rt; out[3], OLD);
}

// A lawful reply and then another are refused as a list; the buffer stays as it was.
fn unwritten(rt: &impl Abort, second: Reply<u32>) -> Result<(), Fail> {
    let mut bytes = [7u8; 69];
    let Err(fault) = write_list(&[reply(5, 0, 5, 1), second], &mut bytes) else {
        return Err(Fail::new("a list was written"));
    };
    assert_eq!(rt; fault.refusal().numbers(), [5, 2, 0]);
    assert_eq!(rt; bytes, [7; 69]);
    Ok(())
}

#[test]
fn an_unlawful_list_is_refused_before_its_room_and_nothing_is_written(
    rt: HostRuntime,
) -> Result<(), Fail> {
    for second in [
        reply(4, 0, 9, 0),
        reply(9, 0, 8, 0),
        reply(9, 8, 9, 0),
        reply(9, 0, 1_000_000_001, 0),
        reply(1_000_000_001, 0, 1_000_000_001, 0),
    ] {
        unwritten(&rt, second)?;
    }
    Ok(())
}

#[test]
fn a_buffer_one_byte_too_short_is_refusal_11(rt: HostRuntime) {
    let mut bytes = [7u8; 69];
    let list = [reply(5, 0, 5, 1), reply(5, 0, 5, 2)];
    assert_eq!(rt; write_list(&list, &mut bytes), Err(ListFault::Room));
    assert_eq!(rt; bytes, [7; 69]);
    assert_eq!(rt; ListFault::Room.refusal().numbers(), [11, 0, 0]);
}

#[test]
fn a_list_has_fifty_thousand_rows_at_most(rt: HostRuntime) -> Result<(), Fail> {
    let mut bytes = vec![in rt.alloc()]?;
    for _ in 0..50_000 {
        bytes.extend_from_slice(FIRST_ROW)?;
    }
    let mut out = vec![in rt.alloc(); OLD; 50_001]?;
    assert_eq!(rt; read_list(bytes.as_slice(), out.as_mut_slice()), Ok(50_000));
    assert_eq!(rt; out.get(49_999).copied(), Some(reply(5, 0, 5, 1)));
    assert_eq!(rt; out.get(50_000).copied(), Some(OLD));
    bytes.extend_from_slice(FIRST_ROW)?;
    assert_eq!(rt;
        read_list(bytes.as_slice(), out.as_mut_slice()),
        Err(FileFault::Size)
    );
    Ok(())
}

#[test]
fn a_list_of_fifty_thousand_is_written_and_no_longer_one(rt: HostRuntime) -> Result<(), Fail> {
    let mut list = vec![in rt.alloc(); reply(5, 0, 5, 1); 50_000]?;
    let mut bytes = vec![in rt.alloc(); 7; 1_750_035]?;
    assert_eq!(rt;
        write_list(list.as_slice(), bytes.as_mut_slice()),
        Ok(1_750_000)
    );
    assert_eq!(rt; bytes.get(1_749_999).copied(), Some(b'\n'));
    assert_eq!(rt; bytes.get(1_750_000).copied(), Some(7));
    list.push(OLD)?;
    assert_eq!(rt;
        write_list(list.as_slice(), bytes.as_mut_slice()),
        Err(ListFault::File(FileFault::Size))
    );
    Ok(())
}
