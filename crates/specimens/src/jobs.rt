// The job on bytes: pages, and every refusal that a schedule and a list can cause.
use driver::job::job;
use source::reply::Reply;
use std::process::Abort;
use std::test::Fail;

const NO_REPLY: Reply<u32> = Reply {
    asked: 0,
    class: 0,
    ready: 0,
    body: 0,
};

// What the job prints is the text. The list may have three rows, and the page four lines.
fn prints(rt: &impl Abort, schedule: &[u8], list: &[u8], text: &[u8]) -> Result<(), Fail> {
    let mut records = [NO_REPLY; 3];
    let mut page = [0u8; 144];
    match job(schedule, list, &mut records, &mut page) {
        Ok(length) => {
            assert!(rt; length <= 144);
            assert!(rt; &page[0..length] == text);
            Ok(())
        }
        Err(line) => {
            let line: &[u8] = &line;
            assert!(rt; line == text);
            Ok(())
        }
    }
}

#[test]
fn both_files_empty_print_a_foot_alone(rt: HostRuntime) -> Result<(), Fail> {
    prints(&rt, b"", b"", b"=    0          0  0          0   0\n")
}

#[test]
fn a_reply_on_time_and_a_late_one(rt: HostRuntime) -> Result<(), Fail> {
    prints(
        &rt,
        b" 0  0         10\n",
        b"         0 0         10          0\n         0 0         40          0\n",
        b"     1          0  0         10   0\n     2          0  0         40   1\n=    2         40  1          6   1\n",
    )
}

#[test]
fn a_page_without_room_for_its_foot_is_refusal_11(rt: HostRuntime) -> Result<(), Fail> {
    let mut records = [NO_REPLY; 3];
    let mut page = [0u8; 35];
    match job(b"", b"", &mut records, &mut page) {
        Ok(_) => Err(Fail::new("a page of 35 bytes")),
        Err(line) => {
            let line: &[u8] = &line;
            assert!(rt; line == b"    11     3     0     0\n".as_slice());
            Ok(())
        }
    }
}

#[test]
fn a_field_out_of_form_is_refusal_1(rt: HostRuntime) -> Result<(), Fail> {
    prints(
        &rt,
        b" 0  0         01\n",
        b"",
        b"     1     1     1     3\n",
    )?;
    prints(
        &rt,
        b"+0  0         10\n",
        b"",
        b"     1     1     1     1\n",
    )?;
    prints(
        &rt,
        b" 0  0         10\n 0            20\n",
        b"",
        b"     1     1     2     2\n",
    )?;
    prints(
        &rt,
        b" 0  0         10\n",
        b"        0x 0          7        900\n",
        b"     1     2     1     1\n",
    )?;
    prints(
        &rt,
        b" 0  0         10\n",
        b"         0 0          7        900\n        12 0         40       \t901\n",
        b"     1     2     2     4\n",
    )?;
    prints(
        &rt,
        b" 0  0         10\n",
        b"         0 0                   900\n",
        b"     1     2     1     3\n",
    )
}

#[test]
fn a_number_past_its_limit_is_refusal_2(rt: HostRuntime) -> Result<(), Fail> {
    prints(
        &rt,
        b" 8  0         10\n",
        b"",
        b"     2     1     1     1\n",
    )?;
    prints(
        &rt,
        b" 0  0         10\n 0  1 1000000001\n",
        b"",
        b"     2     1     2     3\n",
    )?;
    prints(
        &rt,
        b" 0  0         10\n",
        b"1000000001 0          7        900\n",
        b"     2     2     1     1\n",
    )?;
    prints(
        &rt,
        b" 0  0         10\n",
        b"         0 9          7        900\n",
        b"     2     2     1     2\n",
    )?;
    prints(
        &rt,
        b" 0  0         10\n",
        b"         0 099999999999        900\n",
        b"     2     2     1     3\n",
    )?;
    prints(
        &rt,
        b" 0  0         10\n",
        b"         0 0          7 4294967296\n",
        b"     2     2     1     4\n",
    )
}

#[test]
fn a_row_without_its_newline_is_refusal_3(rt: HostRuntime) -> Result<(), Fail> {
    prints(
        &rt,
        b" 0  0         10 ",
        b"",
        b"     3     1     1     0\n",
    )?;
    prints(
        &rt,
        b" 0  0         10\n",
        b"         0 0          7        900\n         0 0          7        900\r",
        b"     3     2     2     0\n",
    )
}

#[test]
fn a_wrong_size_is_refusal_4_and_comes_before_any_row(rt: HostRuntime) -> Result<(), Fail> {
    prints(
        &rt,
        b"0  0         10\n",
        b"         0 0          7        900\n",
        b"     4     1     0     0\n",
    )?;
    prints(
        &rt,
        b"xxxxxxxxxxxxxxxx",
        b"         0 0          7        900\n",
        b"     4     1     0     0\n",
    )?;
    prints(
        &rt,
        b" 0  0         10\n",
        b"         0 0          7        900",
        b"     4     2     0     0\n",
    )?;
    prints(
        &rt,
        b" 0  0         10\n",
        b"         0 0          7        900\n         0 0          7        900\n         0 0          7        900\n         0 0          7        900\n",
        b"     4     2     0     0\n",
    )
}

#[test]
fn a_reply_out_of_order_is_refusal_5(rt: HostRuntime) -> Result<(), Fail> {
    prints(
        &rt,
        b" 0  0         10\n",
        b"         8 0          7        900\n",
        b"     5     2     1     0\n",
    )?;
    prints(
        &rt,
        b" 0  0         10\n",
        b"         5 0          7        900\n         4 0          7        901\n",
        b"     5     2     2     0\n",
    )
}

#[test]
fn a_step_out_of_range_is_refusal_9(rt: HostRuntime) -> Result<(), Fail> {
    prints(
        &rt,
        b" 0  0          0\n",
        b"",
        b"     9     1     1     0\n",
    )?;
    prints(
        &rt,
        b" 0  0    1000001\n",
        b"",
        b"     9     1     1     0\n",
    )?;
    prints(
        &rt,
        b" 0  3          0\n",
        b"",
        b"     9     1     1     0\n",
    )
}

#[test]
fn a_step_out_of_order_is_refusal_10(rt: HostRuntime) -> Result<(), Fail> {
    prints(
        &rt,
        b" 0  0         10\n 0  1         19\n",
        b"",
        b"    10     1     2     0\n",
    )?;
    prints(
        &rt,
        b" 0  0         10\n 0  2         40\n",
        b"",
        b"    10     1     2     0\n",
    )?;
    prints(
        &rt,
        b" 0  1         10\n",
        b"",
        b"    10     1     1     0\n",
    )
}

#[test]
fn a_class_without_a_step_is_refusal_12_and_comes_last(rt: HostRuntime) -> Result<(), Fail> {
    prints(
        &rt,
        b" 0  0         10\n",
        b"         0 0          7        900\n         0 1          7        901\n",
        b"    12     2     2     2\n",
    )?;
    prints(
        &rt,
        b"",
        b"         0 0          7        900\n",
        b"    12     2     1     2\n",
    )?;
    prints(
        &rt,
        b" 1  0         10\n",
        b"         0 0          7        900\n         8 0          7        901\n",
        b"     5     2     2     0\n",
    )
}

#[test]
fn the_first_refusal_in_order_is_printed(rt: HostRuntime) -> Result<(), Fail> {
    prints(
        &rt,
        b" 8  0         10\n",
        b"         8 0          7        900\n",
        b"     2     1     1     1\n",
    )?;
    prints(
        &rt,
        b" 0 0199999999999\n",
        b"",
        b"     1     1     1     2\n",
    )?;
    prints(
        &rt,
        b" 9  0         10x",
        b"",
        b"     2     1     1     1\n",
    )?;
    prints(
        &rt,
        b" 0  0         10\n",
        b"         9 0          7        900x",
        b"     3     2     1     0\n",
    )
}
