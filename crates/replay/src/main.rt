// Reads quotes.sch and quotes.lst in the current folder, and prints the page of a gate over the list, or why there is
// none.
#![tactic(auto)]

ghost use Rattle.std.specs.Prelude.{◌≤◌, IfOk, vec_len};

use driver::job::job;
use source::reply::Reply;
use std::io::{Read, Write};
use std::process::ExitCode;
use std::{fs, io};

// The program holds so many list rows.
const MOST_ROWS: usize = 1_800;

// The bytes of a file that can matter: those of the longest one that is held, and one more to tell a longer one.
const SCHEDULE_BYTES: usize = 128 * 17 + 1;

const LIST_BYTES: usize = MOST_ROWS * 35 + 1;

// The bytes of the longest page.
const PAGE_BYTES: usize = (MOST_ROWS + 1) * 36;

// Reads the front of a file, at most so many bytes; a missing file is empty. A buffer of that size bounds what is read:
// of what the library's reading to the end of a file gives, a proof knows nothing.
fn read_front(rt: &HostRuntime, path: &str, most: usize) -> anyhow::Result<Vec<u8>>
    ensures { IfOk result (λ bytes. vec_len bytes ≤ most) }
{
    let mut bytes = vec![in rt.alloc(); 0; most]?;
    let mut length = 0;
    match fs::open(rt, path) {
        Ok(mut file) => {
            while length < bytes.len() {
                let n = file.read(&mut bytes[length..])?;
                if n == 0 {
                    break;
                }
                length += n;
            }
        }
        Err(e) if e.kind() == io::ErrorKind::NotFound => {}
        Err(e) => return Err(e.into()),
    }
    bytes.truncate(length);
    Ok(bytes)
}

// Prints the page and ends with status 0, or prints the refusal line and ends with status 1; a file that cannot be
// read is reported on standard error, with status 1 too.
fn main(rt: HostRuntime) -> anyhow::Result<ExitCode> {
    let none = Reply {
        asked: 0,
        class: 0,
        ready: 0,
        body: 0,
    };
    let schedule = read_front(&rt, "quotes.sch", SCHEDULE_BYTES)?;
    let list = read_front(&rt, "quotes.lst", LIST_BYTES)?;
    let mut records = vec![in rt.alloc(); none; MOST_ROWS]?;
    let mut page = vec![in rt.alloc(); 0; PAGE_BYTES]?;
    match job(&schedule, &list, &mut records, &mut page) {
        Ok(length) => {
            rt.stdout().write_all(&page[..length])?;
            Ok(ExitCode::SUCCESS)
        }
        Err(line) => {
            rt.stdout().write_all(&line)?;
            Ok(ExitCode::FAILURE)
        }
    }
}
