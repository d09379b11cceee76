// List files: a reply to a row.
ghost use Rattle.std.specs.Prelude.{◌≡◌, ℕ, ◌*◌, ◌≤◌, ◌++◌, true, [], length};
ghost use Rattle.source.specs.declared.reply.Reply.{Reply};
ghost use Rattle.rows.specs.Columns.{list_row};
ghost use Rattle.rows.specs.Rows.{fits};
ghost use Rattle.text.specs.Files.{Filled, Holds, fill, spare};
ghost use Rattle.text.specs.Lists.{numbers_of, reply_shown, reply_read, list_step, list_answer, list_read, ListExact, over, last_asked, reply_after};
ghost use Rattle.text.specs.Filling.{fill_room};
ghost use Rattle.text.specs.ListWriting.{check_answer, list_write_answer, ListWritten, ReadsBack};

use super::fault::{FileFault, ListFault};
use super::file::{RowTaker, count_rows, read_rows};
use rows::fault::{Numbered, RowFault, at_number};
use rows::layout::LIST_ROW;
use source::reply::Reply;

// A list holds at most this many rows.
pub const MOST_REPLIES: usize = 50_000;

// The reply of a row; its ready tick is not before its asked tick, and that is not before `last`.
fn read_reply(row: &[u8], last: u32) -> Result<Reply<u32>, RowFault>
    ensures { result ≡ reply_read last row.now }
{
    let [asked, class, ready, word] = LIST_ROW.read(row)?;
    if asked < u64::from(last) || ready < asked {
        return Err(RowFault::Order);
    }
    Ok(Reply {
        asked: asked as u32,
        class: class as u8,
        ready: ready as u32,
        body: word as u32,
    })
}

// The replies of a list, read into the front of a buffer: how many there are so far, and when the last was asked.
// The buffer is held whole, since a proof does not follow a mutable slice that is cut as it is filled.
#[derive(Drop)]
struct ListRows<'a> {
    out: &'a mut [Reply<u32>],
    count: usize,
    last: u32,
}

impl<'a> ListRows<'a> {
    fn new(out: &'a mut [Reply<u32>]) -> ListRows<'a>
        ensures same { result.out.ghost_name ≡ out.entry.ghost_name }
        ensures value { result.out.now ≡ out.old }
        ensures none { (result.count ≡ 0) × (result.last ≡ 0) }
    {
        ListRows {
            out,
            count: 0,
            last: 0,
        }
    }
}

impl RowTaker for ListRows<'_> {
    ghost State = { Filled ℕ (Reply ℕ) };

    ghost stands = { λ s self. Holds s s.kept self.out self.count × (self.last ≡ last_asked 0 s.front) };

    ghost step = { fill reply_after };

    ghost room = { spare };

    fn take_row(&mut self, row: &[u8]) -> Result<(), RowFault> {
        let reply = read_reply(row, self.last)?;
        self.out[self.count] = reply;
        self.count += 1;
        self.last = reply.asked;
        Ok(())
    }

    ghost takes_room = { fill_room reply_after };
}

// Reads a list into the front of `out`, and answers how many replies it has. Refused for its size, it writes nothing;
// refused at a row, it leaves the replies before that row.
pub fn read_list(bytes: &[u8], out: &mut [Reply<u32>]) -> Result<usize, FileFault>
    ensures value { result ≡ list_answer bytes.now (length out.old) }
    ensures after { out.new ≡ over (list_read bytes.now (length out.old)) out.old }
    ensures exact { ListExact bytes.now (length out.old) result }
{
    let most = MOST_REPLIES.min(out.len());
    let rows = count_rows(bytes.len(), LIST_ROW.bytes, most)?;
    let mut list = ListRows::new(out);
    read_rows(bytes, rows, LIST_ROW.bytes, &mut list)
}

// Whether the replies are a lawful list of at most 50,000.
fn check_list(records: &[Reply<u32>]) -> Result<(), FileFault>
    ensures { result ≡ check_answer records.now }
{
    if records.len() > MOST_REPLIES {
        return Err(FileFault::Size);
    }
    let mut last = 0;
    for (i, reply) in records.iter().enumerate() {
        if !reply.follows(last) {
            return Err(FileFault::Row(Numbered {
                number: i as u32 + 1,
                fault: RowFault::Order,
            }));
        }
        last = reply.asked;
    }
    Ok(())
}

// Writes the row of a reply that is in range. Its numbers are wanted here alone.
fn write_reply(reply: Reply<u32>, row: &mut [u8])
    requires room { length row.old ≡ 35 }
    requires asked { reply.asked ≤ 1000000000 }
    requires kind { reply.«class» ≤ 7 }
    requires ready { reply.ready ≤ 1000000000 }
    ensures after { row.new ≡ reply_shown reply }
    ensures within { fits list_row (numbers_of reply) ≡ true }
{
    let _ = LIST_ROW.write(
        &[
            u64::from(reply.asked),
            u64::from(reply.class),
            u64::from(reply.ready),
            u64::from(reply.body),
        ],
        row,
    );
}

// Writes a lawful list to the front of `out`, and answers how many bytes it has. Refused, it writes nothing.
pub fn write_list(records: &[Reply<u32>], out: &mut [u8]) -> Result<usize, ListFault>
    ensures value { result ≡ list_write_answer records.now (length out.old) }
    ensures after { ListWritten records.now out.old out.new result }
    ensures back { ReadsBack records.now out.new result }
{
    check_list(records)?;
    let width = LIST_ROW.bytes;
    let size = width * records.len();
    if size > out.len() {
        return Err(ListFault::Room);
    }
    // Written by place: nothing is known of what a loop over `chunks_exact_mut` beside another iterator wrote.
    for (i, reply) in records.iter().enumerate() {
        let start = width * i;
        write_reply(*reply, &mut out[start..start + width]);
    }
    Ok(size)
}
