// Answers an order sheet from standard input: a line of names, and then a line for each order.
//
//     ringsheet < week.sheet
#![tactic(auto)]

ghost use Rattle.std.specs.Prelude.{◌≤◌, length, IfOk};

use byte_posts::BytePost;
use copies::CopyRecord;
use lines::SHEET_LIMIT;
use rack_shelves::RackShelf;
use sheets::answer_sheet;
use std::alloc::{AllocError, Global};
use std::io;
use std::io::{Read, Write};

// The copies on the shelf, and the bytes of 256 messages.
const SHELF_COPIES: usize = 1_024;

const POST_BYTES: usize = 5_632;

// Reads standard input as far as the buffer goes, and tells how much there was. Each read has room for all that is left: where one read
// takes one message, what `read_to_end` offers at first would cut it.
fn read_sheet(rt: &HostRuntime, buffer: &mut [u8]) -> io::Result<usize>
    ensures { IfOk result (λ n. n ≤ length buffer.old) }
{
    let mut input = rt.stdin();
    let mut read = 0;
    while read < buffer.len() {
        let more = input.read(&mut buffer[read..])?;
        if more == 0 {
            break;
        }
        read += more;
    }
    Ok(read)
}

// Answers a sheet with a rack shelf and a byte post, in memory of their own.
fn answer(heap: Global, sheet: &[u8]) -> Result<Vec<u8>, AllocError> {
    let mut copies = vec![in heap; CopyRecord::default(); SHELF_COPIES]?;
    let mut messages = vec![in heap; 0u8; POST_BYTES]?;
    let mut shelf = RackShelf::make(copies.as_mut_slice());
    let mut post = BytePost::make(messages.as_mut_slice());
    answer_sheet(heap, sheet, &mut shelf, &mut post)
}

fn main(rt: HostRuntime) -> anyhow::Result<()> {
    let mut sheet = vec![in rt.alloc(); 0u8; SHEET_LIMIT]?;
    let read = read_sheet(&rt, sheet.as_mut_slice())?;
    let text = answer(rt.alloc(), &sheet.as_slice()[..read])?;
    rt.stdout().write_all(&text)?;
    Ok(())
}
