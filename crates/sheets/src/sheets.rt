// Whole sheets.
ghost use Rattle.std.specs.Prelude.{◌≡◌, ◌++◌, IfOk, OnOk};
ghost use Rattle.ring.specs.Views.{viewed, sizes};
ghost use Rattle.sheets.specs.Sheets.{text_left, Answered};

use crate::heads::{Opening, open};
use crate::order_lines::OrderLines;
use answer_lines::LEAST_MEMORY;
use holders::{Holder, Post, Shelf};
use messages::Message;
use ring::Ring;
use std::alloc::{AllocError, Global};

// Answers every order, a line each. The memory of a line is long enough, so only the sheet's end ends this.
fn answer_all<'a, S: Shelf, P: Post<Message>>(
    mut orders: OrderLines,
    ring: &mut Ring<'a, S, P>,
    text: &mut Vec<u8>,
) -> Result<(), AllocError>
    ensures { OnOk result (text.new.items ≡ text.old.items ++ text_left (sizes ring.old) (viewed ring.old) orders.entry) }
{
    let mut line = [0u8; LEAST_MEMORY];
    while let Ok(Some(n)) = orders.answer(ring, &mut line) {
        text.extend_from_slice(&line[..n])?;
    }
    Ok(())
}

// The names of an answer line's fields.
const ANSWER_NAMES: &[u8] = b"line,result,figure,value\n";

// Answers a whole sheet on a ring over the shelf and the post: a line of names, and then a line for each order.
pub fn answer_sheet<S: Shelf, P: Post<Message>>(
    heap: Global,
    sheet: &[u8],
    shelf: &mut S,
    post: &mut P,
) -> Result<Vec<u8>, AllocError>
    ensures { IfOk result (λ v. Answered (S.Holder.room shelf.old) (P.Holder.room post.old) sheet.now v.items) }
{
    let mut text = Vec::from_slice(heap, ANSWER_NAMES)?;
    let mut line = [0u8; LEAST_MEMORY];
    let Ok(opening) = open(sheet, &mut line) else {
        unreachable!() // the memory is long enough
    };
    match opening {
        Opening::Ready { settings, orders } => {
            let mut ring = Ring::new(settings, shelf, post);
            answer_all(orders, &mut ring, &mut text)?;
        }
        Opening::Closed(n) => text.extend_from_slice(&line[..n])?,
    }
    Ok(text)
}
