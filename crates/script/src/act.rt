// What each command does at one site.
ghost use Rattle.std.specs.Prelude.{◌<◌};
ghost use Rattle.script.specs.Acts.{MovedSlot, OfferedSlot, TookSlot, reply_of};
ghost use Rattle.script.specs.Desk.{ActedAt};
ghost use Rattle.script.specs.Lines.{Placed};

use crate::answer::Answer;
use crate::command::Command;
use crate::line_fault::LineFault;
use crate::movable::Movable;
use crate::slot::{SLOT_BYTES, SLOTS, Slot};
use history::History;
use table::Table;

// The operation that `M` writes.
const MOVE: u8 = 1;

// Does what the command asks, at the table of its site.
pub(crate) fn act_at<K: Movable, H: History>(
    table: &mut Table<K, H>,
    slots: &mut [Slot; SLOTS],
    command: Command,
) -> Result<Answer, LineFault>
    requires { Placed command }
    ensures { ActedAt K.means table.old slots.old command result table.new slots.new }
{
    match command {
        Command::Move {
            article,
            amount,
            slot,
            ..
        } => move_stock(table, article, amount, &mut slots[usize::from(slot)]),
        Command::Offer {
            peer,
            article,
            slot,
            ..
        } => offer_article(table, peer, article, &mut slots[usize::from(slot)]),
        Command::Take { slot, .. } => take_slot(table, &slots[usize::from(slot)]),
        Command::Figure { article, .. } => Ok(Answer::Figure(table.figure(article)?)),
        Command::OpenItem { peer, article, .. } => {
            Ok(Answer::IsOpen(table.open_item(article, peer)?))
        }
    }
}

// Commits a transaction of one write, whose message goes into the slot.
fn move_stock<K: Movable, H: History>(
    table: &mut Table<K, H>,
    article: u8,
    amount: i32,
    slot: &mut Slot,
) -> Result<Answer, LineFault>
    ensures { MovedSlot K.means table.old article amount slot.old result table.new slot.new }
{
    let ticket = table.open()?;
    let mut buffer = [0; SLOT_BYTES];
    // Where the write or the commit is refused, the ticket is left over.
    let posted = match table.write(&ticket, article, MOVE, amount) {
        Ok(time) => table
            .commit(ticket, &mut buffer)
            .map(|(_, length)| (time, length)),
        Err(fault) => Err((fault, ticket)),
    };
    match posted {
        Ok((time, length)) => {
            slot.keep(&buffer[..length]);
            Ok(Answer::Time(time))
        }
        // A ticket has to be spent. This one is the table's own, so the abandon is not refused.
        Err((fault, ticket)) => {
            table.abandon(ticket).unwrap();
            Err(fault.into())
        }
    }
}

// Offers the article to the peer, into the slot.
fn offer_article<K: Movable, H: History>(
    table: &Table<K, H>,
    peer: u8,
    article: u8,
    slot: &mut Slot,
) -> Result<Answer, LineFault>
    ensures { OfferedSlot K.means table.now peer article slot.old result slot.new }
{
    let mut buffer = [0; SLOT_BYTES];
    let length = table.offer(peer, article, &mut buffer)?;
    slot.keep(&buffer[..length]);
    Ok(Answer::Length(length))
}

// Takes the message in the slot, which keeps it.
fn take_slot<K: Movable, H: History>(
    table: &mut Table<K, H>,
    slot: &Slot,
) -> Result<Answer, LineFault>
    ensures { TookSlot K.means table.old slot.now (reply_of result) table.new }
{
    Ok(Answer::Taken(table.take(slot.message())?))
}
