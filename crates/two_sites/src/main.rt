//! Two sites of one group keep one article. Site 0 posts a movement. Site 1 takes its message, and then
//! the very same message again, as a job does that a scheduler repeats: the figure moves once.
#![tactic(auto)]

ghost use Rattle.std.specs.Prelude.{◌≤◌, length, IfOk};

use action::Setup;
use history::{History, PLACE_BYTES, Rack, Strip};
use kind::OnHand;
use std::io;
use table::{Table, TableFault};

// Posts a movement on article 0, and answers how many bytes of the buffer its message takes.
fn post<H: History>(
    table: &mut Table<OnHand, H>,
    amount: i32,
    buffer: &mut [u8],
) -> Result<usize, TableFault>
    ensures { IfOk result (λ n. n ≤ length buffer.old) }
{
    let ticket = table.open()?;
    // Where the write or the commit is refused, the ticket is left over.
    let posted = match table.write(&ticket, 0, OnHand::ADD, amount) {
        Ok(_) => table.commit(ticket, buffer),
        Err(fault) => Err((fault, ticket)),
    };
    match posted {
        Ok((_, length)) => Ok(length),
        // A ticket has to be spent. This one is the table's own, so the abandon is not refused.
        Err((fault, ticket)) => {
            table.abandon(ticket).unwrap();
            Err(fault)
        }
    }
}

// Site 0 posts 1200, and site 1 takes the message twice. Answers, for each take, how many actions were new and
// the figure after it.
fn repeated_job(
    site_0: &mut Table<OnHand, Rack>,
    site_1: &mut Table<OnHand, Strip>,
) -> Result<[(usize, i64); 2], TableFault> {
    // The message of one movement has 37 bytes.
    let mut buffer = [0; 37];
    let length = post(site_0, 1200, &mut buffer)?;
    let message = &buffer[..length];
    let once = (site_1.take(message)?, site_1.figure(0)?);
    let again = (site_1.take(message)?, site_1.figure(0)?);
    Ok([once, again])
}

fn main(rt: HostRuntime) -> io::Result<()> {
    let heap = rt.alloc();
    // Group 1 has two sites; these are sites 0 and 1, with one article. Both set-ups are lawful.
    let setup_0 = Setup::new(1, 2, 0, 1).unwrap();
    let setup_1 = Setup::new(1, 2, 1, 1).unwrap();
    // Each history has 64 places.
    let mut site_0 = Table::new(setup_0, Rack::new(heap, 64)?);
    let mut site_1 = Table::new(setup_1, Strip::new(vec![in heap; 0; 64 * PLACE_BYTES]?));
    match repeated_job(&mut site_0, &mut site_1) {
        Ok(takes) => for (taken, figure) in takes {
            println!(rt; "taken {taken}, figure {figure}")?;
        },
        Err(fault) => println!(rt; "{fault}")?,
    }
    Ok(())
}
