ghost use Rattle.std.specs.Prelude.{◌≡◌, ◌<◌, [], replicate, IfOk};
ghost use Rattle.std.specs.Option.{ForSome};
ghost use Rattle.script.specs.Acts.{reply_of};
ghost use Rattle.script.specs.Desk.{FreshDesk, Acted, Performs, PerformsCommand};
ghost use Rattle.script.specs.Lines.{Placed};
ghost use Rattle.script.specs.Sheets.{sheet_bytes, sheet_of};
ghost use Rattle.script.specs.Standing.{NewStands, LineStands};

use crate::act::act_at;
use crate::answer::{Answer, print};
use crate::command::{Command, SITES, parse};
use crate::line_fault::LineFault;
use crate::movable::Movable;
use crate::sheet_line::SheetLine;
use crate::slot::{SLOTS, Slot};
use action::Setup;
use history::{History, PLACE_BYTES, Rack, Strip};
use std::alloc::{AllocError, Global};
use std::marker::Model;
use table::Table;

// The group of the three sites.
const GROUP: u32 = 1;

// How many articles each table has.
const ARTICLES: u32 = 4;

// How many actions each site can keep.
const PLACES: usize = 64;

// How many bytes of memory a strip with that many places has.
const STRIP_BYTES: usize = PLACES * PLACE_BYTES;

/// Three sites of one group, and the slots for their messages (docs/TALLY.md, section 2).
/// The first two sites keep their actions in racks, the third in a strip.
#[derive(Drop)]
pub struct Desk<K: Movable> {
    pub(crate) first: Table<K, Rack>,
    pub(crate) second: Table<K, Rack>,
    pub(crate) third: Table<K, Strip>,
    pub(crate) slots: [Slot; SLOTS],
}

// Contracts see what the tables hold and the messages in the slots.
impl<K: Movable> Model for Desk<K> {
    ghost use Rattle.script.specs.Desk.{DeskView};

    ghost Value = { DeskView };

    ghost view = { λ d.
        record { first = d.first; second = d.second; third = d.third; slots = d.slots } };
}

impl<K: Movable> Desk<K> {
    /// A desk on which nothing has moved yet, with empty slots. `AllocError` where there is no memory for it;
    /// no other call of a desk asks for memory.
    pub fn new(heap: Global) -> Result<Desk<K>, AllocError>
        ensures fresh { IfOk result (λ desk. FreshDesk K.means desk) }

        // It stands at the end of a run of no events.
        ensures stands { IfOk result (λ desk. NewStands K.means desk) }
    {
        Desk::make(heap)
    }

    /// Runs one line, without the byte that ends it; `index` is its number in the script, the first being 0.
    /// Answers what the line answers, or its fault, and beside it what is printed for the line.
    pub fn run(&mut self, index: usize, line: &[u8]) -> (Result<Answer, LineFault>, SheetLine)
        ensures does { Performs K.means self.old index line.now (reply_of result.0) self.new }
        ensures printed { sheet_bytes result.1 ≡ sheet_of line.now (reply_of result.0) }

        // Where the desk stood at the end of a run, it now stands at the end of that run plus the calls made here.
        ensures stands { LineStands K.means self.old index line.now (reply_of result.0) self.new }
    {
        let command = parse(line);
        let letter = command.map_or('?', |command| command.letter());
        let answer = self.perform_command(index, command);
        (answer, print(letter, answer))
    }

    // The desk that `new` answers. That it stands at the end of a run follows from this contract alone.
    fn make(heap: Global) -> Result<Desk<K>, AllocError>
        ensures { IfOk result (λ desk. FreshDesk K.means desk) }
    {
        Ok(Desk {
            first: Table::new(setup(0), Rack::new(heap, PLACES)?),
            second: Table::new(setup(1), Rack::new(heap, PLACES)?),
            third: Table::new(setup(2), Strip::new(vec![in heap; 0; STRIP_BYTES]?)),
            slots: empty_slots(),
        })
    }

    // Does the command that the line of this number writes, or refuses the line where it writes none.
    fn perform_command(
        &mut self,
        index: usize,
        command: Option<Command>,
    ) -> Result<Answer, LineFault>
        requires { ForSome command Placed }
        ensures { PerformsCommand K.means self.old index command (reply_of result) self.new }
    {
        match command {
            Some(command) => self.act(command),
            None => Err(LineFault::NoKnownForm(index)),
        }
    }

    // Does the command at the table of its site.
    fn act(&mut self, command: Command) -> Result<Answer, LineFault>
        requires { Placed command }
        ensures { Acted K.means self.old command result self.new }
    {
        match command.site() {
            0 => act_at(&mut self.first, &mut self.slots, command),
            1 => act_at(&mut self.second, &mut self.slots, command),
            _ => act_at(&mut self.third, &mut self.slots, command),
        }
    }
}

// The set-up of one of the three sites.
fn setup(site: u32) -> Setup
    requires { site < 3 }
    ensures { (result.group ≡ 1) × ((result.sites ≡ 3) × ((result.own ≡ site) × (result.articles ≡ 4))) }
{
    Setup::new(GROUP, u32::from(SITES), site, ARTICLES).unwrap()
}

// Slots that hold nothing.
fn empty_slots() -> [Slot; SLOTS]
    ensures { result ≡ replicate 10 [] }
{
    Default::default()
}
