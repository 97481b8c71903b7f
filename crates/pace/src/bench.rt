ghost use Rattle.std.specs.Prelude.{◌<◌};

use crate::bag::Bag;
use crate::call::Work;
use action::{ACTION_BYTES, Setup};
use history::{History, MOST_PLACES};
use kind::OnHand;
use message::{HEADER_BYTES, INTERVAL_BYTES, SECTION_BYTES};
use std::alloc::{AllocError, Global};
use std::ops::Range;
use table::Table;
use trials::{Made, Movement, post};

// The articles of a table.
pub(crate) const ARTICLES: [u8; 4] = [0, 1, 2, 3];

const SITES: usize = 3;

// Messages go from one site to another.
const SENDER: u8 = 0;

const RECEIVER: u8 = 1;

// How many actions the longest message has: an offer of one of the articles, which share a full history.
const MOST_ACTIONS: usize = MOST_PLACES / ARTICLES.len();

// As many bytes as that message has: one section, with an interval for each site.
const LONGEST: usize = HEADER_BYTES
    + SECTION_BYTES
    + SITES * INTERVAL_BYTES
    + MOST_ACTIONS * ACTION_BYTES;

/// A table with the messages that it wrote, or that it takes.
#[derive(Drop)]
pub struct Bench<H: History> {
    heap: Global,
    places: usize,
    setup: Setup,
    pub(crate) table: Table<OnHand, H>,
    pub(crate) bag: Bag,
    // Where a message is written.
    buffer: [u8; LONGEST],
}

// The set-up of one of the sites.
fn setup_of(site: u8) -> Setup
    requires { site < 3 }
{
    Setup::new(1, SITES as u32, u32::from(site), ARTICLES.len() as u32).unwrap()
}

impl<H: History + Made + Drop> Bench<H> {
    // An empty table of the sender, and no messages.
    pub(crate) fn new(heap: Global, places: usize) -> Result<Bench<H>, AllocError> {
        let setup = setup_of(SENDER);
        Ok(Bench {
            heap,
            places,
            setup,
            table: Table::new(setup, H::made(heap, places)?),
            bag: Bag::new(heap)?,
            buffer: [0; LONGEST],
        })
    }

    // An empty table in place of the one that is here.
    pub(crate) fn renew(&mut self) -> Result<(), AllocError> {
        let history = H::made(self.heap, self.places)?;
        self.table = Table::new(self.setup, history);
        Ok(())
    }

    // An empty table of the receiver. The messages stay.
    pub(crate) fn hand_over(&mut self) -> Result<(), AllocError> {
        self.setup = setup_of(RECEIVER);
        self.renew()
    }
}

// The movement that a number stands for: the articles take turns, and the amounts go from −500 to 499.
fn movement(number: usize) -> Movement {
    Movement {
        article: ARTICLES[number % ARTICLES.len()],
        operation: OnHand::ADD,
        amount: (number % 1000) as i32 - 500,
    }
}

// What a round does, with a whole table or with all messages. A call that is refused adds no message and no answer.
impl<H: History> Bench<H> {
    // Posts a transaction of the movements of these numbers.
    fn post(&mut self, numbers: Range<usize>) -> Result<(), AllocError> {
        let movements = numbers.map(movement);
        let posted = post(&mut self.table, movements, &mut self.buffer);
        let length = posted.map_or(0, |(_, length)| length);
        self.bag.add(&self.buffer[..length])
    }

    // Fills the table by transactions of so many writes, and answers how many bytes their messages have.
    pub(crate) fn commit_all(&mut self, writes: usize) -> Result<usize, AllocError>
        requires { 0 < writes }
    {
        self.bag.clear();
        for i in 0..self.places / writes {
            self.post(i * writes..(i + 1) * writes)?;
        }
        Ok(self.bag.size())
    }

    // Offers every article to the receiver, and answers how many bytes the offers have.
    pub(crate) fn offer_all(&mut self) -> Result<usize, AllocError> {
        self.bag.clear();
        for article in ARTICLES {
            let offered = self.table.offer(RECEIVER, article, &mut self.buffer);
            self.bag.add(&self.buffer[..offered.unwrap_or(0)])?;
        }
        Ok(self.bag.size())
    }

    // Takes every message, and answers how many actions were new.
    fn take_all(&mut self) -> usize {
        let mut sum: usize = 0;
        for message in self.bag.messages() {
            sum = sum.wrapping_add(self.table.take(message).unwrap_or(0));
        }
        sum
    }

    // Does what a round does, and answers what its calls answered.
    pub(crate) fn work(&mut self, work: Work) -> Result<usize, AllocError> {
        match work {
            Work::Nothing => Ok(0),
            Work::Commit1 => self.commit_all(1),
            Work::Commit16 => self.commit_all(16),
            Work::Offer => self.offer_all(),
            Work::Take => Ok(self.take_all()),
        }
    }
}
