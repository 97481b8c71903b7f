use crate::book::Book;
use crate::counts::Counts;
use crate::outsider::{Outsider, Stranger};
use crate::run::{Run, SLOTS};
use crate::seat::Seat;
use crate::slot::{ROOMY, Slot};
use crate::stop::Stop;
use action::Setup;
use either::{Left, Right};
use history::{PLACE_BYTES, Rack, RackOrStrip, Strip};
use kind::Kind;
use std::alloc::{AllocError, Global};
use table::Table;
use trials::Dice;

// Makes the tables of a run, by chance.
#[derive(Drop)]
struct Maker {
    heap: Global,
    dice: Dice,
}

impl Maker {
    // How many places a history has: in a roomy run as many as may be, otherwise none, few, some or many.
    fn pick_places(&mut self, is_roomy: bool) -> u8 {
        if is_roomy {
            return ROOMY;
        }
        let most = match self.dice.byte(8) {
            0 => 2,
            1 | 2 | 3 => 15,
            4 | 5 => 40,
            _ => ROOMY,
        };
        self.dice.byte(most + 1)
    }

    // A rack or a strip.
    fn make_history(&mut self, places: usize) -> Result<RackOrStrip, AllocError> {
        if self.dice.chance(50) {
            return Ok(Left(Rack::new(self.heap, places)?));
        }
        let memory = vec![in self.heap; 0; places.wrapping_mul(PLACE_BYTES)]?;
        Ok(Right(Strip::new(memory)))
    }

    fn make_seat<K: Kind + Drop>(
        &mut self,
        setup: Setup,
        places: usize,
    ) -> Result<Seat<K, RackOrStrip>, AllocError> {
        let history = self.make_history(places)?;
        Ok(Seat::new(Table::new(setup, history), places))
    }

    // Two or three sites in half of the runs, otherwise up to eight. With few sites more is levelled and archived.
    fn pick_sites(&mut self) -> u8 {
        let more = if self.dice.chance(50) { 2 } else { 7 };
        self.dice.byte(more) + 2
    }

    // A few articles, or up to 64.
    fn pick_articles(&mut self) -> u8 {
        let most = if self.dice.chance(10) { 64 } else { 4 };
        self.dice.byte(most) + 1
    }

    fn make_outsider<J: Kind + Drop>(
        &mut self,
        group: u32,
        unlike: Stranger,
    ) -> Result<Outsider<J>, Stop> {
        let other = match unlike {
            Stranger::OtherGroup => group.wrapping_add(1),
            Stranger::OtherKind | Stranger::Twin => group,
        };
        let setup = Setup::new(other, 2, self.dice.below(2), 1)?;
        let seat = self.make_seat(setup, 1)?;
        Ok(Outsider { seat, unlike })
    }

    // The seats of a group, by site.
    fn make_seats<K: Kind + Drop>(
        &mut self,
        group: u32,
        sites: u8,
        articles: u8,
    ) -> Result<Vec<Seat<K, RackOrStrip>>, Stop> {
        let is_roomy = self.dice.chance(40);
        let mut seats = Vec::new(self.heap);
        for site in 0..sites {
            let places = usize::from(self.pick_places(is_roomy));
            let setup = Setup::new(group, sites.into(), site.into(), articles.into())?;
            seats.push(self.make_seat(setup, places)?)?;
        }
        Ok(seats)
    }
}

// A new run: the tables of one group, the outsider, and empty slots.
pub(crate) fn make_run<K: Kind + Drop, J: Kind + Drop>(
    heap: Global,
    seed: u64,
    stranger: Stranger,
    counts: Counts,
) -> Result<Run<K, J>, Stop> {
    let dice = Dice::new(seed);
    let mut maker = Maker { heap, dice };
    let group = maker.dice.below(65_534) + 1;
    let outsider = maker.make_outsider(group, stranger)?;
    let sites = maker.pick_sites();
    let articles = maker.pick_articles();
    Ok(Run {
        heap,
        sites,
        articles,
        seats: maker.make_seats(group, sites, articles)?,
        outsider,
        slots: (0..SLOTS).map(|_| Slot::empty(heap)).collect(heap)?,
        book: Book::new(heap, sites)?,
        dice: maker.dice,
        counts,
    })
}
