ghost use Rattle.std.specs.Prelude.{◌<◌};

use crate::posted::Posted;
use action::{MOST_ARTICLES, MOST_SITES, Setup};
use history::{History, MOST_PLACES};
use std::alloc::{AllocError, Global};
use table::Table;
use trials::{Dice, Made, Movement, post};

// The group has as many sites and articles as a group may have.
pub(crate) const SITES: u8 = MOST_SITES as u8;

pub(crate) const ARTICLES: u8 = MOST_ARTICLES as u8;

// The most writes of a turn.
const WRITES: usize = 4;

// A site's table, and what the seasons need to know of the site.
#[derive(Drop)]
pub(crate) struct Site<K: Posted + Drop, H: History + Drop> {
    pub(crate) table: Table<K, H>,
    // How many actions its history has.
    pub(crate) kept: usize,
    // How many writes it may still post in this season.
    pub(crate) share: usize,
    // The article that it writes next.
    next: u8,
}

fn setup_of(site: u8) -> Setup
    requires { site < 8 }
{
    Setup::new(1, SITES.into(), site.into(), ARTICLES.into()).unwrap()
}

impl<K: Posted + Drop, H: History + Made + Drop> Site<K, H> {
    pub(crate) fn new(heap: Global, site: u8) -> Result<Site<K, H>, AllocError>
        requires { site < 8 }
    {
        Ok(Site {
            table: Table::new(setup_of(site), H::made(heap, MOST_PLACES)?),
            kept: 0,
            share: 0,
            next: 0,
        })
    }
}

impl<K: Posted + Drop, H: History + Drop> Site<K, H> {
    // The next movement, on the next article.
    fn movement(&mut self, dice: &mut Dice) -> Movement {
        let article = self.next;
        self.next = article.wrapping_add(1) % ARTICLES;
        let (operation, amount) = K::pair(dice);
        Movement {
            article,
            operation,
            amount,
        }
    }

    // The movements of a turn: the first `count`. The others are not used.
    fn movements(&mut self, dice: &mut Dice, count: usize) -> [Movement; WRITES] {
        let mut movements = [Movement::default(); WRITES];
        for movement in movements.iter_mut().take(count) {
            *movement = self.movement(dice);
        }
        movements
    }

    // Takes its turn, and answers how many actions were posted, and how long their message is.
    pub(crate) fn turn(&mut self, dice: &mut Dice, buffer: &mut [u8]) -> Option<(usize, usize)> {
        let writes = self.share.min(dice.below(4) as usize + 1);
        self.share -= writes;
        let movements = self.movements(dice, writes);
        let posted = post(
            &mut self.table,
            movements.iter().take(writes).copied(),
            buffer,
        )?;
        self.kept = self.kept.wrapping_add(posted.0);
        Some(posted)
    }

    // Has the history no place for one write more? It is tried out: where there is a place, the write is posted.
    pub(crate) fn is_full(&mut self, buffer: &mut [u8]) -> bool {
        let more = Movement {
            article: 0,
            operation: 1,
            amount: 1,
        };
        let posted = post(&mut self.table, [more].into_iter(), buffer);
        self.kept = self.kept.wrapping_add(posted.map_or(0, |(count, _)| count));
        posted.is_none()
    }

    // Up to which time `knower` is known to have the coordinator's actions on the article.
    fn known(&self, article: u8, knower: u8, coordinator: u8) -> u32 {
        self.table.known(article, knower, coordinator).unwrap_or(0)
    }

    // Does it know less of the other site, which has this number, than that site knows of itself?
    pub(crate) fn knows_less_of(&self, other: &Site<K, H>, number: u8, article: u8) -> bool {
        (0..SITES).any(|coordinator| self.known(article, number, coordinator)
            < other.known(article, number, coordinator))
    }

    // Do both sites show the same of what `knower` has of an article?
    fn agrees_about(&self, other: &Site<K, H>, article: u8, knower: u8) -> bool {
        (0..SITES).all(|coordinator| self.known(article, knower, coordinator)
            == other.known(article, knower, coordinator))
    }

    // Do both sites show the same of an article?
    pub(crate) fn agrees(&self, other: &Site<K, H>, article: u8) -> bool {
        self.figure(article) == other.figure(article)
            && (0..SITES).all(|knower| self.agrees_about(other, article, knower))
    }

    pub(crate) fn figure(&self, article: u8) -> i64 {
        self.table.figure(article).unwrap_or(0)
    }

    // Archives an article, and answers how many actions that removed.
    pub(crate) fn archive(&mut self, article: u8) -> usize {
        let gone = self.table.archive(article).unwrap_or(0);
        self.kept = self.kept.wrapping_sub(gone);
        gone
    }
}
