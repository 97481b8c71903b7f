use crate::page::Page;
use crate::told_interval::ToldInterval;
use action::Action;
use kind::Kind;
use std::alloc::{AllocError, Global};
use std::collections::BTreeMap;
use trials::Movement;

// Where an action stands in the order of actions: by time, then by coordinator, then by article. This is code of the
// program's own, which the library's order is tested against.
type Rank = (u32, u8, u8);

fn rank(action: &Action) -> Rank {
    (action.time, action.coordinator, action.article)
}

// What a reader of the lines writes down, from who called what and whether it was granted: what each site has, and
// what has been committed.
#[derive(Drop)]
pub(crate) struct Book {
    // By site.
    pages: Vec<Page>,
    // Every action of a granted commit, in the order of actions.
    pub(crate) committed: BTreeMap<Rank, Action>,
}

impl Book {
    pub(crate) fn new(heap: Global, sites: u8) -> Result<Book, AllocError> {
        Ok(Book {
            pages: (0..sites).map(|_| Page::new(heap)).collect(heap)?,
            committed: BTreeMap::new(heap),
        })
    }

    fn page(&self, site: u8) -> Option<&Page> {
        self.pages.get(usize::from(site))
    }

    fn page_mut(&mut self, site: u8) -> Option<&mut Page> {
        self.pages.get_mut(usize::from(site))
    }

    // Up to what time the site has the coordinator's actions on the article.
    pub(crate) fn reach(&self, site: u8, article: u8, coordinator: u8) -> u32 {
        self.page(site)
            .map_or(0, |page| page.reach(article, coordinator))
    }

    // The greatest time that the site has reached.
    pub(crate) fn greatest(&self, site: u8) -> u32 {
        self.page(site).map_or(0, |page| page.greatest())
    }

    // How many writes the site's open transaction has.
    pub(crate) fn writes(&self, site: u8) -> usize {
        self.page(site).map_or(0, |page| page.pending.len())
    }

    // A write was granted. Answers the time that it has to have.
    pub(crate) fn write(&mut self, site: u8, movement: Movement) -> Result<u32, AllocError> {
        let greatest = self.greatest(site);
        let before = u32::try_from(self.writes(site)).unwrap_or(0);
        let time = greatest.wrapping_add(before).wrapping_add(1);
        if let Some(page) = self.page_mut(site) {
            page.pending.push(Action {
                coordinator: site,
                time,
                transaction: greatest.wrapping_add(1),
                article: movement.article,
                operation: movement.operation,
                amount: movement.amount,
            })?;
        }
        Ok(time)
    }

    // An abandon was granted.
    pub(crate) fn abandon(&mut self, site: u8) {
        if let Some(page) = self.page_mut(site) {
            page.pending.clear();
        }
    }

    // Puts an action among the committed ones; its coordinator has it from now on. Answers whether no other has its
    // coordinator and time.
    fn enter(&mut self, action: Action) -> Result<bool, AllocError> {
        let is_new = !self.committed.values().any(|other| other.coordinator == action.coordinator
            && other.time == action.time);
        self.committed.insert(rank(&action), action)?;
        if let Some(page) = self.page_mut(action.coordinator) {
            page.raise(action.article, action.coordinator, action.time)?;
        }
        Ok(is_new)
    }

    // A commit was granted: the site's pending actions are committed. Answers whether they are all new.
    pub(crate) fn commit(&mut self, site: u8) -> Result<bool, AllocError> {
        let Some(page) = self.page_mut(site) else {
            return Ok(true);
        };
        let pending = std::mem::try_take(&mut page.pending)?;
        let mut are_new = true;
        for action in pending {
            are_new = self.enter(action)? && are_new;
        }
        Ok(are_new)
    }

    // A take was granted: the site has all actions up to where the message's intervals end.
    pub(crate) fn take(&mut self, site: u8, intervals: &[ToldInterval]) -> Result<(), AllocError> {
        let Some(page) = self.page_mut(site) else {
            return Ok(());
        };
        for interval in intervals {
            page.raise(interval.article, interval.site, interval.to)?;
        }
        Ok(())
    }

    // Does some interval begin above what the site has?
    pub(crate) fn is_behind(&self, site: u8, intervals: &[ToldInterval]) -> bool {
        intervals.iter().any(|interval| interval.from
            > self.reach(site, interval.article, interval.site))
    }

    // Does the site have the action?
    pub(crate) fn reaches(&self, site: u8, action: &Action) -> bool {
        action.time <= self.reach(site, action.article, action.coordinator)
    }

    // How many committed actions a take of these intervals would bring the site.
    pub(crate) fn news(&self, site: u8, intervals: &[ToldInterval]) -> usize {
        self.committed
            .values()
            .filter(|action| !self.reaches(site, action) && is_carried(action, intervals))
            .count()
    }

    // How many committed actions the site has.
    fn reached(&self, site: u8) -> usize {
        self.committed
            .values()
            .filter(|action| self.reaches(site, action))
            .count()
    }

    // An archive was granted, and answered this count.
    pub(crate) fn archive(&mut self, site: u8, count: usize) {
        if let Some(page) = self.page_mut(site) {
            page.archived = page.archived.wrapping_add(count);
        }
    }

    // How many actions the site's history has.
    pub(crate) fn kept(&self, site: u8) -> usize {
        let archived = self.page(site).map_or(0, |page| page.archived);
        self.reached(site).saturating_sub(archived)
    }

    // Has anything been committed on the article?
    pub(crate) fn has_moved(&self, article: u8) -> bool {
        self.committed
            .values()
            .any(|action| action.article == article)
    }

    // Does the site have every committed action on the article?
    pub(crate) fn has_all(&self, site: u8, article: u8) -> bool {
        self.committed.values().all(|action| action.article != article
            || self.reaches(site, action))
    }

    // Works an article's figure at a site, from the committed actions that it has, each once and in order.
    pub(crate) fn figure<K: Kind>(&self, site: u8, article: u8) -> i64 {
        self.committed
            .values()
            .filter(|action| action.article == article && self.reaches(site, action))
            .fold(
                K::START,
                |figure, action| K::step(figure, action.operation, action.amount),
            )
    }
}

// Is there an interval that goes up to the action?
fn is_carried(action: &Action, intervals: &[ToldInterval]) -> bool {
    intervals.iter().any(|interval| {
        interval.article == action.article
            && interval.site == action.coordinator
            && action.time <= interval.to
    })
}
