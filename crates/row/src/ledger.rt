ghost use Rattle.std.specs.Prelude.{◌≡◌, if◌then◌else◌, length, replicate, fold, map};
ghost use Rattle.std.specs.List.{range_with_len};
ghost use Rattle.std.specs.Fn.{FnOnceReturnsAtMut};
ghost use Rattle.action.specs.Order.{placed};
ghost use Rattle.history.specs.Room.{Fits};
ghost use Rattle.message.specs.Found.{first_place, told};
ghost use Rattle.message.specs.Walks.{records_in, intervals_of};
ghost use Rattle.row.specs.Entries.{start_row, entry_in};
ghost use Rattle.row.specs.Passes.{is_new_in, least_in, least_of_in, is_ahead_in, is_behind_in, latest_to, new_actions};
ghost use Rattle.row.specs.Rows.{changed_row, on_row, posted_rows, restarted, reworked_rows, stepped_row, stepped_rows, raised_by_message, raised_rows};
ghost use Rattle.row.specs.Sorting.{Sorted};
ghost use Rattle.row.specs.declared.row.Row.{Row as ARow};

use crate::place::insert_in_order;
use crate::row::Row;
use action::{Action, MOST_ARTICLES, MOST_SITES, Setup};
use history::{History, actions};
use kind::Kind;
use message::{Actions, FoundInterval, Intervals, sender_of};

/// The rows of a table, with room for all articles that a group may have.
#[derive(Drop)]
pub struct Ledger {
    pub setup: Setup,
    /// By article. The table uses the first of them, as many as its set-up has articles.
    pub rows: [Row; MOST_ARTICLES],
    ghost each_article: { length rows ≡ 64 },
}

impl Ledger {
    /// A ledger in which all articles have this figure and all known entries are 0.
    pub fn new(setup: Setup, figure: i64) -> Ledger
        ensures setup { result.setup ≡ setup }
        ensures rows { result.rows ≡ replicate 64 (start_row figure) }
    {
        let row = Row {
            base: figure,
            kept: figure,
            known: [[0; MOST_SITES]; MOST_SITES],
        };
        Ledger {
            setup,
            rows: [row; MOST_ARTICLES],
        }
    }

    /// An article's known entry, 0 where there is none.
    pub fn entry(&self, article: u8, knower: u8, coordinator: u8) -> u32
        ensures { result ≡ entry_in self.now.rows article knower coordinator }
    {
        self.rows
            .get(usize::from(article))
            .map_or(0, |row| row.entry(knower, coordinator))
    }

    /// The least of the article's known entries. Every site is known to have all actions on it up to this time.
    pub fn least_entry(&self, article: u8) -> u32
        ensures { result ≡ least_in self.now.rows self.now.setup.sites article }
    {
        let first = self.entry(article, 0, 0);
        self.least_of_all(article, first)
    }

    /// The offset of the message's first interval that begins above what the table has: the place of refusal 13.
    pub fn first_behind(&self, bytes: &[u8]) -> Option<usize>
        ensures { result ≡ first_place (is_behind_in self.now.rows self.now.setup.own) 0 0 (records_in bytes.now) }
    {
        Intervals::new(bytes)
            .find(|found| self.is_behind(found))
            .map(|found| found.offset)
    }

    /// The offset of the message's first interval that goes beyond the own site's actions: the place of refusal 14.
    pub fn first_ahead(&self, bytes: &[u8]) -> Option<usize>
        ensures { result ≡ first_place (is_ahead_in self.now.rows self.now.setup.own) 0 0 (records_in bytes.now) }
    {
        Intervals::new(bytes)
            .find(|found| self.is_ahead(found))
            .map(|found| found.offset)
    }

    /// How many of the message's actions are new to the table (docs/RULES.md, section 12).
    pub fn count_new(&self, bytes: &[u8]) -> usize
        ensures { result ≡ length (new_actions self.now.rows self.now.setup.own bytes.now) }
    {
        Actions::new(bytes)
            .filter(|action| self.is_new(action))
            .count()
    }

    /// Puts the message's new actions into the history, each at its place in the order of actions.
    pub fn insert_new<H: History>(&self, history: &mut H, bytes: &[u8])
        requires sorted { Sorted (H.items history.old) }
        requires room { Fits (H.room history.old) (H.items history.old)
            (new_actions self.now.rows self.now.setup.own bytes.now) }
        ensures list { H.items history.new
            ≡ fold placed (H.items history.old) (new_actions self.now.rows self.now.setup.own bytes.now) }
        ensures fixed { H.room history.new ≡ H.room history.old }
    {
        for action in Actions::new(bytes) {
            if self.is_new(&action) {
                insert_in_order(history, &action);
            }
        }
    }

    /// Raises the own entry of each action's article to the action's time.
    pub fn raise_posted(&mut self, actions: &[Action])
        ensures rows { self.new.rows ≡ posted_rows self.old.setup.own self.old.rows actions.now }
        ensures fixed { self.new.setup ≡ self.old.setup }
    {
        let own = self.setup.own;
        for action in actions {
            self.on_row(action.article, |row| row.raise(own, own, action.time));
        }
    }

    /// Raises the known entries by all intervals of the message (docs/RULES.md, section 12).
    /// Answers the clock, raised to the latest time to which an interval goes.
    pub fn raise_all(&mut self, bytes: &[u8], clock: u32) -> u32
        ensures times { result ≡ latest_to clock (intervals_of 0 (records_in bytes.now)) }
        ensures rows { self.new.rows ≡ raised_by_message self.old.setup.own bytes.now self.old.rows }
        ensures fixed { self.new.setup ≡ self.old.setup }
    {
        let sender = sender_of(bytes);
        let mut time = clock;
        for found in Intervals::new(bytes) {
            self.raise_by(sender, &found);
            time = time.max(found.interval.to);
        }
        time
    }

    /// Works the kept figures after the new actions have gone into the history. A kind that commutes steps them by
    /// the new actions alone, any other works them from the bases by the whole history.
    pub fn work<K: Kind, H: History>(&mut self, history: &H, new: &[Action])
        ensures rows { self.new.rows ≡ (if K.means.commutes
            then stepped_rows K.means.steps self.old.rows new.now
            else reworked_rows K.means.steps self.old.rows (H.items history.now)) }
        ensures fixed { self.new.setup ≡ self.old.setup }
    {
        if K::is_commuting() {
            self.step_all::<K>(new);
        } else {
            self.rework::<K, H>(history);
        }
    }

    /// Works the kept figures and raises the known entries by a message whose new actions are in the history.
    /// Answers the clock as `raise_all` does.
    pub fn record<K: Kind, H: History>(&mut self, history: &H, bytes: &[u8], clock: u32) -> u32
        ensures times { result ≡ latest_to clock (intervals_of 0 (records_in bytes.now)) }
        ensures rows { let steps = K.means.steps in
            let own = self.old.setup.own in
            let news = new_actions self.old.rows own bytes.now in
            let raise = raised_by_message own bytes.now in
            self.new.rows ≡ (if K.means.commutes
            then raise (stepped_rows steps self.old.rows news)
            else reworked_rows steps (raise self.old.rows) (H.items history.now)) }
        ensures fixed { self.new.setup ≡ self.old.setup }
    {
        if K::is_commuting() {
            self.step_new::<K>(bytes);
            return self.raise_all(bytes, clock);
        }
        let time = self.raise_all(bytes, clock);
        self.rework::<K, H>(history);
        time
    }

    // Is the action later than what the table has of its coordinator?
    fn is_new(&self, action: &Action) -> bool
        ensures { result ≡ is_new_in self.now.rows self.now.setup.own action.now }
    {
        self.entry(action.article, self.setup.own, action.coordinator) < action.time
    }

    // The least of a time and of the article's known entries of all knowers.
    fn least_of_all(&self, article: u8, time: u32) -> u32
        ensures { let sites = self.now.setup.sites in
            result ≡ fold (least_of_in self.now.rows sites article) time (range_with_len 0 sites) }
    {
        (0..self.setup.sites).fold(time, |least, knower| {
            self.least_of(article, least, knower)
        })
    }

    // The least of a time and of the article's known entries of one knower.
    fn least_of(&self, article: u8, time: u32, knower: u8) -> u32
        ensures { result ≡ least_of_in self.now.rows self.now.setup.sites article time knower }
    {
        (0..self.setup.sites).fold(time, |least, coordinator| {
            least.min(self.entry(article, knower, coordinator))
        })
    }

    // Does the interval begin above what the table has?
    fn is_behind(&self, found: &FoundInterval) -> bool
        ensures { result ≡ is_behind_in self.now.rows self.now.setup.own found.now.article found.now.interval }
    {
        let interval = found.interval;
        self.entry(found.article, self.setup.own, interval.site) < interval.from
    }

    // Does the interval go beyond the own site's actions?
    fn is_ahead(&self, found: &FoundInterval) -> bool
        ensures { result ≡ is_ahead_in self.now.rows self.now.setup.own found.now.article found.now.interval }
    {
        let own = self.setup.own;
        let interval = found.interval;
        interval.site == own && self.entry(found.article, own, own) < interval.to
    }

    // Raises the entries of the own site and of the sender to where the interval ends.
    fn raise_by(&mut self, sender: u8, found: &FoundInterval)
        ensures rows { self.new.rows ≡ raised_rows self.old.setup.own sender self.old.rows (told found.now) }
        ensures fixed { self.new.setup ≡ self.old.setup }
    {
        let own = self.setup.own;
        let interval = found.interval;
        self.on_row(found.article, |row| {
            row.raise(own, interval.site, interval.to);
            row.raise(sender, interval.site, interval.to);
        });
    }

    // Steps the kept figures by the actions, in order.
    #[tactic(auto, using(std::proofs::lemmas::List::Sums::fold_more))]
    fn step_all<K: Kind>(&mut self, actions: &[Action])
        ensures rows { self.new.rows ≡ stepped_rows K.means.steps self.old.rows actions.now }
        ensures fixed { self.new.setup ≡ self.old.setup }
    {
        for action in actions {
            self.step::<K>(action);
        }
    }

    // Steps the kept figures by the message's new actions. A step raises no known entry, so it does not change
    // what is new.
    #[tactic(auto, using(crate::proofs::Stepping::entry_stepped))]
    fn step_new<K: Kind>(&mut self, bytes: &[u8])
        ensures rows { self.new.rows ≡ stepped_rows K.means.steps self.old.rows
            (new_actions self.old.rows self.old.setup.own bytes.now) }
        ensures fixed { self.new.setup ≡ self.old.setup }
    {
        for carried in Actions::new(bytes) {
            if self.is_new(&carried) {
                self.step::<K>(&carried);
            }
        }
    }

    // Works every kept figure anew, from its base by the history.
    fn rework<K: Kind, H: History>(&mut self, history: &H)
        ensures rows { self.new.rows ≡ reworked_rows K.means.steps self.old.rows (H.items history.now) }
        ensures fixed { self.new.setup ≡ self.old.setup }
    {
        self.restart();
        for action in actions(history) {
            self.step::<K>(&action);
        }
    }

    // Sets every kept figure back to its base.
    #[tactic(auto, using(std::proofs::lemmas::List::Edits::map_over_more))]
    fn restart(&mut self)
        ensures rows { self.new.rows ≡ map restarted self.old.rows }
        ensures fixed { self.new.setup ≡ self.old.setup }
    {
        for row in &mut self.rows {
            row.restart();
        }
    }

    // Steps the kept figure of the action's article.
    fn step<K: Kind>(&mut self, action: &Action)
        ensures rows { self.new.rows ≡ on_row (stepped_row K.means.steps) self.old.rows action.now }
        ensures fixed { self.new.setup ≡ self.old.setup }
    {
        self.on_row(action.article, |row| row.step::<K>(action));
    }

    // Changes the row of an article, where there is one.
    fn on_row<F: FnOnce(&mut Row)>(&mut self, article: u8, change: F)
        requires { F.IsAlwaysCallable change }
        ensures rows { (f : ARow → ARow) → ((r s : ARow) → FnOnceReturnsAtMut F.FnOnce change r tt s → s ≡ f r)
            → self.new.rows ≡ changed_row f self.old.rows article }
        ensures fixed { self.new.setup ≡ self.old.setup }
    {
        let article = usize::from(article);
        if article < self.rows.len() {
            change(&mut self.rows[article]);
        }
    }
}
