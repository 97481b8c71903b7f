ghost use Rattle.std.specs.Prelude.{◌≡◌, ◌+◌, ◌*◌, ◌<◌, ◌≤◌, length};
ghost use Rattle.std.specs.List.{flat_map};
ghost use Rattle.action.specs.Bytes.{action_bytes};
ghost use Rattle.message.specs.Buffer.{overwritten};
ghost use Rattle.message.specs.Format.{interval_bytes};
ghost use Rattle.message.specs.Lawful.{LawfulMessage};
ghost use Rattle.table.specs.Offers.{Offered, is_offered, offer_actions, offer_interval, offer_intervals, offer_message};
ghost use Rattle.table.specs.Outcomes.{OneOutcome};
ghost use Rattle.table.specs.Sound.{Sound};
ghost use Rattle.table.specs.View.{bare};

use crate::state::{State, emit};
use crate::store::Store;
use crate::table::Table;
use crate::table_fault::TableFault;
use action::{ACTION_BYTES, Action};
use history::{History, actions};
use kind::Kind;
use message::{HEADER_BYTES, INTERVAL_BYTES, Interval, Record, SECTION_BYTES, SectionHead};

impl<K: Kind, H: History> Table<K, H> {
    /// Writes for a peer a message of all that it is not known to have on an article (docs/RULES.md, section 10).
    /// Answers how many bytes were written.
    pub fn offer(&self, peer: u8, article: u8, buffer: &mut [u8]) -> Result<usize, TableFault>
        ensures does { Offered K.means self.now peer article buffer.old result buffer.new }
        ensures sound { Sound K.means self.now }
        ensures once { OneOutcome (Offered K.means self.now peer article buffer.old) }
        ensures lawful { article < self.now.setup.articles
            → LawfulMessage K.means self.now.setup (offer_message K.means self.now peer article) }
    {
        let offer = Offer { peer, article };
        offer.write::<K, H>(&self.store, buffer)
    }
}

// An offer of the actions on an article that a peer is not known to have.
#[derive(Clone, Copy)]
struct Offer {
    peer: u8,
    article: u8,
}

impl Offer {
    // Writes the offer, and answers how many bytes it has.
    fn write<K: Kind, H: History>(
        self,
        store: &Store<H>,
        buffer: &mut [u8],
    ) -> Result<usize, TableFault>
        ensures { Offered K.means store.now self.peer self.article buffer.old result buffer.new }
    {
        let state = &store.state;
        state.check_article(self.article)?;
        state.check_site(self.peer)?;
        let setup = state.ledger.setup;
        let carried = self.count(store);
        let needed = HEADER_BYTES
            + SECTION_BYTES
            + INTERVAL_BYTES * usize::from(setup.sites)
            + ACTION_BYTES * carried;
        if needed > buffer.len() {
            return Err(TableFault::Short(needed));
        }
        let header = state.header::<K>(1);
        let head = SectionHead {
            article: self.article,
            intervals: setup.sites,
            actions: carried as u16,
        };
        let at = emit(buffer, 0, Record::Header(header));
        let at = emit(buffer, at, Record::Section(head));
        let at = self.put_intervals(state, buffer, at);
        Ok(self.put_actions(store, buffer, at))
    }

    // What the offer promises of a site.
    fn interval(self, state: &State, site: u8) -> Interval
        ensures { result ≡ offer_interval (bare state.now) self.peer self.article site }
    {
        let ledger = &state.ledger;
        Interval {
            site,
            from: ledger.entry(self.article, self.peer, site),
            to: ledger.entry(self.article, ledger.setup.own, site),
        }
    }

    // Does the offer carry this action?
    fn carries(self, state: &State, action: &Action) -> bool
        ensures { result ≡ is_offered (bare state.now) self.peer self.article action.now }
    {
        if action.article != self.article || action.coordinator >= state.ledger.setup.sites {
            return false;
        }
        let interval = self.interval(state, action.coordinator);
        interval.from < action.time && action.time <= interval.to
    }

    // How many actions the offer carries.
    fn count<H: History>(self, store: &Store<H>) -> usize
        ensures value { result ≡ length (offer_actions store.now self.peer self.article) }
        ensures few { result ≤ length store.now.history }
    {
        actions(&store.history)
            .filter(|action| self.carries(&store.state, action))
            .count()
    }

    // Puts the offer's intervals, one for each site.
    fn put_intervals(self, state: &State, buffer: &mut [u8], start: usize) -> usize
        requires { start + 10 * state.now.ledger.setup.sites ≤ length buffer.old }
        ensures end { result ≡ start + 10 * state.now.ledger.setup.sites }
        ensures bytes { buffer.new ≡ overwritten buffer.old start
            (flat_map interval_bytes (offer_intervals (bare state.now) self.peer self.article)) }
    {
        let mut at = start;
        for site in 0..state.ledger.setup.sites {
            at = emit(buffer, at, Record::Interval(self.interval(state, site)));
        }
        at
    }

    // Puts the actions that the offer carries.
    fn put_actions<H: History>(self, store: &Store<H>, buffer: &mut [u8], start: usize) -> usize
        requires { start + 16 * length (offer_actions store.now self.peer self.article) ≤ length buffer.old }
        ensures end { result ≡ start + 16 * length (offer_actions store.now self.peer self.article) }
        ensures bytes { buffer.new ≡ overwritten buffer.old start
            (flat_map action_bytes (offer_actions store.now self.peer self.article)) }
    {
        let mut at = start;
        for action in actions(&store.history) {
            if self.carries(&store.state, &action) {
                at = emit(buffer, at, Record::Action(action));
            }
        }
        at
    }
}
