ghost use Rattle.std.specs.Prelude.{◌≡◌, []};
ghost use Rattle.table.specs.Sound.{Sound};
ghost use Rattle.table.specs.View.{fresh, entry};
ghost use Rattle.table.specs.Answers.{Answers, figure, figure_refusal, known_refusal, open_item, open_item_refusal};

use crate::state::State;
use crate::store::Store;
use crate::table_fault::TableFault;
use action::Setup;
use history::History;
use kind::Kind;
use row::Ledger;
use std::marker::{Model, PhantomData};

/// What one site keeps of all its group's articles, for any kind of figure and any history.
/// What holds of every table is in docs/RULES.md, section 8.
#[derive(Drop)]
pub struct Table<K: Kind, H: History> {
    pub(crate) store: Store<H>,
    kind: PhantomData<K>,
}

impl<K: Kind, H: History> Model for Table<K, H> {
    ghost use Rattle.table.specs.Sound.{Sound};
    ghost use Rattle.table.specs.View.{View};

    ghost Value = { View };

    ghost view = { λ t. t.store };

    ghost invariant = { λ t. Sound K.means t.store };
}

impl<K: Kind, H: History> Table<K, H> {
    /// A new table. Actions that are in the history are removed from it first.
    pub fn new(setup: Setup, mut history: H) -> Table<K, H>
        ensures does { result ≡ fresh K.means setup (H.room history) }
        ensures sound { Sound K.means result }
    {
        empty(&mut history);
        Table {
            store: Store {
                state: State {
                    ledger: Ledger::new(setup, K::START),
                    clock: 0,
                    transaction: None,
                },
                history,
            },
            kind: PhantomData,
        }
    }

    /// The greatest time that the table has met so far, 0 in a new table.
    pub fn clock(&self) -> u32
        ensures { result ≡ self.now.clock }
    {
        self.store.state.clock
    }

    /// The figure of an article, with all actions on it that the table has. Pending actions do not count.
    pub fn figure(&self, article: u8) -> Result<i64, TableFault>
        ensures { Answers (figure_refusal self.now article) (figure self.now article) result }
    {
        let state = &self.store.state;
        state.check_article(article)?;
        Ok(state.ledger.rows[usize::from(article)].kept)
    }

    /// The known entry: up to what time the knower is known to have the coordinator's actions on an article
    /// (docs/RULES.md, section 1).
    pub fn known(&self, article: u8, knower: u8, coordinator: u8) -> Result<u32, TableFault>
        ensures { Answers (known_refusal self.now article knower coordinator)
            (entry self.now article knower coordinator) result }
    {
        let state = &self.store.state;
        state.check_article(article)?;
        state.check_site(knower)?;
        state.check_site(coordinator)?;
        Ok(state.ledger.entry(article, knower, coordinator))
    }

    /// Whether this site has committed an action on the article that the peer is not known to have.
    pub fn open_item(&self, article: u8, peer: u8) -> Result<bool, TableFault>
        ensures { Answers (open_item_refusal self.now article peer) (open_item self.now article peer) result }
    {
        let own = self.store.state.ledger.setup.own;
        let theirs = self.known(article, peer, own)?;
        let ours = self.known(article, own, own)?;
        Ok(theirs < ours)
    }
}

// Takes every action out of the history, the last one first.
fn empty<H: History>(history: &mut H)
    ensures items { H.items history.new ≡ [] }
    ensures room { H.room history.new ≡ H.room history.old }
{
    for last in (0..history.count()).rev() {
        let _ = history.remove(last);
    }
}
