ghost use Rattle.std.specs.Prelude.{◌≡◌, ◌<◌, length};
ghost use Rattle.table.specs.Archiving.{Archived, archived, olds};
ghost use Rattle.table.specs.Sound.{Sound};

use crate::store::Store;
use crate::table::Table;
use crate::table_fault::TableFault;
use history::History;
use kind::Kind;
use row::move_actions;

impl<K: Kind, H: History> Table<K, H> {
    /// Moves an article's actions up to the least of its known entries from the history into the base. Answers how
    /// many they were. Every site is known to have them (docs/RULES.md, section 13).
    pub fn archive(&mut self, article: u8) -> Result<usize, TableFault>
        ensures does { Archived K.means self.old article result self.new }
        ensures sound { Sound K.means self.new }
    {
        self.store.archive::<K>(article)
    }
}

impl<H: History> Store<H> {
    fn archive<K: Kind>(&mut self, article: u8) -> Result<usize, TableFault>
        ensures { Archived K.means self.old article result self.new }
    {
        self.state.check_closed()?;
        self.state.check_article(article)?;
        Ok(self.move_to_base::<K>(article))
    }

    // Moves the article's actions up to the least of its known entries into its base, and answers how many they were.
    fn move_to_base<K: Kind>(&mut self, article: u8) -> usize
        requires { article < 64 }
        ensures count { result ≡ length (olds self.old article) }
        ensures after { self.new ≡ archived K.means self.old article }
    {
        let ledger = &mut self.state.ledger;
        let time = ledger.least_entry(article);
        let at = usize::from(article);
        let mut base = ledger.rows[at].base;
        let gone = move_actions::<K, H>(&mut base, &mut self.history, article, time);
        ledger.rows[at].base = base;
        gone
    }
}
