ghost use Rattle.std.specs.Prelude.{◌≡◌};
ghost use Rattle.row.specs.Entries.{at};
ghost use Rattle.row.specs.Rows.{raised_row, restarted, stepped_row};

use action::{Action, MOST_SITES};
use kind::Kind;

/// What is kept of one article: two figures, and up to what time each site is known to have every site's actions.
#[derive(Clone, Copy)]
pub struct Row {
    /// The figure before the actions on the article that the history holds.
    pub base: i64,
    /// The figure with these actions too.
    pub kept: i64,
    // The known entries (docs/RULES.md, section 1), by the knower and then by the coordinator.
    pub(crate) known: [[u32; MOST_SITES]; MOST_SITES],
}

impl Row {
    // A known entry, 0 where there is none.
    pub(crate) fn entry(&self, knower: u8, coordinator: u8) -> u32
        ensures { result ≡ at self.now.known knower coordinator }
    {
        self.known
            .get(usize::from(knower))
            .and_then(|entries| entries.get(usize::from(coordinator)))
            .copied()
            .unwrap_or(0)
    }

    // Raises a known entry to a time, where there is such an entry and it is lower.
    pub(crate) fn raise(&mut self, knower: u8, coordinator: u8, to: u32)
        ensures { self.new ≡ raised_row knower coordinator to self.old }
    {
        let knower = usize::from(knower);
        let coordinator = usize::from(coordinator);
        if knower < MOST_SITES {
            let entries: &mut [u32] = &mut self.known[knower];
            if coordinator < entries.len() {
                entries[coordinator] = entries[coordinator].max(to);
            }
        }
    }

    // Steps the kept figure.
    pub(crate) fn step<K: Kind>(&mut self, action: &Action)
        ensures { self.new ≡ stepped_row K.means.steps action.now self.old }
    {
        self.kept = K::step(self.kept, action.operation, action.amount);
    }

    // Sets the kept figure back to the base.
    pub(crate) fn restart(&mut self)
        ensures { self.new ≡ restarted self.old }
    {
        self.kept = self.base;
    }
}
