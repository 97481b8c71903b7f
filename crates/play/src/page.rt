use action::Action;
use std::alloc::{AllocError, Global};
use std::collections::BTreeMap;

// What the book has of one site.
#[derive(Drop)]
pub(crate) struct Page {
    // By article and coordinator: up to what time the site has the coordinator's actions.
    reach: BTreeMap<(u8, u8), u32>,
    // The actions of its open transaction, in the order of the writes.
    pub(crate) pending: Vec<Action>,
    // How many actions it has archived.
    pub(crate) archived: usize,
}

impl Page {
    pub(crate) fn new(heap: Global) -> Page {
        Page {
            reach: BTreeMap::new(heap),
            pending: Vec::new(heap),
            archived: 0,
        }
    }

    // Up to what time the site has the coordinator's actions; 0 where it has none.
    pub(crate) fn reach(&self, article: u8, coordinator: u8) -> u32 {
        self.reach
            .get(&(article, coordinator))
            .copied()
            .unwrap_or(0)
    }

    // From now on the site has the coordinator's actions up to this time at least.
    pub(crate) fn raise(
        &mut self,
        article: u8,
        coordinator: u8,
        to: u32,
    ) -> Result<(), AllocError> {
        let reach = self.reach.entry((article, coordinator))?.or_insert(0);
        *reach = (*reach).max(to);
        Ok(())
    }

    // The greatest time that the site has reached.
    pub(crate) fn greatest(&self) -> u32 {
        self.reach.values().copied().max().unwrap_or(0)
    }
}
