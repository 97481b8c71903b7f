use std::alloc::{AllocError, Global};

// Room for one message that waits for a site.
#[derive(Drop)]
pub(crate) struct Slot {
    message: Vec<u8>,
    // Where the message goes; `None` where none waits.
    site: Option<u8>,
}

impl Slot {
    // A slot in which no message waits.
    pub(crate) fn empty(heap: Global) -> Slot {
        Slot {
            message: Vec::new(heap),
            site: None,
        }
    }

    // Keeps a message for a site.
    pub(crate) fn keep(&mut self, message: &[u8], site: u8) -> Result<(), AllocError> {
        self.message.clear();
        self.message.extend_from_slice(message)?;
        self.site = Some(site);
        Ok(())
    }

    // The message that waits, and the site that it goes to. The slot is empty afterwards.
    pub(crate) fn release(&mut self) -> Option<(u8, &[u8])> {
        let site = self.site.take()?;
        Some((site, &self.message))
    }
}
