// Whose ticket a line goes by.
#[derive(Clone, Copy, PartialEq, Eq)]
pub(crate) enum Holder {
    Own,
    // Another site.
    Site(u8),
    // The table outside the group.
    Outsider,
}

// At which site a call is made, and by whose ticket.
#[derive(Clone, Copy)]
pub(crate) struct Turn {
    pub(crate) site: u8,
    pub(crate) by: Holder,
}

impl Turn {
    // A call by the site's own ticket.
    pub(crate) fn own(site: u8) -> Turn {
        Turn {
            site,
            by: Holder::Own,
        }
    }
}
