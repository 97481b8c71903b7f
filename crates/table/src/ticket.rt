/// The token of an open transaction. It cannot be let go: a granted commit or abandon has to spend it.
/// Which table it fits is in docs/RULES.md, section 9.1.
pub struct Ticket {
    pub(crate) group: u16,
    pub(crate) kind: u8,
    pub(crate) site: u8,
    pub(crate) clock: u32,
}

impl Ticket {
    // Ends the ticket, as only a granted commit or abandon may.
    pub(crate) fn spend(self) {
        let Ticket {
            group: _,
            kind: _,
            site: _,
            clock: _,
        } = self;
    }
}
