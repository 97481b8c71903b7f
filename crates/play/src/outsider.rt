use crate::seat::Seat;
use action::MOST_SITES;
use history::RackOrStrip;
use kind::Kind;

// The number of the outsider, which follows those that a site may have.
pub(crate) const OUTSIDER: u8 = MOST_SITES as u8;

// What sets the outsider's table apart from those of the group.
#[derive(Clone, Copy, PartialEq, Eq)]
pub(crate) enum Stranger {
    OtherGroup,
    OtherKind,
    // Its group and kind are those of the group's tables, its site is 0 or 1, and its clock stays 0.
    Twin,
}

// The table outside the group. Its ticket is tried at tables of the group that have to refuse it.
#[derive(Drop)]
pub(crate) struct Outsider<J: Kind + Drop> {
    pub(crate) seat: Seat<J, RackOrStrip>,
    pub(crate) unlike: Stranger,
}

impl<J: Kind + Drop> Outsider<J> {
    // Does a site with this clock have to refuse the outsider's ticket? A twin's may fit as long as that clock is 0.
    pub(crate) fn is_strange_at(&self, clock: u32) -> bool {
        self.seat.holds() && (self.unlike != Stranger::Twin || clock > 0)
    }
}
