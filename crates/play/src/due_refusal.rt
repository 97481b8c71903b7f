// The refusal that a line has to meet, with its number (docs/REFUSALS.md, section 2). The numbers stand here once more,
// so that those of the library are tested.
#[derive(Clone, Copy)]
pub(crate) enum DueRefusal {
    AlreadyOpen = 2,
    NotItsTicket = 3,
    NoArticle = 4,
    NoSite = 5,
    UnknownPair = 6,
    TooManyWrites = 7,
    Cut = 9,
    Foreign = 10,
    Broken = 11,
    Trailing = 12,
    Behind = 13,
    Ahead = 14,
    Short = 15,
    Full = 16,
}
