use trials::Dice;

// A call that goes by a ticket.
#[derive(Clone, Copy)]
pub(crate) enum ByTicket {
    Write,
    Commit,
    Abandon,
}

// A call that goes by no ticket.
#[derive(Clone, Copy)]
pub(crate) enum Plain {
    Offer,
    Take,
    // A take of bytes that no table wrote.
    Forged,
    Archive,
}

// What is done next: one call, or many lines that belong together.
#[derive(Clone, Copy)]
pub(crate) enum Choice {
    Open,
    ByTicket(ByTicket),
    Plain(Plain),
    // An article is brought level.
    Level,
    // All sites move an article.
    Stir,
}

pub(crate) fn pick_choice(dice: &mut Dice) -> Choice {
    match dice.below(100) {
        0 => Choice::Level,
        1 => Choice::Stir,
        2..=5 => Choice::Open,
        6..=31 => Choice::ByTicket(ByTicket::Write),
        32..=39 => Choice::ByTicket(ByTicket::Commit),
        40..=41 => Choice::ByTicket(ByTicket::Abandon),
        42..=61 => Choice::Plain(Plain::Offer),
        62..=85 => Choice::Plain(Plain::Take),
        86..=93 => Choice::Plain(Plain::Forged),
        _ => Choice::Plain(Plain::Archive),
    }
}
