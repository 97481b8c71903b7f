ghost use Rattle.std.specs.Prelude.{◌≡◌, ◌<◌, ◌+◌, ◌*◌, IfSome};
ghost use Rattle.script.specs.Lines.{site_of, DigitBelow, Hundreds, Placed, Sign, command, figure_of, move_of, offer_of, open_item_of, take_of};
ghost use Rattle.script.specs.Sheets.{letter};

// How many sites a desk has.
pub(crate) const SITES: u8 = 3;

/// What a line asks of the desk (docs/TALLY.md, section 3). `site` is the acting site.
#[derive(Clone, Copy, Debug, PartialEq, Eq)]
pub enum Command {
    /// `M`: posts a movement, whose message goes into the slot.
    Move {
        site: u8,
        article: u8,
        amount: i32,
        slot: u8,
    },
    /// `O`: offers the article to the peer. The offer goes into the slot.
    Offer {
        site: u8,
        peer: u8,
        article: u8,
        slot: u8,
    },
    /// `T`: takes the message in the slot.
    Take {
        site: u8,
        slot: u8,
    },
    /// `F`: asks for the article's figure.
    Figure {
        site: u8,
        article: u8,
    },
    /// `P`: asks whether the article is an open item for the peer.
    OpenItem {
        site: u8,
        peer: u8,
        article: u8,
    },
}

impl Command {
    // The letter of its form.
    pub(crate) fn letter(&self) -> char
        ensures value { result ≡ letter self.now }
        ensures ascii { result < 128 }
    {
        match self {
            Command::Move { .. } => 'M',
            Command::Offer { .. } => 'O',
            Command::Take { .. } => 'T',
            Command::Figure { .. } => 'F',
            Command::OpenItem { .. } => 'P',
        }
    }

    pub(crate) fn site(&self) -> u8
        ensures { result ≡ site_of self.now }
    {
        match *self {
            Command::Move { site, .. }
            | Command::Offer { site, .. }
            | Command::Take { site, .. }
            | Command::Figure { site, .. }
            | Command::OpenItem { site, .. } => site,
        }
    }
}

/// The command that a line writes, or `None` where it has no known form (docs/TALLY.md, section 3).
/// The line comes without the byte that ends it.
pub fn parse(line: &[u8]) -> Option<Command>
    ensures form { result ≡ command line.now }
    ensures placed { IfSome result Placed }
{
    let [letter, body @ ..] = line else {
        return None;
    };
    match char::from(*letter) {
        'M' => parse_move(body),
        'O' => parse_offer(body),
        'T' => parse_take(body),
        'F' => parse_figure(body),
        'P' => parse_open_item(body),
        _ => None,
    }
}

// After `M`: site, article, sign, six digits, slot.
fn parse_move(body: &[u8]) -> Option<Command>
    ensures form { result ≡ move_of body.now }
    ensures placed { IfSome result Placed }
{
    let [site, article, sign, d5, d4, d3, d2, d1, d0, slot] = body else {
        return None;
    };
    Some(Command::Move {
        site: acting_site(*site)?,
        article: digit(*article)?,
        amount: amount(
            *sign,
            three_digits(*d5, *d4, *d3)?,
            three_digits(*d2, *d1, *d0)?,
        )?,
        slot: digit(*slot)?,
    })
}

// After `O`: site, peer, article, slot.
fn parse_offer(body: &[u8]) -> Option<Command>
    ensures form { result ≡ offer_of body.now }
    ensures placed { IfSome result Placed }
{
    let [site, peer, article, slot] = body else {
        return None;
    };
    Some(Command::Offer {
        site: acting_site(*site)?,
        peer: digit(*peer)?,
        article: digit(*article)?,
        slot: digit(*slot)?,
    })
}

// After `T`: site, slot.
fn parse_take(body: &[u8]) -> Option<Command>
    ensures form { result ≡ take_of body.now }
    ensures placed { IfSome result Placed }
{
    let [site, slot] = body else {
        return None;
    };
    Some(Command::Take {
        site: acting_site(*site)?,
        slot: digit(*slot)?,
    })
}

// After `F`: site, article.
fn parse_figure(body: &[u8]) -> Option<Command>
    ensures form { result ≡ figure_of body.now }
    ensures placed { IfSome result Placed }
{
    let [site, article] = body else {
        return None;
    };
    Some(Command::Figure {
        site: acting_site(*site)?,
        article: digit(*article)?,
    })
}

// After `P`: site, peer, article.
fn parse_open_item(body: &[u8]) -> Option<Command>
    ensures form { result ≡ open_item_of body.now }
    ensures placed { IfSome result Placed }
{
    let [site, peer, article] = body else {
        return None;
    };
    Some(Command::OpenItem {
        site: acting_site(*site)?,
        peer: digit(*peer)?,
        article: digit(*article)?,
    })
}

// A digit that is the number of one of the desk's sites.
fn acting_site(byte: u8) -> Option<u8>
    ensures { DigitBelow 3 byte result }
{
    digit_below(SITES, byte)
}

// The value of a decimal digit.
fn digit(byte: u8) -> Option<u8>
    ensures { DigitBelow 10 byte result }
{
    digit_below(10, byte)
}

// The value of a decimal digit that is below the bound.
fn digit_below(bound: u8, byte: u8) -> Option<u8>
    ensures { DigitBelow bound byte result }
{
    let value = byte.checked_sub(b'0')?;
    (value < bound).then_some(value)
}

// The number that three digits write.
fn three_digits(high: u8, middle: u8, low: u8) -> Option<u16>
    ensures { Hundreds high middle low result }
{
    let hundreds = digit(high)?;
    let tens = digit(middle)?;
    let ones = digit(low)?;
    Some(100 * u16::from(hundreds) + 10 * u16::from(tens) + u16::from(ones))
}

// The amount of so many thousands and ones. `None` where the sign is neither `+` nor `-`.
fn amount(sign: u8, thousands: u16, ones: u16) -> Option<i32>
    requires { (thousands < 1000) × (ones < 1000) }
    ensures { Sign sign (1000 * thousands + ones) result }
{
    let number = 1000 * i32::from(thousands) + i32::from(ones);
    match sign {
        b'+' => Some(number),
        b'-' => Some(-number),
        _ => None,
    }
}
