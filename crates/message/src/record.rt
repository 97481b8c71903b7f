ghost use Rattle.std.specs.Prelude.{◌≡◌, length};
ghost use Rattle.message.specs.Buffer.{Put};
ghost use Rattle.message.specs.Format.{header_bytes, interval_bytes, record_bytes, section_bytes};
ghost use Rattle.message.specs.Progress.{lawful_header, named};
ghost use Rattle.message.specs.Walks.{article_after, its_action, its_interval};

use action::{ACTION_BYTES, Action, MOST_WRITES, Setup};
use kind::Kind;

/// How many bytes a header has.
pub const HEADER_BYTES: usize = 6;

/// How many bytes the head of a section has.
pub const SECTION_BYTES: usize = 5;

/// How many bytes an interval has.
pub const INTERVAL_BYTES: usize = 10;

/// The most sections that a message may have: one for each action of a transaction.
pub const MOST_SECTIONS: u8 = MOST_WRITES as u8;

/// What a message begins with (record H).
#[derive(Clone, Copy, Debug, PartialEq, Eq)]
pub struct Header {
    pub group: u16,
    /// The number of the kind of figure.
    pub kind: u8,
    pub sender: u8,
    /// How many sections follow.
    pub sections: u8,
}

impl Header {
    fn to_bytes(&self) -> [u8; HEADER_BYTES]
        ensures { result ≡ header_bytes self.now }
    {
        let [g1, g0] = self.group.to_be_bytes();
        [b'H', g1, g0, self.kind, self.sender, self.sections]
    }

    // Does it name the group and the kind that the message is read for?
    pub(crate) fn is_named<K: Kind>(&self, setup: &Setup) -> bool
        ensures { result ≡ named K.means setup.now self.now }
    {
        self.group == setup.group && self.kind == K::NUMBER
    }

    pub(crate) fn is_lawful(&self, setup: &Setup) -> bool
        ensures { result ≡ lawful_header setup.now self.now }
    {
        (1..=MOST_SECTIONS).contains(&self.sections) && self.sender < setup.sites
    }
}

/// What a section begins with (record S). A section is about one article.
#[derive(Clone, Copy, Debug, PartialEq, Eq)]
pub struct SectionHead {
    pub article: u8,
    /// How many intervals follow.
    pub intervals: u8,
    /// How many actions follow these.
    pub actions: u16,
}

impl SectionHead {
    fn to_bytes(&self) -> [u8; SECTION_BYTES]
        ensures { result ≡ section_bytes self.now }
    {
        let [a1, a0] = self.actions.to_be_bytes();
        [b'S', self.article, self.intervals, a1, a0]
    }
}

/// What a section promises of one site (record I): the section has all of the site's actions on its article that
/// are later than `from` and not later than `to`.
#[derive(Clone, Copy, Debug, PartialEq, Eq)]
pub struct Interval {
    pub site: u8,
    pub from: u32,
    pub to: u32,
}

impl Interval {
    fn to_bytes(&self) -> [u8; INTERVAL_BYTES]
        ensures { result ≡ interval_bytes self.now }
    {
        let [f3, f2, f1, f0] = self.from.to_be_bytes();
        let [t3, t2, t1, t0] = self.to.to_be_bytes();
        [b'I', self.site, f3, f2, f1, f0, t3, t2, t1, t0]
    }
}

/// A record of a message (docs/MESSAGES.md, section 1).
#[derive(Clone, Copy, Debug, PartialEq, Eq)]
pub enum Record {
    Header(Header),
    Section(SectionHead),
    Interval(Interval),
    Action(Action),
}

impl Record {
    // How many bytes the record takes.
    pub(crate) fn size(&self) -> usize
        ensures { result ≡ length (record_bytes self.now) }
    {
        match self {
            Record::Header(_) => HEADER_BYTES,
            Record::Section(_) => SECTION_BYTES,
            Record::Interval(_) => INTERVAL_BYTES,
            Record::Action(_) => ACTION_BYTES,
        }
    }

    // The article that the records after this one are about, until the next section.
    pub(crate) fn article_after(&self, article: u8) -> u8
        ensures { result ≡ article_after article self.now }
    {
        match self {
            Record::Section(head) => head.article,
            _ => article,
        }
    }

    pub(crate) fn interval(&self) -> Option<Interval>
        ensures { result ≡ its_interval self.now }
    {
        match *self {
            Record::Interval(interval) => Some(interval),
            _ => None,
        }
    }

    pub(crate) fn action(&self) -> Option<Action>
        ensures { result ≡ its_action self.now }
    {
        match *self {
            Record::Action(action) => Some(action),
            _ => None,
        }
    }
}

// Writes the bytes at an offset of the buffer, and answers the offset after them; `None` where they do not fit.
fn put_bytes(buffer: &mut [u8], at: usize, bytes: &[u8]) -> Option<usize>
    ensures { Put buffer.old at bytes.now result buffer.new }
{
    let room = buffer.len();
    if at > room || bytes.len() > room - at {
        return None;
    }
    let end = at + bytes.len();
    buffer[at..end].copy_from_slice(bytes);
    Some(end)
}

/// Writes one record at an offset of the buffer, and answers the offset after it; `None` where it does not fit.
pub fn put(buffer: &mut [u8], at: usize, record: Record) -> Option<usize>
    ensures { Put buffer.old at (record_bytes «record») result buffer.new }
{
    match record {
        Record::Header(header) => put_bytes(buffer, at, &header.to_bytes()),
        Record::Section(head) => put_bytes(buffer, at, &head.to_bytes()),
        Record::Interval(interval) => put_bytes(buffer, at, &interval.to_bytes()),
        Record::Action(action) => put_bytes(buffer, at, &action.to_bytes()),
    }
}
