ghost use Rattle.std.specs.Prelude.{◌≡◌, ◌+◌, ◌*◌, ◌<◌, ◌≤◌, length};
ghost use Rattle.std.specs.List.{flat_map};
ghost use Rattle.action.specs.Bytes.{action_bytes};
ghost use Rattle.kind.specs.Working.{on};
ghost use Rattle.message.specs.Buffer.{overwritten};
ghost use Rattle.message.specs.Format.{format, section_format};
ghost use Rattle.table.specs.Transactions.{latest, sections_bytes, transaction_message, transaction_section, written_articles};
ghost use Rattle.table.specs.View.{bare};

use crate::state::{State, emit, written_in};
use action::{ACTION_BYTES, Action};
use kind::Kind;
use message::{HEADER_BYTES, INTERVAL_BYTES, Interval, Record, SECTION_BYTES, SectionHead};

// How many sections a message has, and how many bytes.
#[derive(Clone, Copy)]
pub(crate) struct Size {
    pub(crate) sections: usize,
    pub(crate) length: usize,
}

impl State {
    // The size of the open transaction's message. Each article written has one section.
    pub(crate) fn measure<K: Kind>(&self) -> Size
        ensures sections { result.sections ≡ length (written_articles (bare self.now)) }
        ensures few { result.sections ≤ 64 }
        ensures bytes { result.length ≡ length (format (transaction_message K.means (bare self.now))) }
    {
        let pending = written_in(&self.transaction);
        let mut size = Size {
            sections: 0,
            length: HEADER_BYTES,
        };
        for article in 0..self.ledger.setup.articles {
            let count = count_on(pending, article);
            if count > 0 {
                size.sections += 1;
                size.length += SECTION_BYTES + INTERVAL_BYTES + ACTION_BYTES * count;
            }
        }
        size
    }

    // Puts the message, which has so many sections.
    pub(crate) fn put_transaction<K: Kind>(&self, sections: usize, buffer: &mut [u8])
        requires sections { (sections ≡ length (written_articles (bare self.now))) × (sections ≤ 64) }
        requires room { length (format (transaction_message K.means (bare self.now))) ≤ length buffer.old }
        ensures { buffer.new ≡ overwritten buffer.old 0 (format (transaction_message K.means (bare self.now))) }
    {
        let header = self.header::<K>(sections as u8);
        let at = emit(buffer, 0, Record::Header(header));
        self.put_sections(buffer, at);
    }

    // Puts the sections, in the order of their articles.
    fn put_sections(&self, buffer: &mut [u8], start: usize)
        requires { start + length (sections_bytes (bare self.now)) ≤ length buffer.old }
        ensures { buffer.new ≡ overwritten buffer.old start (sections_bytes (bare self.now)) }
    {
        let pending = written_in(&self.transaction);
        let mut at = start;
        for article in 0..self.ledger.setup.articles {
            let count = count_on(pending, article);
            if count > 0 {
                at = self.put_section(article, count, buffer, at);
            }
        }
    }

    // Puts the section of an article on which so many actions are pending.
    fn put_section(&self, article: u8, count: usize, buffer: &mut [u8], start: usize) -> usize
        requires counted { (count ≡ length (on article (bare self.now).pending)) × (count ≤ 16) }
        requires room { start + length (section_format (transaction_section (bare self.now) article))
            ≤ length buffer.old }
        ensures end { result ≡ start + length (section_format (transaction_section (bare self.now) article)) }
        ensures bytes { buffer.new
            ≡ overwritten buffer.old start (section_format (transaction_section (bare self.now) article)) }
    {
        let pending = written_in(&self.transaction);
        let own = self.ledger.setup.own;
        let before = self.ledger.entry(article, own, own);
        let head = SectionHead {
            article,
            intervals: 1,
            actions: count as u16,
        };
        let interval = Interval {
            site: own,
            from: before,
            to: before.max(latest_on(pending, article)),
        };
        let at = emit(buffer, start, Record::Section(head));
        let at = emit(buffer, at, Record::Interval(interval));
        put_on(pending, article, buffer, at)
    }
}

// How many of the actions are on the article.
fn count_on(actions: &[Action], article: u8) -> usize
    ensures value { result ≡ length (on article actions.now) }
    ensures few { result ≤ length actions.now }
{
    actions
        .iter()
        .filter(|action| action.article == article)
        .count()
}

// The latest time among the actions on the article, 0 where there are none.
fn latest_on(actions: &[Action], article: u8) -> u32
    ensures { result ≡ latest article actions.now }
{
    actions
        .iter()
        .filter(|action| action.article == article)
        .fold(0, |last, action| last.max(action.time))
}

// Puts the actions that are on the article.
fn put_on(actions: &[Action], article: u8, buffer: &mut [u8], start: usize) -> usize
    requires { start + 16 * length (on article actions.now) ≤ length buffer.old }
    ensures end { result ≡ start + 16 * length (on article actions.now) }
    ensures bytes { buffer.new ≡ overwritten buffer.old start (flat_map action_bytes (on article actions.now)) }
{
    let mut at = start;
    for action in actions {
        if action.article == article {
            at = emit(buffer, at, Record::Action(*action));
        }
    }
    at
}
