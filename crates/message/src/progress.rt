ghost use Rattle.std.specs.Prelude.{◌≡◌, slice_index_or};
ghost use Rattle.message.specs.Progress.{start, Admits, due_after, lawful_action, lawful_interval, lawful_section, no_span};
ghost use Rattle.message.specs.declared.record.Record.TheVariants.{Header as HeaderRecord, Section as SectionRecord, Interval as IntervalRecord, Action as ActionRecord};

use crate::due::{Due, due_after};
use crate::reader_fault::UnplacedFault;
use crate::record::{Header, Interval, Record, SectionHead};
use action::{Action, LATEST_TIME, MOST_SITES, Setup};
use kind::Kind;

// The times of an interval: later than `from` and not later than `to`. Where the two are equal there are none.
#[derive(Clone, Copy, Default)]
struct TimeSpan {
    from: u32,
    to: u32,
}

// How far a message has been read, and what the field rules for its next record need of the records before.
#[derive(Clone, Copy)]
pub(crate) struct Progress {
    pub(crate) due: Due,
    // How many sections are to come, and how many intervals and actions of the present section.
    sections: u8,
    intervals: u8,
    actions: u16,
    // The present section's article, and the least that the next section may have.
    article: u8,
    next_article: u8,
    // The least site that the section's next interval may have.
    next_site: u8,
    // By site: the times of the section's intervals so far.
    spans: [TimeSpan; MOST_SITES],
    // The section's last action; before the first one, an action at time 0.
    last: Action,
}

impl Progress {
    // Nothing has been read yet: the header is due.
    pub(crate) fn start() -> Progress
        ensures { result ≡ start }
    {
        Progress {
            due: Due::Header,
            sections: 0,
            intervals: 0,
            actions: 0,
            article: 0,
            next_article: 0,
            next_site: 0,
            spans: [TimeSpan::default(); MOST_SITES],
            last: Action::default(),
        }
    }

    fn is_lawful_section(&self, setup: &Setup, head: &SectionHead) -> bool
        ensures { result ≡ lawful_section setup.now self.now head.now }
    {
        (self.next_article..setup.articles).contains(&head.article)
            && (1..=setup.sites).contains(&head.intervals)
    }

    fn is_lawful_interval(&self, setup: &Setup, interval: &Interval) -> bool
        ensures { result ≡ lawful_interval setup.now self.now interval.now }
    {
        (self.next_site..setup.sites).contains(&interval.site)
            && interval.from <= interval.to
            && interval.to <= LATEST_TIME
    }

    // The times of the section's interval of a site; none where it has no such interval.
    fn span(&self, site: u8) -> TimeSpan
        ensures { result ≡ slice_index_or self.now.spans site no_span }
    {
        let span = self.spans.get(usize::from(site));
        span.copied().unwrap_or_default()
    }

    fn is_lawful_action<K: Kind>(&self, action: &Action) -> bool
        ensures { result ≡ lawful_action K.means self.now action.now }
    {
        let span = self.span(action.coordinator);
        action.article == self.article
            && span.from < action.time
            && action.time <= span.to
            && self.last.precedes(action)
            && (1..=action.time).contains(&action.transaction)
            && K::is_known(action.operation, action.amount)
    }

    // Goes on by a header. This and the next three have one contract, each for its case of `Record`.
    fn admit_header<K: Kind>(&mut self, setup: &Setup, header: &Header) -> Result<(), UnplacedFault>
        ensures { Admits K.means setup.now self.old (HeaderRecord header.now) result self.new }
    {
        if !header.is_named::<K>(setup) {
            return Err(UnplacedFault::Foreign);
        }
        if !header.is_lawful(setup) {
            return Err(UnplacedFault::Broken);
        }
        self.due = Due::Section;
        self.sections = header.sections;
        Ok(())
    }

    fn admit_section<K: Kind>(
        &mut self,
        setup: &Setup,
        head: &SectionHead,
    ) -> Result<(), UnplacedFault>
        ensures { Admits K.means setup.now self.old (SectionRecord head.now) result self.new }
    {
        if !self.is_lawful_section(setup, head) {
            return Err(UnplacedFault::Broken);
        }
        let sections = self.sections.saturating_sub(1);
        *self = Progress {
            due: due_after(head.intervals, head.actions, sections),
            sections,
            intervals: head.intervals,
            actions: head.actions,
            article: head.article,
            next_article: head.article + 1,
            ..Progress::start()
        };
        Ok(())
    }

    fn admit_interval<K: Kind>(
        &mut self,
        setup: &Setup,
        interval: &Interval,
    ) -> Result<(), UnplacedFault>
        ensures { Admits K.means setup.now self.old (IntervalRecord interval.now) result self.new }
    {
        if !self.is_lawful_interval(setup, interval) {
            return Err(UnplacedFault::Broken);
        }
        self.intervals = self.intervals.saturating_sub(1);
        self.due = due_after(self.intervals, self.actions, self.sections);
        self.next_site = interval.site + 1;
        self.spans[usize::from(interval.site)] = TimeSpan {
            from: interval.from,
            to: interval.to,
        };
        Ok(())
    }

    fn admit_action<K: Kind>(&mut self, setup: &Setup, action: &Action) -> Result<(), UnplacedFault>
        ensures { Admits K.means setup.now self.old (ActionRecord action.now) result self.new }
    {
        if !self.is_lawful_action::<K>(action) {
            return Err(UnplacedFault::Broken);
        }
        self.actions = self.actions.saturating_sub(1);
        self.due = due_after(0, self.actions, self.sections);
        self.last = *action;
        Ok(())
    }

    // Goes on by a record. If that is refused, the progress stays as it is.
    pub(crate) fn admit<K: Kind>(
        &mut self,
        setup: &Setup,
        record: &Record,
    ) -> Result<(), UnplacedFault>
        ensures { Admits K.means setup.now self.old «record».now result self.new }
    {
        match record {
            Record::Header(header) => self.admit_header::<K>(setup, header),
            Record::Section(head) => self.admit_section::<K>(setup, head),
            Record::Interval(interval) => self.admit_interval::<K>(setup, interval),
            Record::Action(action) => self.admit_action::<K>(setup, action),
        }
    }
}
