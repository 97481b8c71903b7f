use crate::due_refusal::DueRefusal;
use crate::law::Law;
use crate::run::Run;
use action::Refusal;
use kind::Kind;
use std::alloc::AllocError;
use table::TableFault;

// A line of a run that has begun. It makes one call at one site. The answer and what the table shows after it are held
// to the rules.
#[derive(Drop)]
pub(crate) struct Line {
    pub(crate) site: u8,
    // What the call has to be refused by; `None` where it has to be granted.
    due: Option<DueRefusal>,
    // What the site's table showed before the call.
    shown: Vec<Option<i64>>,
}

impl<K: Kind + Drop, J: Kind + Drop> Run<K, J> {
    // Begins a line: notes what the site's table shows before the call.
    pub(crate) fn begin(&self, site: u8, due: Option<DueRefusal>) -> Result<Line, AllocError> {
        let shown = self.shown(site)?;
        Ok(Line { site, due, shown })
    }

    // Does the table show what it showed before the call?
    pub(crate) fn is_same(&self, line: &Line) -> Result<bool, AllocError> {
        Ok(self.shown(line.site)? == line.shown)
    }

    // Ends a line: the call has to be granted, or refused as it is due, and only where `changes` says so may the table
    // show something else than before.
    pub(crate) fn end(
        &mut self,
        line: Line,
        fault: Option<TableFault>,
        changes: bool,
    ) -> Result<(), AllocError> {
        let site = line.site;
        let refused = fault.map(|fault| Refusal::from(fault).number);
        let due = line.due.map(|due| due as u8);
        self.counts.note_line(refused);
        self.counts.hold(Law::Refusal, site, refused == due);
        let is_same = self.is_same(&line)?;
        self.counts.hold(Law::Still, site, is_same || changes);
        self.check_site(site);
        Ok(())
    }
}
