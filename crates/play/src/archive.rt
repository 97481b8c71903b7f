use crate::counts::up;
use crate::due_refusal::DueRefusal;
use crate::run::Run;
use crate::stop::Stop;
use kind::Kind;

impl<K: Kind + Drop, J: Kind + Drop> Run<K, J> {
    // A line that archives.
    pub(crate) fn archive_line(&mut self, site: u8, article: u8) -> Result<(), Stop> {
        let due = if self.holds(site) {
            Some(DueRefusal::AlreadyOpen)
        } else if article >= self.articles {
            Some(DueRefusal::NoArticle)
        } else {
            None
        };
        let line = self.begin(site, due)?;
        let Some(seat) = self.seat_mut(site) else {
            return Ok(());
        };
        let answer = seat.archive(article);
        if let Ok(count) = answer {
            self.book.archive(site, count);
            up(&mut self.counts.archived, count);
        }
        self.end(line, answer.err(), false)?;
        Ok(())
    }
}
