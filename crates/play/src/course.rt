// The course of a run from its beginning to its end, with lines by chance.
use crate::breach::Whose;
use crate::call::Abandon;
use crate::choice::{ByTicket, Choice, Plain, pick_choice};
use crate::counts::Counts;
use crate::law::Law;
use crate::maker::make_run;
use crate::offer::Offer;
use crate::outsider::Stranger;
use crate::pick::{pick_most, pick_space};
use crate::run::{Run, SLOTS};
use crate::slot::Space;
use crate::stop::Stop;
use crate::turn::Turn;
use kind::Kind;

impl<K: Kind + Drop, J: Kind + Drop> Run<K, J> {
    // A line by a ticket. Where there is none, a transaction is opened.
    fn ticket_line(&mut self, site: u8, call: ByTicket) -> Result<(), Stop> {
        let Some(by) = self.pick_holder(site) else {
            return self.open_line(site);
        };
        let turn = Turn { site, by };
        match call {
            ByTicket::Write => {
                let movement = self.pick_movement();
                self.write_line(turn, movement)
            }
            ByTicket::Commit => {
                let space = pick_space(&mut self.dice);
                self.commit_line(turn, space)
            }
            ByTicket::Abandon => self.abandon_line(turn),
        }
    }

    // A take of a message, now and then twice in a row.
    fn take_lines(&mut self, site: u8) -> Result<(), Stop> {
        let slot = self.dice.byte(SLOTS);
        self.take_line(site, slot)?;
        if self.dice.chance(10) {
            self.take_line(site, slot)?;
        }
        Ok(())
    }

    // A line without a ticket.
    fn plain_line(&mut self, site: u8, call: Plain) -> Result<(), Stop> {
        let slot = self.dice.byte(SLOTS);
        let article = self.pick_article();
        match call {
            Plain::Offer => {
                let peer = self.pick_peer();
                let most = pick_most(&mut self.dice);
                let offer = Offer {
                    site,
                    peer,
                    article,
                };
                self.offer_line(offer, Space { slot, most })
            }
            Plain::Take => self.take_lines(site),
            Plain::Forged => self.forged_line(site, slot),
            Plain::Archive => self.archive_line(site, article),
        }
    }

    // A line by chance, or some that belong together, at a site by chance.
    fn any_line(&mut self) -> Result<(), Stop> {
        let site = self.dice.byte(self.sites);
        let article = self.dice.byte(self.articles.min(2));
        match pick_choice(&mut self.dice) {
            Choice::Open => self.open_line(site),
            Choice::ByTicket(call) => self.ticket_line(site, call),
            Choice::Plain(call) => self.plain_line(site, call),
            Choice::Level => {
                self.settle()?;
                self.bring_level(article)
            }
            Choice::Stir => self.stir(article),
        }
    }

    // So many lines by chance, or until a law does not hold. Now and then all laws are checked at all sites.
    fn play_lines(&mut self, lines: u32) -> Result<(), Stop> {
        for i in 0..lines {
            self.any_line()?;
            if i % 8 == 0 {
                self.check_all();
            }
            if self.counts.is_broken() {
                break;
            }
        }
        Ok(())
    }

    // The end of a run: every transaction is ended, two articles are brought level as far as that goes, and all laws
    // are checked.
    fn close(&mut self) -> Result<(), Stop> {
        self.settle()?;
        for article in 0..self.articles.min(2) {
            self.bring_level(article)?;
        }
        self.check_all();
        Ok(())
    }

    // All of a run. The outsider's transaction is open as long as the lines are played, so that its ticket can be tried
    // at the group's tables. In the end the outsider's own table has to grant an abandon by it.
    fn play(&mut self, lines: u32) -> Result<(), Stop> {
        let _ = self.outsider.seat.open();
        self.play_lines(lines)?;
        self.close()?;
        let _ = self.outsider.seat.call(Abandon);
        let is_spent = !self.outsider.seat.holds();
        self.counts.hold(Law::Refusal, Whose::Outsider, is_spent);
        Ok(())
    }
}

// Makes one run and plays it. A breach is printed before the tables are let go: a table with a fault might refuse its
// own ticket, and the program would end there.
pub(crate) fn play_run<K: Kind + Drop, J: Kind + Drop>(
    rt: &HostRuntime,
    counts: &mut Counts,
    seed: u64,
    stranger: Stranger,
    lines: u32,
) -> Result<(), Stop> {
    let mut run = make_run::<K, J>(rt.alloc(), seed, stranger, *counts)?;
    let outcome = run.play(lines);
    *counts = run.counts;
    if let Some(breach) = counts.breach {
        println!(rt; "broken: {breach}")?;
    }
    outcome
}
