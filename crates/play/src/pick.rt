// What a line is given, by chance.
ghost use Rattle.std.specs.Prelude.{◌≤◌};
ghost use Rattle.play.specs.declared.slot.TheConstants.{SLOT_BYTES};

use crate::outsider::OUTSIDER;
use crate::run::{Run, SLOTS};
use crate::slot::{SLOT_BYTES, Space};
use crate::turn::Holder;
use kind::Kind;
use trials::{Dice, Movement};

// A number from 0 to `most`.
fn up_to(dice: &mut Dice, most: u32) -> i32 {
    i32::try_from(dice.below(most.wrapping_add(1))).unwrap_or(0)
}

// An amount: up to a limit of a kind, a single bit, around 0, or anything.
fn pick_amount(dice: &mut Dice) -> i32 {
    match dice.byte(6) {
        0 => up_to(dice, 99_999_999),
        1 => up_to(dice, 1_000_000),
        2 => 1 << dice.below(31),
        3 => dice.any(),
        _ => up_to(dice, 1_000).wrapping_sub(500),
    }
}

// A pair of operation and amount: mostly one that the kind knows, and now and then one that it does not know. Where
// sixteen throws give none such, it is the last one thrown.
fn pick_pair<K: Kind>(dice: &mut Dice) -> (u8, i32) {
    let knows = !dice.chance(5);
    let mut pair = (1, 1);
    for _ in 0..16 {
        let (operation, amount) = (dice.byte(4), pick_amount(dice));
        pair = (operation, amount);
        if K::is_known(operation, amount) == knows {
            break;
        }
    }
    pair
}

// Any site that a group may have, or the outsider.
fn pick_other(dice: &mut Dice) -> Holder {
    let number = dice.byte(OUTSIDER + 1);
    if number < OUTSIDER {
        Holder::Site(number)
    } else {
        Holder::Outsider
    }
}

// How many bytes a message may have: mostly a whole slot, or too few for some messages.
pub(crate) fn pick_most(dice: &mut Dice) -> usize
    ensures { result ≤ SLOT_BYTES }
{
    if dice.chance(80) {
        SLOT_BYTES
    } else {
        usize::from(dice.byte(120))
    }
}

pub(crate) fn pick_space(dice: &mut Dice) -> Space {
    Space {
        slot: dice.byte(SLOTS),
        most: pick_most(dice),
    }
}

impl<K: Kind + Drop, J: Kind + Drop> Run<K, J> {
    // An article of the group, mostly one of the first two, so that sites meet on it; now and then none.
    pub(crate) fn pick_article(&mut self) -> u8 {
        if self.dice.chance(4) {
            return self.articles.wrapping_add(self.dice.byte(190));
        }
        if self.dice.chance(75) {
            return self.dice.byte(self.articles.min(2));
        }
        self.dice.byte(self.articles)
    }

    // A peer; now and then none of the group.
    pub(crate) fn pick_peer(&mut self) -> u8 {
        if self.dice.chance(4) {
            return self.sites.wrapping_add(self.dice.byte(200));
        }
        self.dice.byte(self.sites)
    }

    pub(crate) fn pick_movement(&mut self) -> Movement {
        let article = self.pick_article();
        let (operation, amount) = pick_pair::<K>(&mut self.dice);
        Movement {
            article,
            operation,
            amount,
        }
    }

    // Has the holder a ticket that the site has to refuse?
    fn is_wrong_at(&self, site: u8, holder: Holder) -> bool {
        match holder {
            Holder::Own => false,
            Holder::Site(other) => other != site && self.holds(other),
            Holder::Outsider => self.outsider.is_strange_at(self.book.greatest(site)),
        }
    }

    // A holder by chance; `None` where it has no ticket that the site has to refuse.
    fn pick_wrong(&mut self, site: u8) -> Option<Holder> {
        let holder = pick_other(&mut self.dice);
        self.is_wrong_at(site, holder).then_some(holder)
    }

    // Whose ticket a line at the site goes by: the site's own, or now and then a wrong one.
    pub(crate) fn pick_holder(&mut self, site: u8) -> Option<Holder> {
        let own = self.holds(site).then_some(Holder::Own);
        if self.dice.chance(12) {
            return self.pick_wrong(site).or(own);
        }
        own
    }
}
