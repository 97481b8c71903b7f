ghost use Rattle.std.specs.Prelude.{◌≡◌};
ghost use Rattle.history.specs.Walks.{left};

use crate::history::History;
use action::Action;

/// The actions of a history that are left to go over, in the order of their places.
#[derive(Drop)]
pub struct Walk<'a, H> {
    history: &'a H,
    place: usize,
}

impl<'a, H: History> Iterator for Walk<'a, H> {
    ghost use Rattle.std.specs.Iterator.{YieldsFirst, item_count};

    type Item = Action;

    ghost next_gives = { YieldsFirst (left H.items) };

    ghost remaining = { item_count (left H.items) };

    fn next(&mut self) -> Option<Action> {
        let action = self.history.read(self.place).ok()?;
        self.place += 1;
        Some(action)
    }
}

/// Goes over all actions of a history, from the first place on.
pub fn actions<H: History>(history: &H) -> Walk<'_, H>
    ensures { left H.items result ≡ H.items history.now }
{
    Walk { history, place: 0 }
}
