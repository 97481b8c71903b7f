ghost use Rattle.std.specs.Prelude.{◌≡◌, ◌≤◌, List, length};
ghost use Rattle.std.specs.Iterator.{YieldsFirst, item_count};
ghost use Rattle.std.specs.Iterator.Runs.{YieldsInOrder};
ghost use Rattle.action.specs.declared.action.Action.{Action};
ghost use Rattle.message.specs.Format.{Message, carried};
ghost use Rattle.message.specs.Found.{actions_among};
ghost use Rattle.message.specs.ReadBack.{IsMessage};
ghost use Rattle.message.specs.Walks.{actions_of, records_in};

use crate::records::Records;
use action::Action;
use std::marker::Model;

/// The actions of a message that are left to go over. Of bytes that are no message, those before the first
/// place at which no record begins.
#[derive(Drop)]
pub struct Actions<'a>(Records<'a>);

impl<'a> Model for Actions<'a> {
    ghost Value = { List Action };

    ghost view = { λ a. actions_among a.0 };
}

impl<'a> Actions<'a> {
    /// From the first action of the message on.
    pub fn new(bytes: &'a [u8]) -> Actions<'a>
        ensures left { result ≡ actions_of (records_in bytes.now) }
        ensures reads_back { (m : Message) → IsMessage bytes.now m → result ≡ carried m }
        ensures few { length result ≤ length bytes.now }
        ensures runs { YieldsInOrder (YieldsFirst {A = Action} (λ left. left)) (λ left. left) }
    {
        Actions(Records::new(bytes))
    }
}

impl<'a> Iterator for Actions<'a> {
    type Item = Action;

    ghost next_gives = { YieldsFirst (λ left. left) };

    ghost remaining = { item_count (λ left. left) };

    #[inline(always)]
    fn next(&mut self) -> Option<Action> {
        while let Some(found) = self.0.next() {
            if let Some(action) = found.record.action() {
                return Some(action);
            }
        }
        None
    }
}
