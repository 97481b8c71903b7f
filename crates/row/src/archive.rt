ghost use Rattle.std.specs.Prelude.{◌≡◌, not, length, filter};
ghost use Rattle.kind.specs.Working.{working};
ghost use Rattle.row.specs.Passes.{is_up_to};

use crate::place::{place, take_out};
use action::Action;
use history::{History, actions};
use kind::Kind;

/// Moves an article's actions up to a time out of the history and steps the base by them, in order.
/// Answers how many they were.
pub fn move_actions<K: Kind, H: History>(
    base: &mut i64,
    history: &mut H,
    article: u8,
    time: u32,
) -> usize
    ensures count { result ≡ length (filter (is_up_to article time) (H.items history.old)) }
    ensures figure { base.new
        ≡ working K.means.steps base.old (filter (is_up_to article time) (H.items history.old)) }
    ensures list { H.items history.new ≡ filter (λ x. not (is_up_to article time x)) (H.items history.old) }
    ensures fixed { H.room history.new ≡ H.room history.old }
{
    let gone = actions(history)
        .filter(|action| is_up_to(article, time, action))
        .count();
    for action in actions(history) {
        if is_up_to(article, time, &action) {
            *base = K::step(*base, action.operation, action.amount);
        }
    }
    take_out_up_to(history, article, time);
    gone
}

// Takes the article's actions up to a time out of the history. It goes from the end, so that no place that is
// still to be looked at moves.
fn take_out_up_to<H: History>(history: &mut H, article: u8, time: u32)
    ensures list { H.items history.new ≡ filter (λ x. not (is_up_to article time x)) (H.items history.old) }
    ensures fixed { H.room history.new ≡ H.room history.old }
{
    for i in (0..history.count()).rev() {
        let action = place(history, i);
        if is_up_to(article, time, &action) {
            take_out(history, i);
        }
    }
}

// Is the action on the article, and not later than the time?
fn is_up_to(article: u8, time: u32, action: &Action) -> bool
    ensures { result ≡ is_up_to article time action.now }
{
    action.article == article && action.time <= time
}
