//! The worked examples as one table (specs/Table.antt), each row of which is proved of the definitions. The rows
//! of figures and of the order stand here once more as code, and are proved to come out the same.
//!
//! The rows themselves say nothing of the code. That it computes what the definitions do, for all arguments, is
//! in the contracts of `Kind::step`, `Action::precedes` and `Table::take`.
#![tactic(auto)]

ghost use Rattle.std.specs.Prelude.{◌≡◌, true};
ghost use Rattle.std.specs.List.{AllByRecursion};
ghost use Rattle.kind.specs.Meanings.{on_hand};
ghost use Rattle.kind.specs.Working.{working};
ghost use Rattle.table.specs.Sound.{Sound};
ghost use Rattle.examples.specs.Table.{Holds, at, doing, examples, site};

use action::Action;
use kind::{Flags, Kind, OnHand, Price};

#[cfg(test)]
mod tests;

/// Works the examples of figures and of the order, and answers whether all come out as expected.
pub fn examples_hold() -> bool
    ensures code { result ≡ true }

    // Every row of the table holds of the definitions.
    ensures rows { AllByRecursion Holds examples }

    // The table that the rows on taking a message are about is sound.
    ensures sound { Sound on_hand site }
{
    on_hand_holds() && set_prices_hold() && raised_prices_hold() && flags_hold() && order_holds()
}

fn on_hand_holds() -> bool
    ensures { result ≡ true }
{
    let moves = [
        doing(OnHand::ADD, 1000),
        doing(OnHand::ADD, 500),
        doing(OnHand::ADD, -200),
        doing(OnHand::ADD, -200),
    ];
    worked::<OnHand>(OnHand::START, &moves) == 1100
}

// The order matters: a price that is set forgets what was done to it before.
fn set_prices_hold() -> bool
    ensures { result ≡ true }
{
    let set = doing(Price::SET, 10_000);
    let raise = doing(Price::RAISE, 50);
    worked::<Price>(Price::START, &[set, raise]) == 10_500
        && worked::<Price>(Price::START, &[raise, set]) == 10_000
}

fn raised_prices_hold() -> bool
    ensures { result ≡ true }
{
    worked::<Price>(333, &[doing(Price::RAISE, 15)]) == 337
        && worked::<Price>(1, &[doing(Price::RAISE, -500)]) == 0
        && worked::<Price>(99_999_999, &[doing(Price::RAISE, 1)]) == 99_999_999
}

fn flags_hold() -> bool
    ensures { result ≡ true }
{
    worked::<Flags>(5, &[doing(Flags::SWITCH_ON, 6)]) == 7
}

fn order_holds() -> bool
    ensures { result ≡ true }
{
    let first = action_at(2, 0);
    let second = action_at(2, 2);
    let third = action_at(3, 0);
    first.precedes(&second) && second.precedes(&third)
}

// Works the actions from the figure on.
fn worked<K: Kind>(start: i64, actions: &[Action]) -> i64
    ensures { result ≡ working K.means.steps start actions.now }
{
    actions.iter().fold(start, |figure, action| {
        K::step(figure, action.operation, action.amount)
    })
}

// An action of which only the pair matters.
fn doing(operation: u8, amount: i32) -> Action
    ensures { result ≡ doing (operation, amount) }
{
    Action {
        coordinator: 0,
        time: 1,
        transaction: 1,
        article: 0,
        operation,
        amount,
    }
}

// An action of which only the time and the site matter.
fn action_at(time: u32, site: u8) -> Action
    ensures { result ≡ at time site }
{
    Action {
        coordinator: site,
        time,
        transaction: time,
        article: 0,
        operation: 1,
        amount: 1,
    }
}
