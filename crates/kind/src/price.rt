ghost use Rattle.std.specs.Prelude.{◌≡◌, false, pos, neg_ℤ, ◌≤ℤ◌, MatchOption};
ghost use Rattle.std.proofs.Common.{lit≤, refl};
ghost use Rattle.std.proofs.Math.Facts.{sfits_lit};
ghost use Rattle.std.proofs.lemmas.Bool.{false≢true};
ghost use Rattle.kind.specs.Changes.{StandsFor};
ghost use Rattle.kind.specs.Meanings.{held, price, price_knows, raised};
ghost use Rattle.kind.specs.PriceLaws.{price_fits, price_unknown};

use crate::kind::Kind;

/// A price in cents: kind 3 (docs/RULES.md, section 4.4).
#[derive(Clone, Copy, Debug, PartialEq, Eq)]
pub struct Price;

impl Price {
    /// The operation that sets the price to the amount, in cents.
    pub const SET: u8 = 1;

    /// The operation that adds so many thousandths of the price; below 0 they are taken off.
    pub const RAISE: u8 = 2;
}

// The highest price, in cents.
const HIGHEST: i64 = 99_999_999;

// The most thousandths of the price that one action may add or take away.
const MOST_RAISED: i64 = 500;

impl Kind for Price {
    const NUMBER: u8 = 3;

    const START: i64 = 0;

    ghost NUMBER = { price.number };

    ghost START = { price.starts };

    ghost means = { price };

    ghost numbered = { refl };

    ghost starting = { refl };

    ghost number_fits = { lit≤ tt };

    ghost start_fits = { sfits_lit tt };

    ghost step_fits = { price_fits };

    ghost unknown_leaves = { price_unknown };

    ghost commute = { λ f o a p b fits c x y. absurd (false≢true c) };

    fn is_known(operation: u8, amount: i32) -> bool {
        change_of(operation, amount).is_some()
    }

    fn step(figure: i64, operation: u8, amount: i32) -> i64 {
        match change_of(operation, amount) {
            Some(Change::Set(cents)) => cents,
            Some(Change::Raise(thousandths)) => raised(figure, thousandths),
            None => figure,
        }
    }

    fn is_commuting() -> bool {
        false
    }
}

// What an action does to a price.
#[derive(Clone, Copy)]
enum Change {
    // To so many cents.
    Set(i64),
    // By so many thousandths.
    Raise(i64),
}

// The change that a pair stands for, if it is a known one.
fn change_of(operation: u8, amount: i32) -> Option<Change>
    ensures { MatchOption result (price_knows operation amount ≡ false) (StandsFor operation amount) }
{
    let amount = i64::from(amount);
    match operation {
        Price::SET if (0..=HIGHEST).contains(&amount) => Some(Change::Set(amount)),
        Price::RAISE if (-MOST_RAISED..=MOST_RAISED).contains(&amount) => Some(Change::Raise(
            amount,
        )),
        _ => None,
    }
}

// The nearest figure that is a price.
fn held(figure: i64) -> i64
    ensures { result ≡ held figure }
{
    figure.clamp(0, HIGHEST)
}

// The price nearest to the figure with so many thousandths of it added, at most the highest price. What is left of
// a cent is dropped.
fn raised(figure: i64, thousandths: i64) -> i64
    requires { (neg_ℤ (pos 500) ≤ℤ thousandths) × (thousandths ≤ℤ pos 500) }
    ensures { result ≡ raised figure thousandths }
{
    let cents = held(figure) * (1000 + thousandths) / 1000;
    cents.min(HIGHEST)
}
