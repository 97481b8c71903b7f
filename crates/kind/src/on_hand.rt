ghost use Rattle.std.proofs.Common.{lit≤, refl};
ghost use Rattle.std.proofs.Math.Facts.{sfits_lit};
ghost use Rattle.kind.specs.Meanings.{on_hand};
ghost use Rattle.kind.specs.OnHandLaws.{on_hand_commutes, on_hand_fits, on_hand_unknown};

use crate::kind::Kind;

/// How many pieces are on hand: kind 1 (docs/RULES.md, section 4.2).
#[derive(Clone, Copy, Debug, PartialEq, Eq)]
pub struct OnHand;

impl OnHand {
    /// The operation that adds the amount, which is below 0 where pieces go out.
    pub const ADD: u8 = 1;
}

// The most that one action may add or take away.
const MOST_MOVED: i32 = 1_000_000;

impl Kind for OnHand {
    const NUMBER: u8 = 1;

    const START: i64 = 0;

    ghost NUMBER = { on_hand.number };

    ghost START = { on_hand.starts };

    ghost means = { on_hand };

    ghost numbered = { refl };

    ghost starting = { refl };

    ghost number_fits = { lit≤ tt };

    ghost start_fits = { sfits_lit tt };

    ghost step_fits = { on_hand_fits };

    ghost unknown_leaves = { on_hand_unknown };

    ghost commute = { λ f o a p b fits c x y. on_hand_commutes f o a p b x y };

    fn is_known(operation: u8, amount: i32) -> bool {
        operation == Self::ADD && (-MOST_MOVED..=MOST_MOVED).contains(&amount)
    }

    fn step(figure: i64, operation: u8, amount: i32) -> i64 {
        if !Self::is_known(operation, amount) {
            return figure;
        }
        figure.wrapping_add(i64::from(amount))
    }

    fn is_commuting() -> bool {
        true
    }
}
