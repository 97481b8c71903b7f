ghost use Rattle.std.proofs.Common.{lit≤, refl};
ghost use Rattle.std.proofs.Math.Facts.{sfits_lit};
ghost use Rattle.kind.specs.Meanings.{flags};
ghost use Rattle.kind.specs.FlagsLaws.{flags_commute, flags_fits, flags_unknown};

use crate::kind::Kind;

/// Up to 24 flags, each a bit of the figure: kind 2 (docs/RULES.md, section 4.3).
#[derive(Clone, Copy, Debug, PartialEq, Eq)]
pub struct Flags;

impl Flags {
    /// The operation that switches on the flags whose bits the amount has.
    pub const SWITCH_ON: u8 = 1;
}

// The amount that has all 24 flags.
const ALL_FLAGS: i32 = 16_777_215;

impl Kind for Flags {
    const NUMBER: u8 = 2;

    const START: i64 = 0;

    ghost NUMBER = { flags.number };

    ghost START = { flags.starts };

    ghost means = { flags };

    ghost numbered = { refl };

    ghost starting = { refl };

    ghost number_fits = { lit≤ tt };

    ghost start_fits = { sfits_lit tt };

    ghost step_fits = { flags_fits };

    ghost unknown_leaves = { flags_unknown };

    ghost commute = { λ f o a p b fits c x y. flags_commute f o a p b fits x y };

    fn is_known(operation: u8, amount: i32) -> bool {
        operation == Self::SWITCH_ON && (1..=ALL_FLAGS).contains(&amount)
    }

    fn step(figure: i64, operation: u8, amount: i32) -> i64 {
        if !Self::is_known(operation, amount) {
            return figure;
        }
        figure | i64::from(amount)
    }

    fn is_commuting() -> bool {
        true
    }
}
