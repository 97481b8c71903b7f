ghost use Rattle.std.specs.Prelude.{◌≡◌, true, ℤ};
ghost use Rattle.script.specs.Moves.{SixDigits, on_hand_moves};

use kind::{Kind, OnHand};

/// A kind of figure that lines can move. A desk can be of any such kind.
pub trait Movable: Kind {
    // The operation that `M` writes, 1, is known with every amount that `M` can have.
    ghost knows_moves: { (amount : ℤ) → SixDigits amount → Self.means.knows 1 amount ≡ true };
}

impl Movable for OnHand {
    ghost knows_moves = { on_hand_moves };
}
