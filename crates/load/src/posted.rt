use kind::{Flags, Kind, OnHand, Price};
use trials::Dice;

/// A kind of figure that draws by chance what a site posts.
pub trait Posted: Kind {
    // A pair of operation and amount that the kind knows.
    fn pair(dice: &mut Dice) -> (u8, i32);
}

// A number below `n`, as an `i32`.
fn below(dice: &mut Dice, n: u32) -> i32 {
    i32::try_from(dice.below(n)).unwrap_or(0)
}

impl Posted for OnHand {
    fn pair(dice: &mut Dice) -> (u8, i32) {
        (OnHand::ADD, below(dice, 2_001).wrapping_sub(1_000))
    }
}

impl Posted for Flags {
    fn pair(dice: &mut Dice) -> (u8, i32) {
        (Flags::SWITCH_ON, 1 << dice.below(24))
    }
}

impl Posted for Price {
    fn pair(dice: &mut Dice) -> (u8, i32) {
        if dice.chance(10) {
            (Price::SET, below(dice, 100_000))
        } else {
            (Price::RAISE, below(dice, 1_001).wrapping_sub(500))
        }
    }
}
