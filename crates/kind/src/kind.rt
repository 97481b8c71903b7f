ghost use Rattle.std.specs.Prelude.{◌≡◌, ℕ, ◌≤◌, true, false, ℤ, FitsSigned};
ghost use Rattle.std.specs.Int.{w64};
ghost use Rattle.kind.specs.Meaning.{Meaning};

/// A kind of figure: what an article's figure starts at, and what an action's operation and amount do to it.
/// docs/RULES.md, section 4, has the kinds, and what the author of another one has to prove.
pub trait Kind {
    /// The number by which messages and tickets name the kind.
    const NUMBER: u8;

    /// The figure of an article before its first action.
    const START: i64;

    // The two constants, as the laws below speak of them.
    ghost NUMBER: { ℕ };

    ghost START: { ℤ };

    // What the kind means, as all contracts speak of it.
    ghost means: { Meaning };

    /// Whether the kind has a meaning for this operation with this amount.
    fn is_known(operation: u8, amount: i32) -> bool
        ensures { result ≡ means.knows operation amount };

    /// The figure to which this operation with this amount leads. A pair that is not known leaves the figure as it is.
    fn step(figure: i64, operation: u8, amount: i32) -> i64
        ensures { result ≡ means.steps figure operation amount };

    /// Whether the order of actions makes no difference to the figure. If it makes none, a table steps its figures by
    /// new actions alone; otherwise it works them anew from their bases.
    fn is_commuting() -> bool
        ensures { result ≡ means.commutes };

    // The laws, which the author of a kind proves. Those on pairs are asked of every operation and every amount,
    // also of those that no action can hold.

    // The constants are the number and the start figure that the kind means.
    ghost numbered: { NUMBER ≡ means.number };

    ghost starting: { START ≡ means.starts };

    // The number fits the one byte that a message has for it.
    ghost number_fits: { means.number ≤ 255 };

    // The start figure fits 64 bits, and a step leads from such a figure to such a one.
    ghost start_fits: { FitsSigned w64 means.starts };

    ghost step_fits: { (f : ℤ) (o : ℕ) (a : ℤ) → FitsSigned w64 f → FitsSigned w64 (means.steps f o a) };

    // A pair that the kind does not know leaves the figure as it is.
    ghost unknown_leaves: { (f : ℤ) (o : ℕ) (a : ℤ) → means.knows o a ≡ false → means.steps f o a ≡ f };

    // If the kind says that it commutes, two known pairs lead to the same figure whichever comes first.
    ghost commute: { (f : ℤ) (o : ℕ) (a : ℤ) (p : ℕ) (b : ℤ) → FitsSigned w64 f → means.commutes ≡ true
        → means.knows o a ≡ true → means.knows p b ≡ true
        → means.steps (means.steps f o a) p b ≡ means.steps (means.steps f p b) o a };
}
