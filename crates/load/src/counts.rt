use std::fmt;

/// What came of the seasons so far. docs/LOAD.md says what each count is. A count wraps at 2⁶⁴.
#[derive(Clone, Copy, Default)]
pub struct Counts {
    pub(crate) commits: u64,
    pub(crate) actions: u64,
    pub(crate) offers: u64,
    pub(crate) lost: u64,
    pub(crate) repeated: u64,
    pub(crate) astray: u64,
    pub(crate) new: u64,
    pub(crate) known: u64,
    pub(crate) behind: u64,
    pub(crate) other: u64,
    pub(crate) taken: u64,
    pub(crate) passes: u64,
    pub(crate) level: u64,
    pub(crate) full: u64,
    pub(crate) archived: u64,
    sum: u64,
}

// Counts one more.
pub(crate) fn up(count: &mut u64) {
    *count = count.wrapping_add(1);
}

// Counts so many more.
pub(crate) fn up_by(count: &mut u64, more: usize) {
    *count = count.wrapping_add(more as u64);
}

impl Counts {
    // Takes a figure into the sum.
    pub(crate) fn add(&mut self, figure: i64) {
        self.sum = self
            .sum
            .wrapping_mul(31)
            .wrapping_add(figure.cast_unsigned());
    }
}

impl fmt::Display for Counts {
    fn fmt<W: fmt::Write>(&self, f: &mut fmt::Formatter<W>) -> fmt::Result {
        let Counts {
            commits,
            actions,
            offers,
            lost,
            repeated,
            astray,
            new,
            known,
            behind,
            other,
            taken,
            passes,
            level,
            full,
            archived,
            sum,
        } = self;
        write!(f, "commits {commits} actions {actions} offers {offers} ")?;
        write!(f, "lost {lost} repeated {repeated} astray {astray} ")?;
        write!(
            f,
            "new {new} known {known} behind {behind} other {other} taken {taken} "
        )?;
        write!(
            f,
            "passes {passes} level {level} full {full} archived {archived} sum {sum}"
        )
    }
}
