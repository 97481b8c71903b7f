use std::fmt;

/// What comes of a job, as it is printed.
#[derive(Drop)]
pub struct Report {
    // The sum of what all calls answered.
    pub(crate) answers: usize,
    // The sum of the bytes of the messages.
    pub(crate) bytes: u32,
    // The figures at the end.
    pub(crate) figures: [i64; 4],
}

impl fmt::Display for Report {
    fn fmt<W: fmt::Write>(&self, f: &mut fmt::Formatter<W>) -> fmt::Result {
        let Report {
            answers,
            bytes,
            figures: [a, b, c, d],
        } = self;
        write!(f, "{answers} {bytes} {a} {b} {c} {d}")
    }
}
