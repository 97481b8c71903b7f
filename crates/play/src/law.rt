use std::fmt;

// What the program holds a run to. The letters are those of docs/PLAY.md.
#[derive(Clone, Copy)]
pub(crate) enum Law {
    // a: the figure is that of the committed actions that the site has.
    Figure,
    // a: the reception vector is as the book has it.
    Vector,
    // a: no two committed actions have the same coordinator and time.
    Distinct,
    // b: where nothing is open all sites have the same figure and vector.
    Level,
    // c: a message that was taken before changes nothing.
    Repeat,
    // The clock is the greatest time that the site has reached.
    Clock,
    // No table says more of another site than that site has.
    Belief,
    // Only a commit and a take that are granted change what a table shows.
    Still,
    // A call is granted, or refused by the number that the rules say.
    Refusal,
    // What a granted call answers.
    Answer,
}

impl fmt::Display for Law {
    fn fmt<W: fmt::Write>(&self, f: &mut fmt::Formatter<W>) -> fmt::Result {
        f.write_str(match self {
            Law::Figure => "a, figure",
            Law::Vector => "a, vector",
            Law::Distinct => "a, distinct",
            Law::Level => "b",
            Law::Repeat => "c",
            Law::Clock => "clock",
            Law::Belief => "belief",
            Law::Still => "still",
            Law::Refusal => "refusal",
            Law::Answer => "answer",
        })
    }
}
