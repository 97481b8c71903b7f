ghost use Rattle.std.specs.Prelude.{◌≡◌, ◌<◌};
ghost use Rattle.script.specs.Acts.{reply_of};
ghost use Rattle.script.specs.Sheets.{printed_line, sheet_bytes};

use crate::line_fault::LineFault;
use crate::sheet_line::SheetLine;
use action::Refusal;

/// What a command answers where it is not refused (docs/TALLY.md, section 5).
#[derive(Clone, Copy, Debug, PartialEq, Eq)]
pub enum Answer {
    /// Of `M`: the time of the write.
    Time(u32),
    /// Of `O`: how many bytes the offer has.
    Length(usize),
    /// Of `T`: how many actions of the message were new.
    Taken(usize),
    /// Of `F`: the figure.
    Figure(i64),
    /// Of `P`: whether there is an open item.
    IsOpen(bool),
}

// The line that is printed for a command of this letter.
pub(crate) fn print(letter: char, outcome: Result<Answer, LineFault>) -> SheetLine
    requires { letter < 128 }
    ensures { sheet_bytes result ≡ printed_line letter (reply_of outcome) }
{
    match outcome {
        Ok(Answer::Time(time)) => SheetLine::new(letter, b" ", time),
        Ok(Answer::Length(length)) => SheetLine::new(letter, b" ", length),
        Ok(Answer::Taken(count)) => SheetLine::new(letter, b" ", count),
        Ok(Answer::Figure(figure)) => SheetLine::new(letter, b" ", figure),
        Ok(Answer::IsOpen(is_open)) => SheetLine::new(letter, b" ", u8::from(is_open)),
        Err(fault) => SheetLine::new(letter, b" refused ", Refusal::from(fault).number),
    }
}
