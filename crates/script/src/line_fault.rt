ghost use Rattle.std.specs.Prelude.{◌≡◌};
ghost use Rattle.script.specs.Faults.{shown};
ghost use Rattle.script.specs.declared.line_fault.LineFault.TheVariants.{Table as Carried};

use action::Refusal;
use std::error::Error;
use std::fmt;
use table::TableFault;

/// Why a line of a script was refused.
#[derive(Clone, Copy, Debug, PartialEq, Eq)]
pub enum LineFault {
    /// Refusal 18, at the line's number, the first line being 0.
    NoKnownForm(usize),
    /// A refusal by the table of the acting site.
    Table(TableFault),
}

impl From<TableFault> for LineFault {
    ghost from_gives = { λ e r. r ≡ Carried e };

    fn from(fault: TableFault) -> LineFault {
        LineFault::Table(fault)
    }
}

impl From<LineFault> for Refusal {
    ghost from_gives = { λ e r. r ≡ shown e };

    fn from(fault: LineFault) -> Refusal {
        match fault {
            LineFault::NoKnownForm(line) => Refusal::by_table(18, line),
            LineFault::Table(fault) => fault.into(),
        }
    }
}

impl fmt::Display for LineFault {
    ghost use Rattle.std.specs.Prelude.{Some};
    ghost use Rattle.action.specs.Words.{refusal_words};

    ghost output = { λ e. Some (refusal_words (shown e)) };

    fn fmt<W: fmt::Write>(&self, f: &mut fmt::Formatter<W>) -> fmt::Result {
        let refusal = Refusal::from(*self);
        write!(f, "{refusal}")
    }
}

impl Error for LineFault {}
