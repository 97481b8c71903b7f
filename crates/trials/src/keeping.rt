use crate::no_job::NoJob;
use std::str::FromStr;

/// How a history is kept, by its name: `rack` or `strip`.
#[derive(Clone, Copy)]
pub enum Keeping {
    Rack,
    Strip,
}

impl FromStr for Keeping {
    type Err = NoJob;

    fn from_str(word: &str) -> Result<Keeping, NoJob> {
        match word {
            "rack" => Ok(Keeping::Rack),
            "strip" => Ok(Keeping::Strip),
            _ => Err(NoJob),
        }
    }
}
