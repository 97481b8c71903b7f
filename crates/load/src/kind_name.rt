use std::str::FromStr;
use trials::NoJob;

/// The kind of all tables of a job, by its name.
#[derive(Clone, Copy)]
pub enum KindName {
    OnHand,
    Flags,
    Price,
}

impl FromStr for KindName {
    type Err = NoJob;

    fn from_str(word: &str) -> Result<KindName, NoJob> {
        match word {
            "on-hand" => Ok(KindName::OnHand),
            "flags" => Ok(KindName::Flags),
            "price" => Ok(KindName::Price),
            _ => Err(NoJob),
        }
    }
}
