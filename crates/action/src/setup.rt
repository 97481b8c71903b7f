ghost use Rattle.std.specs.Prelude.{◌≡◌, ◌<◌, ◌≤◌};

use crate::refusal::Refusal;
use std::error::Error;
use std::fmt;

/// The most sites that a group may have.
pub const MOST_SITES: usize = 8;

/// The most articles that a table may have.
pub const MOST_ARTICLES: usize = 64;

/// What a table is made for. No set-up is outside the limits of docs/RULES.md, section 6.
#[derive(Clone, Copy, Debug, PartialEq, Eq)]
pub struct Setup {
    pub group: u16,
    /// How many sites the group has.
    pub sites: u8,
    /// The site that the table belongs to; the first site is 0.
    pub own: u8,
    /// How many articles the group has.
    pub articles: u8,
    ghost some_group: { 1 ≤ group },
    ghost group_fits: { group ≤ 65535 },
    ghost two_sites: { 2 ≤ sites },
    ghost few_sites: { sites ≤ 8 },
    ghost own_site: { own < sites },
    ghost some_article: { 1 ≤ articles },
    ghost few_articles: { articles ≤ 64 },
}

impl Setup {
    ghost use Rattle.action.specs.Lawful.{Made};

    /// Takes any numbers, and answers a fault for those outside the limits.
    pub fn new(group: u32, sites: u32, own: u32, articles: u32) -> Result<Setup, UnlawfulSetup>
        ensures { Made group sites own articles result }
    {
        let (Ok(group), Ok(sites), Ok(own), Ok(articles)) = (
            u16::try_from(group),
            u8::try_from(sites),
            u8::try_from(own),
            u8::try_from(articles),
        ) else {
            return Err(UnlawfulSetup);
        };
        let lawful_sites = (2..=MOST_SITES).contains(&usize::from(sites));
        let lawful_articles = (1..=MOST_ARTICLES).contains(&usize::from(articles));
        if group < 1 || !lawful_sites || own >= sites || !lawful_articles {
            return Err(UnlawfulSetup);
        }
        Ok(Setup {
            group,
            sites,
            own,
            articles,
        })
    }
}

/// The numbers of a set-up are outside their limits: refusal 1.
#[derive(Clone, Copy, Debug, PartialEq, Eq)]
pub struct UnlawfulSetup;

impl From<UnlawfulSetup> for Refusal {
    ghost use Rattle.action.specs.Lawful.{by_table};

    ghost from_gives = { λ e r. r ≡ by_table 1 0 };

    fn from(_fault: UnlawfulSetup) -> Refusal {
        Refusal::by_table(1, 0)
    }
}

impl fmt::Display for UnlawfulSetup {
    ghost use Rattle.std.specs.Prelude.{Some};
    ghost use Rattle.action.specs.Lawful.{by_table};
    ghost use Rattle.action.specs.Words.{refusal_words};

    ghost output = { λ _. Some (refusal_words (by_table 1 0)) };

    fn fmt<W: fmt::Write>(&self, f: &mut fmt::Formatter<W>) -> fmt::Result {
        let refusal = Refusal::from(*self);
        write!(f, "{refusal}")
    }
}

impl Error for UnlawfulSetup {}
