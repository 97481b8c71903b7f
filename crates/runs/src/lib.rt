//! The laws of whole runs: what holds of one group's tables after any calls, in any order, at any of its
//! sites, where messages are taken late, often, in any order or never.
#![tactic(auto)]

ghost use Rattle.runs.specs.Laws.{Believed, Counted, Entered, GoneOn, Learned, Level, NoneAhead, Repeated, Truthful};

use kind::Kind;

/// The laws of whole runs, one clause for each (docs/LAWS.md, section 4). The call does nothing. A program makes
/// it so that the laws stand in the contract of one of its calls.
pub fn each_movement_counted_once<K: Kind>()
    // Each site's figures count every committed movement that the site has, each exactly once. The site that
    // committed a movement has it.
    ensures counted { Counted K.means }

    // Where an article is an open item nowhere, its figure at every site is that of all movements committed on
    // it, each counted once.
    ensures level { Level K.means }

    // A message taken again changes nothing.
    ensures repeated { Repeated K.means }

    // No table believes that a site has more than that site's own table shows.
    ensures believed { Believed K.means }

    // No site has more movements of another site than that other site itself.
    ensures none_ahead { NoneAhead K.means }

    // A message names the site that wrote it, it carries exactly the committed movements in its intervals, and
    // its sender has what the intervals say.
    ensures truthful { Truthful K.means }

    // Of a message that it took, a table knows that the sender and its own site have what the intervals say.
    ensures learned { Learned K.means }

    // The book of the run (docs/LAWS.md, section 3) enters of each message that a site took what its intervals
    // say.
    ensures entered { Entered K.means }

    // A run that goes on is a run, so that all these laws hold at its end too; and a run goes on from each of its
    // beginnings.
    ensures gone_on { GoneOn K.means }
{}
