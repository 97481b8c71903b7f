ghost use Rattle.std.specs.Prelude.{◌≡◌, ◌≤◌, length};
ghost use Rattle.message.specs.Progress.{due_after};
ghost use Rattle.message.specs.Decoding.{decoded, size_of, whole};

use crate::reader_fault::UnplacedFault;
use crate::record::{Header, Interval, Record, SectionHead};
use action::Action;

// What is due next in a message.
#[derive(Clone, Copy)]
pub(crate) enum Due {
    Header,
    Section,
    Interval,
    Action,
    End,
}

// What is due where so many intervals, actions and sections are to come.
pub(crate) fn due_after(intervals: u8, actions: u16, sections: u8) -> Due
    ensures { result ≡ due_after intervals actions sections }
{
    if intervals > 0 {
        Due::Interval
    } else if actions > 0 {
        Due::Action
    } else if sections > 0 {
        Due::Section
    } else {
        Due::End
    }
}

// The record that the bytes begin with, if its kind is due; `None` where the end is due and there are no bytes.
// It is inlined, so that a record is not written to memory and read back.
#[inline(always)]
pub(crate) fn decode(due: Due, bytes: &[u8]) -> Result<Option<Record>, UnplacedFault>
    ensures value { result ≡ decoded due bytes.now }
    ensures fits { size_of (whole result) ≤ length bytes.now }
{
    let record = match (due, bytes) {
        (Due::Header, &[b'H', g1, g0, kind, sender, sections, ..]) => Record::Header(Header {
            group: u16::from_be_bytes([g1, g0]),
            kind,
            sender,
            sections,
        }),
        (Due::Section, &[b'S', article, intervals, a1, a0, ..]) => Record::Section(SectionHead {
            article,
            intervals,
            actions: u16::from_be_bytes([a1, a0]),
        }),
        (Due::Interval, &[b'I', site, f3, f2, f1, f0, t3, t2, t1, t0, ..]) => {
            Record::Interval(Interval {
                site,
                from: u32::from_be_bytes([f3, f2, f1, f0]),
                to: u32::from_be_bytes([t3, t2, t1, t0]),
            })
        }
        (
            Due::Action,
            &[
                b'A',
                coordinator,
                t3,
                t2,
                t1,
                t0,
                n3,
                n2,
                n1,
                n0,
                article,
                operation,
                a3,
                a2,
                a1,
                a0,
                ..
            ],
        ) => Record::Action(Action {
            coordinator,
            time: u32::from_be_bytes([t3, t2, t1, t0]),
            transaction: u32::from_be_bytes([n3, n2, n1, n0]),
            article,
            operation,
            amount: i32::from_be_bytes([a3, a2, a1, a0]),
        }),
        (Due::End, []) => return Ok(None),
        (Due::End, _) => return Err(UnplacedFault::Trailing),
        _ => return Err(UnplacedFault::Cut),
    };
    Ok(Some(record))
}
