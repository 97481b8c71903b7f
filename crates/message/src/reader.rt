ghost use Rattle.std.specs.Prelude.{◌≡◌, ◌≤◌, length};
ghost use Rattle.message.specs.Checks.{Accepted, Accepts, NotBoth, Once, Refused, Unique};
ghost use Rattle.message.specs.Format.{Message, records};
ghost use Rattle.message.specs.Found.{placed};
ghost use Rattle.message.specs.Progress.{start};
ghost use Rattle.message.specs.ReadBack.{IsMessageFor, ReadsExactly};
ghost use Rattle.message.specs.Reading.{Next, is_action};
ghost use Rattle.message.specs.Scanning.{Scanned};

use crate::due::decode;
use crate::progress::Progress;
use crate::reader_fault::ReaderFault;
use crate::record::Record;
use crate::records::FoundRecord;
use action::Setup;
use kind::Kind;
use std::marker::PhantomData;

/// Reads bytes as a message for a table of one kind, record by record (docs/MESSAGES.md, section 7).
#[derive(Drop)]
pub struct Reader<'a, K: Kind> {
    setup: Setup,
    bytes: &'a [u8],
    // The offset of the record that is due.
    at: usize,
    progress: Progress,
    kind: PhantomData<K>,
    ghost within: { at ≤ length bytes.now },
}

impl<'a, K: Kind> Reader<'a, K> {
    /// Starts before the first record.
    pub fn new(setup: Setup, bytes: &'a [u8]) -> Reader<'a, K>
        ensures setup { result.setup ≡ setup }
        ensures bytes { result.bytes.now ≡ bytes.now }
        ensures at { result.at ≡ 0 }
        ensures progress { result.progress ≡ start }
        ensures reads_back { (m : Message) → IsMessageFor K.means setup bytes.now m
            → ReadsExactly K.means setup bytes.now start 0 (placed 0 (records m)) }
    {
        Reader {
            setup,
            bytes,
            at: 0,
            progress: Progress::start(),
            kind: PhantomData,
        }
    }

    /// The next record, or `None` once the bytes have ended as a whole message.
    /// After a fault it answers the same fault each time.
    pub fn next(&mut self) -> Result<Option<FoundRecord>, ReaderFault>
        ensures does { Next K.means self.old.setup self.old.progress self.old.at self.old.bytes.now result
            self.new.progress self.new.at }
        ensures setup { self.new.setup ≡ self.old.setup }
        ensures bytes { self.new.bytes.now ≡ self.old.bytes.now }
    {
        let offset = self.at;
        let decoded = decode(self.progress.due, &self.bytes[offset..]);
        let Some(record) = decoded.map_err(|fault| fault.at(offset))? else {
            return Ok(None);
        };
        let admitted = self.progress.admit::<K>(&self.setup, &record);
        admitted.map_err(|fault| fault.at(offset))?;
        self.at = offset + record.size();
        Ok(Some(FoundRecord { offset, record }))
    }
}

fn is_action(read: &Record) -> bool
    ensures { result ≡ is_action read.now }
{
    matches!(read, Record::Action(_))
}

// Reads all the bytes as one message, and answers how many actions it carries.
fn scan<K: Kind>(setup: Setup, bytes: &[u8]) -> Result<usize, ReaderFault>
    ensures { Scanned K.means setup bytes.now result }
{
    let mut reader = Reader::<K>::new(setup, bytes);
    let mut actions = 0;
    while let Some(found) = reader.next()? {
        if is_action(&found.record) {
            actions += 1;
        }
    }
    Ok(actions)
}

/// Reads all the bytes as one message for a table of this kind and set-up, and answers how many actions it carries
/// (docs/MESSAGES.md, section 7). Which site of the set-up is the own one makes no difference.
pub fn check<K: Kind>(setup: Setup, bytes: &[u8]) -> Result<usize, ReaderFault>
    ensures accepted { Accepted K.means setup bytes.now result }
    ensures accepts { Accepts K.means setup bytes.now result }
    ensures unique { Unique K.means setup bytes.now }
    ensures refused { Refused K.means setup bytes.now result }
    ensures once { Once K.means setup bytes.now }
    ensures not_both { NotBoth K.means setup bytes.now }
{
    scan::<K>(setup, bytes)
}
