// What no contract can say: that racks, strips and desks are made where there is memory for them, and that the
// library answers and prints what docs/REFUSALS.md and docs/MESSAGES.md say.
use action::{ACTION_BYTES, Action, Layer, Refusal, Setup, UnlawfulSetup};
use history::{History, HistoryFault, PLACE_BYTES, Rack, Strip};
use kind::OnHand;
use message::{
    HEADER_BYTES, Header, INTERVAL_BYTES, Interval, Reader, ReaderFault, Record, SECTION_BYTES,
    SectionHead, check,
};
use script::{Desk, LineFault};
use std::test::Fail;
use table::{Table, TableFault};

// How many places each history has.
const PLACES: usize = 64;

// How many bytes a message of one action has.
const MESSAGE_BYTES: usize = HEADER_BYTES + SECTION_BYTES + INTERVAL_BYTES + ACTION_BYTES;

// The first message of docs/MESSAGES.md, section 6: of group 1, on hand, by site 0. It has one interval, from 0 to
// 1, and one action, which adds 1000 to article 0.
const POSTED: [u8; MESSAGE_BYTES] = [
    b'H', 0, 1, 1, 0, 1, b'S', 0, 1, 0, 1, b'I', 0, 0, 0, 0, 0, 0, 0, 0, 1, b'A', 0, 0, 0, 0, 1, 0,
    0, 0, 1, 0, 1, 0x00, 0x00, 0x03, 0xe8,
];

// The same message with an amount of 1,000,001, which is too large for on hand.
const TOO_LARGE: [u8; MESSAGE_BYTES] = [
    b'H', 0, 1, 1, 0, 1, b'S', 0, 1, 0, 1, b'I', 0, 0, 0, 0, 0, 0, 0, 0, 1, b'A', 0, 0, 0, 0, 1, 0,
    0, 0, 1, 0, 1, 0x00, 0x0f, 0x42, 0x41,
];

// What the refusals by these numbers print at place 21. Number 19 is not known.
const SENTENCES: [(u8, &str); 19] = [
    (1, "refused by 1: the set-up is outside its limits"),
    (2, "refused by 2: a transaction is open"),
    (3, "refused by 3: no open transaction fits the ticket"),
    (4, "refused by 4: there is no such article"),
    (5, "refused by 5: there is no such site"),
    (6, "refused by 6: the kind does not know this pair"),
    (7, "refused by 7: the transaction is full, it has 16 writes"),
    (8, "refused by 8: the time would be above 4,000,000,000"),
    (
        9,
        "refused by 9: the record at byte 21 is cut off or not the one due",
    ),
    (10, "refused by 10: the message is of another group or kind"),
    (
        11,
        "refused by 11: the record at byte 21 breaks a field rule",
    ),
    (
        12,
        "refused by 12: the message ends before byte 21, where more follows",
    ),
    (
        13,
        "refused by 13: the interval at byte 21 begins above what this table has",
    ),
    (
        14,
        "refused by 14: the interval at byte 21 goes beyond this site's own actions",
    ),
    (
        15,
        "refused by 15: the buffer is too short, the offer has 21 bytes",
    ),
    (
        16,
        "refused by 16: the history has no room, its capacity is 21",
    ),
    (17, "refused by 17: the history has no place 21"),
    (18, "refused by 18: line 21 has no known form"),
    (19, "refused by 19"),
];

// Site 0 of three sites of group 1, with four articles.
fn setup() -> Result<Setup, Fail> {
    Ok(Setup::new(1, 3, 0, 4)?)
}

#[test]
fn histories_are_made(rt: HostRuntime) -> Result<(), Fail> {
    let rack = Rack::new(rt.alloc(), PLACES)?;
    assert_eq!(rt; (rack.count(), rack.capacity()), (0, PLACES));
    let strip = Strip::new(vec![in rt.alloc(); 0; PLACES * PLACE_BYTES]?);
    assert_eq!(rt; (strip.count(), strip.capacity()), (0, PLACES));
    Ok(())
}

#[test]
fn desk_is_made(rt: HostRuntime) -> Result<(), Fail> {
    let mut desk = Desk::<OnHand>::new(rt.alloc())?;
    let (_, sheet) = desk.run(0, b"F00");
    assert_eq!(rt; sheet.as_slice(), b"F 0\n".as_slice());
    Ok(())
}

#[test]
fn records_are_read_one_by_one(rt: HostRuntime) -> Result<(), Fail> {
    let records = [
        (
            0,
            Record::Header(Header {
                group: 1,
                kind: 1,
                sender: 0,
                sections: 1,
            }),
        ),
        (
            6,
            Record::Section(SectionHead {
                article: 0,
                intervals: 1,
                actions: 1,
            }),
        ),
        (
            11,
            Record::Interval(Interval {
                site: 0,
                from: 0,
                to: 1,
            }),
        ),
        (
            21,
            Record::Action(Action {
                coordinator: 0,
                time: 1,
                transaction: 1,
                article: 0,
                operation: 1,
                amount: 1000,
            }),
        ),
    ];
    let mut reader = Reader::<OnHand>::new(setup()?, &POSTED);
    for (offset, record) in records {
        let found = reader.next()?.map(|found| (found.offset, found.record));
        assert_eq!(rt; found, Some((offset, record)));
    }
    for _ in 0..2 {
        assert!(rt; reader.next()?.is_none());
    }
    Ok(())
}

#[test]
fn reader_stays_at_a_fault(rt: HostRuntime) -> Result<(), Fail> {
    let mut reader = Reader::<OnHand>::new(setup()?, &TOO_LARGE);
    for offset in [0, 6, 11] {
        assert_eq!(rt; reader.next()?.map(|found| found.offset), Some(offset));
    }
    for _ in 0..2 {
        let offset = reader.next().map(|found| found.map(|found| found.offset));
        assert_eq!(rt; offset, Err(ReaderFault::Broken(21)));
    }
    Ok(())
}

#[test]
fn no_bytes_are_refused_at_their_start(rt: HostRuntime) -> Result<(), Fail> {
    let mut table = Table::<OnHand, Rack>::new(setup()?, Rack::new(rt.alloc(), PLACES)?);
    let refusal = Refusal {
        number: 9,
        place: 0,
        layer: Layer::Reader,
    };
    assert_eq!(rt; table.take(&[]).map_err(Refusal::from), Err(refusal));
    assert_eq!(rt;
        check::<OnHand>(setup()?, &[]).map_err(Refusal::from),
        Err(refusal)
    );
    Ok(())
}

#[test]
fn amount_too_large_is_refused(rt: HostRuntime) -> Result<(), Fail> {
    let mut table = Table::<OnHand, Rack>::new(setup()?, Rack::new(rt.alloc(), PLACES)?);
    let ticket = table.open()?;
    let written = table.write(&ticket, 0, OnHand::ADD, 1_000_001);
    table.abandon(ticket).unwrap();
    assert_eq!(rt;
        written.map_err(Refusal::from),
        Err(Refusal {
            number: 6,
            place: 0,
            layer: Layer::Table,
        })
    );
    assert_eq!(rt;
        table.take(&TOO_LARGE).map_err(Refusal::from),
        Err(Refusal {
            number: 11,
            place: 21,
            layer: Layer::Reader,
        })
    );
    Ok(())
}

#[test]
fn refusals_print_their_sentences(rt: HostRuntime) -> Result<(), Fail> {
    for (number, sentence) in SENTENCES {
        let text = Refusal::by_table(number, 21).to_string(rt.alloc())?;
        assert_eq!(rt; text.as_str(), sentence);
    }
    Ok(())
}

#[test]
fn faults_print_what_their_refusals_print(rt: HostRuntime) -> Result<(), Fail> {
    let alloc = rt.alloc();
    let texts = [
        (
            UnlawfulSetup.to_string(alloc)?,
            "refused by 1: the set-up is outside its limits",
        ),
        (
            ReaderFault::Cut(0).to_string(alloc)?,
            "refused by 9: the record at byte 0 is cut off or not the one due",
        ),
        (
            HistoryFault::Full(64).to_string(alloc)?,
            "refused by 16: the history has no room, its capacity is 64",
        ),
        (
            TableFault::Short(57).to_string(alloc)?,
            "refused by 15: the buffer is too short, the offer has 57 bytes",
        ),
        (
            TableFault::InHistory(HistoryFault::Full(64)).to_string(alloc)?,
            "refused by 16: the history has no room, its capacity is 64",
        ),
        (
            LineFault::NoKnownForm(2).to_string(alloc)?,
            "refused by 18: line 2 has no known form",
        ),
        (
            LineFault::Table(TableFault::NoSite).to_string(alloc)?,
            "refused by 5: there is no such site",
        ),
    ];
    for (text, sentence) in texts {
        assert_eq!(rt; text.as_str(), sentence);
    }
    Ok(())
}
