//! Records of derivation files, worked out by hand.
use crate::reader::{RecordFault, Records};
use crate::rec::Rec;
use std::test::Fail;

// The header, `*`, `box`, `* : box` as a node, and the end.
const EMPTY: [u8; 17] = [
    0x4c, 0x44, 0x44, 0x45, 0x52, 0x49, 0x56, 0x31, 0x01, 0x02, 0x30, 0, 0, 0, 1, 0x60, 0,
];

// How many of the first six records are read, and what comes behind them.
fn read(bytes: &[u8]) -> (u32, Result<(), RecordFault>) {
    let mut records = match Records::new(bytes) {
        Ok(records) => records,
        Err(fault) => return (0, Err(fault)),
    };
    for count in 0..6 {
        match records.next() {
            Ok(Some(_)) => {}
            Ok(None) => return (count, Ok(())),
            Err(fault) => return (count, Err(fault)),
        }
    }
    (6, Ok(()))
}

// The tag of the next record, its number in the fourth place, and whether it has no name.
fn next_record(records: &mut Records<'_>) -> Result<Option<(u8, Option<u64>, bool)>, RecordFault> {
    let Some(rec) = records.next()? else {
        return Ok(None);
    };
    Ok(Some((rec.tag(), rec.number(3), rec.name().is_empty())))
}

#[test]
fn reads_the_empty_book(rt: HostRuntime) -> Result<(), Fail> {
    let mut records = Records::new(&EMPTY)?;
    let wanted = [
        Some((0x01, None, true)),
        Some((0x02, None, true)),
        Some((0x30, Some(1), true)),
        Some((0x60, None, true)),
        None,
        None,
    ];
    for record in wanted {
        assert_eq!(rt; next_record(&mut records), Ok(record));
    }
    Ok(())
}

#[test]
fn tells_where_a_file_is_cut(rt: HostRuntime) -> Result<(), Fail> {
    let wanted = [
        (7, 0, RecordFault::Malformed(0)),
        (8, 0, RecordFault::Unfinished),
        (9, 1, RecordFault::Unfinished),
        (10, 2, RecordFault::Unfinished),
        (11, 2, RecordFault::Malformed(10)),
        (14, 2, RecordFault::Malformed(10)),
        (15, 3, RecordFault::Unfinished),
        (16, 3, RecordFault::Malformed(15)),
    ];
    for (length, count, fault) in wanted {
        let (front, _) = EMPTY.split_at(length);
        assert_eq!(rt; read(front), (count, Err(fault)));
    }
    assert_eq!(rt; read(&EMPTY), (4, Ok(())));
    Ok(())
}

// The header, an instance, an entry and a variable.
const MIXED: [u8; 30] = [
    0x4c, 0x44, 0x44, 0x45, 0x52, 0x49, 0x56, 0x31, 0x07, 0xac, 0x02, 2, 0, 0x7f, 0x40, 2, b'a',
    0xff, 5, 0x03, 0xff, 0xff, 0xff, 0xff, 0xff, 0xff, 0xff, 0xff, 0xff, 1,
];

// The record behind so many others.
fn record_behind(bytes: &[u8], others: usize) -> Result<Option<Rec<'_>>, RecordFault> {
    let mut records = Records::new(bytes)?;
    for _ in 0..others {
        records.next()?;
    }
    records.next()
}

#[test]
fn reads_the_numbers_of_an_instance(rt: HostRuntime) -> Result<(), Fail> {
    let instance = record_behind(&MIXED, 0)?.expect(&rt, "an instance");
    let mut numbers = instance.numbers();
    for wanted in [Some(300), Some(2), Some(0), Some(127), None, None] {
        assert_eq!(rt; numbers.next(), wanted);
    }
    Ok(())
}

#[test]
fn reads_the_name_of_an_entry(rt: HostRuntime) -> Result<(), Fail> {
    let entry = record_behind(&MIXED, 1)?.expect(&rt, "an entry");
    assert_eq!(rt; entry.name(), [b'a', 0xff].as_slice());
    let numbers = (entry.number(0), entry.number(1), entry.number(2));
    assert_eq!(rt; numbers, (Some(2), Some(5), None));
    Ok(())
}

#[test]
fn reads_the_greatest_number(rt: HostRuntime) -> Result<(), Fail> {
    let variable = record_behind(&MIXED, 2)?.expect(&rt, "a variable");
    assert_eq!(rt; variable.number(0), Some(0xffff_ffff_ffff_ffff));
    Ok(())
}

// Bytes that may not follow the header.
#[test]
fn refuses_what_spells_no_record(rt: HostRuntime) -> Result<(), Fail> {
    let refused = [
        // a tag that no record has
        [0x00, 0, 0, 0, 0, 0, 0, 0, 0, 0, 0, 0],
        // not in the least number of bytes
        [0x03, 0x80, 0, 0, 0, 0, 0, 0, 0, 0, 0, 0],
        // not below 2^64
        [
            0x03, 0xff, 0xff, 0xff, 0xff, 0xff, 0xff, 0xff, 0xff, 0xff, 2, 0,
        ],
        // more arguments than there are numbers
        [
            0x07, 0, 0xff, 0xff, 0xff, 0xff, 0xff, 0xff, 0xff, 0xff, 0x7f, 0,
        ],
        // a name that is cut short
        [
            0x41, 0xff, 0xff, 0xff, 0xff, 0xff, 0xff, 0xff, 0xff, 0xff, 1, 0,
        ],
        // bytes behind the end
        [0x60, 0, 0x60, 0, 0, 0, 0, 0, 0, 0, 0, 0],
    ];
    for (i, record) in refused.iter().enumerate() {
        let mut bytes = [0; 20];
        let (header, rest) = bytes.split_at_mut(8);
        header.copy_from_slice(crate::header());
        rest.copy_from_slice(record);
        let wanted = if i == 5 {
            (1, Err(RecordFault::Malformed(10)))
        } else {
            (0, Err(RecordFault::Malformed(8)))
        };
        assert_eq!(rt; read(&bytes), wanted);
    }
    Ok(())
}
