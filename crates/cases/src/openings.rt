// Opening: a table of damaged logs, the largest sizes, and what an opened log tells.
use super::plans::ONE_SPAN;
use books::book::{Outward, TwoWay};
use logs::log::Log;
use logs::span::Span;
use std::test::Fail;

// A log that is refused, and by what.
#[derive(Clone, Copy)]
struct Case {
    bytes: &'static [u8],
    number: u8,
    place: usize,
}

const fn damaged(bytes: &'static [u8], number: u8, place: usize) -> Case {
    Case {
        bytes,
        number,
        place,
    }
}

// One or more damaged logs for each refusal.
fn table() -> [Case; 24] {
    [
        // nothing at all
        damaged(b"", 1, 0),
        // three bytes
        damaged(b"\x02\0\x01", 1, 0),
        // no closures
        damaged(b"\0\0\0\0", 2, 0),
        // 1,025 closures
        damaged(b"\x01\x04\0\0", 2, 0),
        // no closures and too many records
        damaged(b"\0\0\xff\xff", 2, 0),
        // 4,097 records
        damaged(b"\x01\0\x01\x10", 3, 0),
        // too short
        damaged(b"\x01\0\0\0", 4, 0),
        // a byte too long
        damaged(b"\x01\0\0\0\0\0\0\0\0", 4, 0),
        // a head, but no records
        damaged(b"\x01\0\0\0\x01\0\0\0", 5, 4),
        // an arriving head, but no records
        damaged(b"\x01\0\0\0\0\0\0\x01", 5, 6),
        // a head above m
        damaged(b"\x02\0\x01\0\x02\0\0\0\0\0\x01\0\0\0\x01\0\0\0\0\0", 5, 4),
        // a from that is no closure
        damaged(
            b"\x02\0\x01\0\x01\0\0\0\0\0\x01\0\x02\0\x01\0\0\0\0\0",
            5,
            12,
        ),
        // a to that is no closure
        damaged(b"\x02\0\x01\0\x01\0\0\0\0\0\x01\0\0\0\0\x01\0\0\0\0", 5, 14),
        // a next leaving record that is the record itself
        damaged(
            b"\x02\0\x01\0\x01\0\0\0\0\0\x01\0\0\0\x01\0\x01\0\0\0",
            5,
            16,
        ),
        // a next arriving record that is the record itself
        damaged(
            b"\x02\0\x01\0\x01\0\0\0\0\0\x01\0\0\0\x01\0\0\0\x01\0",
            5,
            18,
        ),
        // two wrong words: the first counts
        damaged(
            b"\x02\0\x01\0\x01\0\0\0\0\0\x01\0\x02\0\x02\0\0\0\0\0",
            5,
            12,
        ),
        // a wrong word behind a foreign head: 5 before 6
        damaged(
            b"\x02\0\x01\0\x01\0\0\0\0\0\x01\0\x01\0\x01\0\0\0\x01\0",
            5,
            18,
        ),
        // a leaving head to a record of another closure
        damaged(
            b"\x02\0\x01\0\x01\0\0\0\0\0\x01\0\x01\0\x01\0\0\0\0\0",
            6,
            4,
        ),
        // an arriving head to a record of another closure
        damaged(b"\x02\0\x01\0\x01\0\0\0\0\0\x01\0\0\0\0\0\0\0\0\0", 6, 10),
        // foreign heads on both sides: leaving ones first, though they stand behind
        damaged(
            b"\x02\0\x01\0\x01\0\x01\0\x01\0\x01\0\0\0\x01\0\0\0\0\0",
            6,
            8,
        ),
        // a next link to a record of another closure
        damaged(
            b"\x02\0\x02\0\x02\0\0\0\x01\0\x02\0\x01\0\x01\0\0\0\0\0\0\0\x01\0\x01\0\x01\0",
            6,
            24,
        ),
        // a record in no leaving chain
        damaged(b"\x02\0\x01\0\0\0\0\0\0\0\x01\0\0\0\x01\0\0\0\0\0", 7, 12),
        // a record in no arriving chain
        damaged(b"\x02\0\x01\0\x01\0\0\0\0\0\0\0\0\0\x01\0\0\0\0\0", 7, 12),
        // a bad link that no walk meets
        damaged(
            b"\x02\0\x02\0\0\0\0\0\0\0\0\0\0\0\0\0\0\0\0\0\0\0\x01\0\0\0\x01\0",
            7,
            12,
        ),
    ]
}

#[test]
fn damaged_logs_are_refused(rt: HostRuntime) -> Result<(), Fail> {
    for case in table() {
        let mut log = Log::new();
        let Err(fault) = log.open(case.bytes) else {
            return Err(Fail::new("opened"));
        };
        assert_eq!(rt; fault.number(), case.number);
        assert_eq!(rt; fault.place(), case.place);
        assert_eq!(rt; log.n(), 1);
        assert_eq!(rt; log.m(), 0);
    }
    Ok(())
}

#[test]
fn a_log_tells_its_records_and_slots(rt: HostRuntime) {
    let mut log = Log::new();
    assert!(rt; log.open(ONE_SPAN).is_ok());
    assert_eq!(rt; log.n(), 2);
    assert_eq!(rt; log.m(), 1);
    assert_eq!(rt; log.record(0), None);
    assert_eq!(rt; log.record(1), Some(Span { from: 0, to: 1 }));
    assert_eq!(rt; log.record(2), None);
    assert_eq!(rt; log.out_slots(0), 1);
    assert_eq!(rt; log.out_slot(0, 0), Some(1));
    assert_eq!(rt; log.out_slot(0, 1), None);
    assert_eq!(rt; log.out_slots(2), 0);
    assert_eq!(rt; log.in_slots(1), 1);
    assert_eq!(rt; log.in_slot(1, 0), Some(0));
}

#[test]
fn a_refusal_leaves_the_log(rt: HostRuntime) {
    let mut log = Log::new();
    assert!(rt;
        log.open(&[3, 0, 0, 0, 0, 0, 0, 0, 0, 0, 0, 0, 0, 0, 0, 0])
            .is_ok()
    );
    assert!(rt; log.open(&[2, 0]).is_err());
    assert_eq!(rt; log.n(), 3);
}
