// Rows: a table of spoilt rows, one or two for each rule, and rows that open.
use super::plans::four_depths;
use books::book::{Outward, TwoWay};
use rows::rows::{Listed, Rows};
use std::array;
use std::process::Abort;
use std::test::Fail;
use visits::figures::measure;

// Rows that break a rule.
#[derive(Clone, Copy)]
struct Handed {
    out: Listed<'static>,
    into: Listed<'static>,
}

const fn spoilt(
    out_starts: &'static [u16],
    out_ends: &'static [u16],
    in_starts: &'static [u16],
    in_ends: &'static [u16],
) -> Handed {
    Handed {
        out: Listed {
            starts: out_starts,
            ends: out_ends,
        },
        into: Listed {
            starts: in_starts,
            ends: in_ends,
        },
    }
}

fn table() -> [Handed; 17] {
    [
        // no starts at all
        spoilt(&[], &[], &[], &[]),
        // starts for no closure
        spoilt(&[0], &[], &[0], &[]),
        // outgoing starts that are too many
        spoilt(&[0, 0, 0], &[], &[0, 0], &[]),
        // outgoing starts that begin past 0
        spoilt(&[1, 1], &[0], &[0, 0], &[]),
        // incoming starts that begin past 0
        spoilt(&[0, 0], &[], &[1, 1], &[0]),
        // 1,025 closures
        spoilt(&[0; 1026], &[], &[0; 1026], &[]),
        // a last start past 4,096
        spoilt(&[0, 4097], &[0; 4097], &[0, 4097], &[0; 4097]),
        // incoming starts that are too many
        spoilt(&[0, 0], &[], &[0, 0, 0], &[]),
        // incoming starts that fall
        spoilt(&[0, 1, 1], &[0], &[0, 1, 0], &[0]),
        // outgoing starts that fall
        spoilt(&[0, 1, 0], &[0], &[0, 1, 1], &[0]),
        // a last start past the outgoing ends
        spoilt(&[0, 1], &[], &[0, 1], &[0]),
        // a last start past the incoming ends
        spoilt(&[0, 1], &[0], &[0, 1], &[]),
        // an outgoing end that is no closure
        spoilt(&[0, 1], &[1], &[0, 1], &[0]),
        // an incoming end that is no closure
        spoilt(&[0, 1], &[0], &[0, 1], &[1]),
        // a span that is only outgoing
        spoilt(&[0, 1, 1], &[1], &[0, 0, 0], &[]),
        // a span that is only incoming
        spoilt(&[0, 0, 0], &[], &[0, 0, 1], &[0]),
        // a span the other way round
        spoilt(&[0, 1, 1], &[1], &[0, 1, 1], &[1]),
    ]
}

// The plan 0→1→2→0 and 2→3, with an end beyond those in use on either side.
fn ring(rt: &impl Abort) -> Rows {
    let mut rows = Rows::new();
    let out = Listed {
        starts: &[0, 1, 2, 4, 4],
        ends: &[1, 2, 0, 3, 9],
    };
    let into = Listed {
        starts: &[0, 1, 2, 3, 4],
        ends: &[2, 0, 1, 2, 65535],
    };
    assert_eq!(rt; rows.open(out, into), Ok(()));
    rows
}

#[test]
fn spoilt_rows_are_refused(rt: HostRuntime) -> Result<(), Fail> {
    for case in table() {
        let mut rows = ring(&rt);
        let Err(fault) = rows.open(case.out, case.into) else {
            return Err(Fail::new("opened"));
        };
        assert_eq!(rt; fault.number(), 14);
        assert_eq!(rt; fault.place(), 0);
        assert_eq!(rt; rows.n(), 4);
        assert_eq!(rt; rows.out_slot(2, 1), Some(3));
    }
    Ok(())
}

#[test]
fn new_rows_are_one_closure(rt: HostRuntime) {
    let rows = Rows::new();
    assert_eq!(rt; rows.n(), 1);
    assert_eq!(rt; rows.out_slots(0), 0);
    assert_eq!(rt; rows.in_slots(0), 0);
}

#[test]
fn rows_are_read_and_measured(rt: HostRuntime) {
    let rows = ring(&rt);
    assert_eq!(rt; rows.out_slots(2), 2);
    assert_eq!(rt; rows.out_slot(2, 0), Some(0));
    assert_eq!(rt; rows.out_slot(2, 2), None);
    assert_eq!(rt; rows.out_slots(4), 0);
    assert_eq!(rt; rows.in_slot(3, 0), Some(2));
    let figures = measure(&rows);
    assert_eq!(rt; four_depths(&figures), ([3, 2, 2, 0], [2, 2, 2, 3]));
}

// The listings agree as sets: a span may be listed more often on one side.
#[test]
fn parallel_spans_may_be_listed_once(rt: HostRuntime) {
    let mut rows = Rows::new();
    let out = Listed {
        starts: &[0, 2],
        ends: &[0, 0],
    };
    let into = Listed {
        starts: &[0, 1],
        ends: &[0],
    };
    assert_eq!(rt; rows.open(out, into), Ok(()));
    assert_eq!(rt; rows.out_slots(0), 2);
    assert_eq!(rt; rows.in_slots(0), 1);
}

#[test]
fn the_largest_rows(rt: HostRuntime) {
    // every closure leads to itself, four times
    let starts: [u16; 1025] = array::from_fn(|u| 4 * u as u16);
    let ends: [u16; 4096] = array::from_fn(|k| k as u16 / 4);
    let loops = Listed {
        starts: &starts,
        ends: &ends,
    };
    let mut rows = Rows::new();
    assert_eq!(rt; rows.open(loops, loops), Ok(()));
    assert_eq!(rt; rows.n(), 1024);
    assert_eq!(rt; rows.out_slots(1023), 4);
    assert_eq!(rt; rows.out_slot(1023, 3), Some(1023));
    let full = Listed {
        starts: &[0, 4096],
        ends: &[0; 4097],
    };
    assert_eq!(rt; rows.open(full, full), Ok(()));
    assert_eq!(rt; rows.n(), 1);
    assert_eq!(rt; rows.out_slots(0), 4096);
}
