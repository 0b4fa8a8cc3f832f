// Drafts: refusals, the largest log, and logs written and read again.
use super::plans::ONE_SPAN;
use books::book::{Outward, TwoWay};
use books::fault::Fault;
use logs::draft::{Draft, fits};
use logs::log::Log;
use logs::span::Span;
use logs::write::{rewrite, write_and_open, write_log};

#[test]
fn fitting(rt: HostRuntime) {
    assert_eq!(rt; fits(0, &[0; 12]), Err(Fault::ClosureCount));
    assert_eq!(rt; fits(1025, &[0; 12]), Err(Fault::ClosureCount));
    assert_eq!(rt; fits(2, &[0; 11]), Err(Fault::NoRoom));
    assert_eq!(rt; fits(2, &[0; 12]), Ok(()));
}

#[test]
fn a_buffer_one_byte_short(rt: HostRuntime) {
    let mut buffer = [7; 19];
    assert_eq!(rt;
        write_log(2, &[Span::new(0, 1)], &mut buffer),
        Err(Fault::NoRoom)
    );
    assert_eq!(rt;
        &buffer[0..],
        b"\0\0\0\0\0\0\0\0\0\0\0\0\x07\x07\x07\x07\x07\x07\x07".as_slice()
    );
    let mut buffer = [7; 21];
    assert_eq!(rt; write_log(2, &[Span::new(0, 1)], &mut buffer), Ok(20));
    assert_eq!(rt; &buffer[0..20], ONE_SPAN);
    assert_eq!(rt; buffer[20], 7);
}

#[test]
fn a_draft_that_does_not_fit(rt: HostRuntime) {
    let mut buffer = [7; 7];
    let mut draft = Draft::start(1, &mut buffer);
    assert_eq!(rt; draft.add(Span::new(0, 0)), Err(Fault::NoClosure));
    assert_eq!(rt; draft.seal(), 0);
    assert_eq!(rt; buffer, [7; 7]);
}

#[test]
fn a_refused_span_changes_nothing(rt: HostRuntime) {
    let mut buffer = [7; 28];
    let mut draft = Draft::start(2, &mut buffer);
    assert_eq!(rt; draft.add(Span::new(0, 1)), Ok(()));
    assert_eq!(rt; draft.add(Span::new(0, 2)), Err(Fault::NoClosure));
    assert_eq!(rt; draft.add(Span::new(2, 0)), Err(Fault::NoClosure));
    assert_eq!(rt; draft.seal(), 20);
    assert_eq!(rt; &buffer[0..20], ONE_SPAN);
    assert_eq!(rt; &buffer[20..], [7; 8].as_slice());
}

// A number that is no closure is refused before the want of room.
#[test]
fn no_closure_before_no_room(rt: HostRuntime) {
    let mut buffer = [0; 12];
    let mut draft = Draft::start(2, &mut buffer);
    assert_eq!(rt; draft.add(Span::new(0, 2)), Err(Fault::NoClosure));
    assert_eq!(rt; draft.add(Span::new(0, 1)), Err(Fault::NoRoom));
}

#[test]
fn loops_and_parallel_spans(rt: HostRuntime) {
    let mut log = Log::new();
    let mut buffer = [0; 64];
    let spans = [
        Span::new(0, 0),
        Span::new(0, 1),
        Span::new(0, 1),
        Span::new(2, 0),
    ];
    assert_eq!(rt; write_and_open(&mut log, 3, &spans, &mut buffer), Ok(48));
    assert_eq!(rt; log.n(), 3);
    assert_eq!(rt; log.m(), 4);
    assert_eq!(rt; log.out_slots(0), 3);
    assert_eq!(rt; log.out_slot(0, 0), Some(1));
    assert_eq!(rt; log.out_slot(0, 1), Some(1));
    assert_eq!(rt; log.out_slot(0, 2), Some(0));
    assert_eq!(rt; log.in_slots(0), 2);
    assert_eq!(rt; log.in_slot(0, 0), Some(2));
    assert_eq!(rt; log.in_slot(0, 1), Some(0));
    assert_eq!(rt; rewrite(&log, &mut [0; 47]), Err(Fault::NoRoom));
    let mut afresh = [0; 64];
    assert_eq!(rt; rewrite(&log, &mut afresh), Ok(48));
    assert_eq!(rt; afresh, buffer);
}

#[test]
fn the_largest_log(rt: HostRuntime) {
    let mut buffer = [0; 36868];
    let mut draft = Draft::start(1024, &mut buffer);
    for k in 0..4096u16 {
        assert_eq!(rt; draft.add(Span::new(k % 1024, k / 4)), Ok(()));
    }
    assert_eq!(rt; draft.add(Span::new(0, 0)), Err(Fault::NoRoom));
    assert_eq!(rt; draft.seal(), 36868);
    let mut log = Log::new();
    assert!(rt; log.open(&buffer).is_ok());
    assert_eq!(rt; log.n(), 1024);
    assert_eq!(rt; log.m(), 4096);
    assert_eq!(rt; log.record(4096), Some(Span::new(1023, 1023)));
    assert_eq!(rt; log.out_slots(5), 4);
    assert_eq!(rt; log.out_slot(5, 0), Some(769));
}
