// Visits and figures of small plans.
use super::plans::ring;
use books::fault::Fault;
use logs::log::Log;
use logs::span::Span;
use logs::write::write_and_open;
use std::test::Fail;
use visits::figures::{Depths, LongestRun, measure};
use visits::visit::{FAR, in_visit, out_visit};

#[test]
fn the_ring_is_visited(rt: HostRuntime) -> Result<(), Fail> {
    let log = ring(&rt);
    let Ok(visit) = out_visit(&log, 1) else {
        return Err(Fail::new("refused"));
    };
    assert_eq!(rt; visit.depth, 2);
    assert_eq!(rt; visit.farthest(), Some(0));
    assert_eq!(rt; visit.distances[0], 2);
    assert_eq!(rt; visit.distances[1], 0);
    assert_eq!(rt; visit.distances[2], 1);
    assert_eq!(rt; visit.distances[3], 2);
    assert_eq!(rt; visit.distances[4], FAR);
    assert_eq!(rt; visit.distances[1023], FAR);
    let Ok(visit) = in_visit(&log, 0) else {
        return Err(Fail::new("refused"));
    };
    assert_eq!(rt; visit.depth, 2);
    assert_eq!(rt; visit.distances[1], 2);
    assert_eq!(rt; visit.distances[3], FAR);
    Ok(())
}

#[test]
fn a_number_that_is_no_closure_is_refused(rt: HostRuntime) {
    let log = ring(&rt);
    assert_eq!(rt; out_visit(&log, 4), Err(Fault::NoClosure));
    assert_eq!(rt; in_visit(&log, 65535), Err(Fault::NoClosure));
}

#[test]
fn the_ring_is_measured(rt: HostRuntime) {
    let figures = measure(&ring(&rt));
    assert_eq!(rt; figures.depths[0], Depths { out: 3, into: 2 });
    assert_eq!(rt; figures.depths[3], Depths { out: 0, into: 3 });
    assert_eq!(rt; figures.depths[4], Depths { out: 0, into: 0 });
    let longest = LongestRun {
        length: 3,
        from: 0,
        to: 3,
    };
    assert_eq!(rt; figures.longest, longest);
}

// A depth-first walk would find closure 2 after two spans.
#[test]
fn a_shortcut_is_taken(rt: HostRuntime) -> Result<(), Fail> {
    let mut log = Log::new();
    let spans = [Span::new(0, 2), Span::new(1, 2), Span::new(0, 1)];
    assert_eq!(rt; write_and_open(&mut log, 3, &spans, &mut [0; 64]), Ok(40));
    let Ok(visit) = out_visit(&log, 0) else {
        return Err(Fail::new("refused"));
    };
    assert_eq!(rt; visit.distances[2], 1);
    Ok(())
}
