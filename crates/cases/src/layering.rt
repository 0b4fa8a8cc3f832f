// Layers over books: turned plans, shut plans, and both over one another.
ghost use Rattle.std.specs.Prelude.{◌≡◌};

use super::plans::{four_depths, ring};
use books::book::{Outward, TwoWay};
use books::fault::Fault;
use layers::shut::Shut;
use layers::turned::Turned;
use visits::figures::measure;
use visits::visit::{Visit, in_visit, out_visit};

// The in-visit of a closure, and the out-visit over the turned plan: for every book they are equal.
fn visits_both_ways<B: TwoWay + Drop>(
    book: B,
    start: u16,
) -> (Result<Visit, Fault>, Result<Visit, Fault>)
    ensures { result.0 ≡ result.1 }
{
    let into = in_visit(&book, start);
    let out = out_visit(&Turned::over(book), start);
    (into, out)
}

#[test]
fn an_in_visit_is_an_out_visit_of_the_turned_plan(rt: HostRuntime) {
    for u in 0..4 {
        let (into, out) = visits_both_ways(ring(&rt), u);
        assert!(rt; into.is_ok());
        assert_eq!(rt; into, out);
    }
    let (into, out) = visits_both_ways(ring(&rt), 4);
    assert!(rt; into.is_err());
    assert_eq!(rt; into, out);
}

#[test]
fn closures_are_shut_and_reopened(rt: HostRuntime) {
    let mut plan = Shut::over(ring(&rt));
    assert!(rt; !plan.is_shut(2));
    assert!(rt; !plan.is_shut(65535));
    assert_eq!(rt; plan.shut(4), Err(Fault::NoClosure));
    assert_eq!(rt; plan.reopen(65535), Err(Fault::NoClosure));
    assert_eq!(rt; plan.shut(2), Ok(()));
    assert_eq!(rt; plan.shut(2), Ok(()));
    assert!(rt; plan.is_shut(2));
    assert!(rt; !plan.is_shut(4));
    assert_eq!(rt; plan.n(), 4);
    // the slots of 2 stay and are empty, and so is the slot of 1, which held 2
    assert_eq!(rt; plan.out_slots(2), 2);
    assert_eq!(rt; plan.out_slot(2, 0), None);
    assert_eq!(rt; plan.out_slots(1), 1);
    assert_eq!(rt; plan.out_slot(1, 0), None);
    assert_eq!(rt; plan.in_slots(3), 1);
    assert_eq!(rt; plan.in_slot(3, 0), None);
    assert_eq!(rt; plan.out_slot(0, 0), Some(1));
    let figures = measure(&plan);
    assert_eq!(rt; four_depths(&figures), ([1, 0, 0, 0], [0, 1, 0, 0]));
    assert_eq!(rt; plan.reopen(3), Ok(()));
    assert_eq!(rt; plan.reopen(2), Ok(()));
    assert_eq!(rt; plan.reopen(2), Ok(()));
    assert_eq!(rt; four_depths(&measure(&plan)).0, [3, 2, 2, 0]);
}

#[test]
fn layers_three_deep(rt: HostRuntime) {
    let mut below = Shut::over(ring(&rt));
    assert_eq!(rt; below.shut(3), Ok(()));
    let mut above = Shut::over(Turned::over(below));
    assert_eq!(rt; four_depths(&measure(&above)).0, [2, 2, 2, 0]);
    assert_eq!(rt; above.shut(0), Ok(()));
    // what is left is 2→1
    let figures = measure(&above);
    assert_eq!(rt; four_depths(&figures), ([0, 0, 1, 0], [0, 1, 0, 0]));
    assert_eq!(rt; figures.longest.from, 2);
    let back = Turned::over(Turned::over(Turned::over(ring(&rt))));
    assert_eq!(rt; four_depths(&measure(&back)).0, [2, 2, 2, 3]);
}
