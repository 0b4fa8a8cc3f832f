// What the program prints of a log and its plan.
use super::request::Request;
use super::stop::Stop;
use books::book::{Outward, TwoWay};
use books::fault::Fault;
use layers::shut::Shut;
use layers::turned::Turned;
use logs::log::Log;
use logs::write::rewrite;
use std::alloc::Global;
use std::io;
use std::io::Write;
use visits::figures::{Depths, Figures, LongestRun, measure};

// A line for each closure, and one for the longest run.
fn print_figures(out: &mut impl Write, n: u16, figures: &Figures) -> io::Result<()> {
    for (u, depths) in figures.depths.iter().enumerate().take(usize::from(n)) {
        let Depths { out: outward, into } = *depths;
        writeln!(out, "closure {u} out {outward} in {into}")?;
    }
    let LongestRun { length, from, to } = figures.longest;
    writeln!(out, "diameter {length} from {from} to {to}")
}

// The figures of a plan, or of the turned one.
fn print_plan<B: TwoWay + Drop>(out: &mut impl Write, book: B, turned: bool) -> io::Result<()> {
    let n = book.n();
    if turned {
        writeln!(out, "turned")?;
        return print_figures(out, n, &measure(&Turned::over(book)));
    }
    print_figures(out, n, &measure(&book))
}

// The plan of a log with closures shut.
fn shut_all(log: Log, closures: &[u16]) -> Result<Shut<Log>, Fault> {
    let mut plan = Shut::over(log);
    for c in closures {
        plan.shut(*c)?;
    }
    Ok(plan)
}

// One line, with the closures that are shut.
fn print_shut(out: &mut impl Write, plan: &Shut<Log>) -> io::Result<()> {
    write!(out, "shut")?;
    for c in (0..plan.n()).filter(|c| plan.is_shut(*c)) {
        write!(out, " {c}")?;
    }
    writeln!(out)
}

// Whether the log, written afresh, has the same bytes.
fn is_rewritten(heap: Global, log: &Log, bytes: &[u8]) -> Result<bool, Stop> {
    let mut afresh = vec![in heap; 0; bytes.len()]?;
    let _ = rewrite(log, afresh.as_mut_slice())?;
    Ok(afresh.as_slice() == bytes)
}

// Opens the log that the bytes are, and prints what is asked for. Nothing is printed where the log or a closure is refused.
pub(crate) fn report(
    heap: Global,
    out: &mut impl Write,
    bytes: &[u8],
    request: &Request,
) -> Result<(), Stop> {
    let mut log = Log::new();
    log.open(bytes)?;
    let n = log.n();
    let m = log.m();
    let same = is_rewritten(heap, &log, bytes)?;
    let plan = shut_all(log, request.shut.as_slice())?;
    writeln!(out, "closures {n}")?;
    writeln!(out, "spans {m}")?;
    if !request.shut.is_empty() {
        print_shut(out, &plan)?;
    }
    print_plan(out, plan, request.turned)?;
    let rewritten = if same { "same" } else { "different" };
    writeln!(out, "rewritten {rewritten}")?;
    Ok(())
}

#[cfg(test)]
mod tests {
    use super::*;
    use logs::span::Span;
    use logs::write::write_log;
    use std::process::Abort;
    use std::test::Fail;

    // What is printed of the plan 0→1→2→0 and 2→3, or why it is not.
    fn said(rt: &impl Abort, heap: Global, turned: bool, shut: &[u16]) -> Result<String, Fail> {
        let spans = [
            Span::new(0, 1),
            Span::new(1, 2),
            Span::new(2, 0),
            Span::new(2, 3),
        ];
        let mut buffer = [0; 52];
        assert!(rt; write_log(4, &spans, &mut buffer).is_ok());
        let mut request = Request {
            path: String::new(heap),
            turned,
            shut: Vec::new(heap),
        };
        for c in shut {
            request.shut.push(*c)?;
        }
        let mut out = Vec::new(heap);
        if let Err(stop) = report(heap, &mut out, &buffer, &request) {
            assert!(rt; out.is_empty());
            return Ok(stop.to_string(heap)?);
        }
        let Ok(text) = String::from_utf8(out) else {
            return Err(Fail::new("no text"));
        };
        Ok(text)
    }

    #[test]
    fn plans_are_reported(rt: HostRuntime) -> Result<(), Fail> {
        let heap = rt.alloc();
        assert_eq!(rt;
            said(&rt, heap, false, &[])?.as_str(),
            "closures 4\nspans 4\nclosure 0 out 3 in 2\nclosure 1 out 2 in 2\nclosure 2 out 2 in 2\nclosure 3 out 0 in 3\ndiameter 3 from 0 to 3\nrewritten same\n"
        );
        assert_eq!(rt;
            said(&rt, heap, true, &[])?.as_str(),
            "closures 4\nspans 4\nturned\nclosure 0 out 2 in 3\nclosure 1 out 2 in 2\nclosure 2 out 2 in 2\nclosure 3 out 3 in 0\ndiameter 3 from 3 to 0\nrewritten same\n"
        );
        assert_eq!(rt;
            said(&rt, heap, false, &[2, 2])?.as_str(),
            "closures 4\nspans 4\nshut 2\nclosure 0 out 1 in 0\nclosure 1 out 0 in 1\nclosure 2 out 0 in 0\nclosure 3 out 0 in 0\ndiameter 1 from 0 to 1\nrewritten same\n"
        );
        assert_eq!(rt;
            said(&rt, heap, true, &[3, 0])?.as_str(),
            "closures 4\nspans 4\nshut 0 3\nturned\nclosure 0 out 0 in 0\nclosure 1 out 0 in 1\nclosure 2 out 1 in 0\nclosure 3 out 0 in 0\ndiameter 1 from 2 to 1\nrewritten same\n"
        );
        assert_eq!(rt;
            said(&rt, heap, false, &[1, 4])?.as_str(),
            "refused 9 0\na number is no closure of the plan"
        );
        Ok(())
    }
}
