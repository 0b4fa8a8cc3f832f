// inspect PLAN.log [--turned] [--shut CLOSURE..]: opens a splice log, visits every closure of its plan both ways, and prints the
// measures of the plan, or of the turned plan, or with closures shut.
#![tactic(auto)]

mod report;
mod request;
mod stop;

use report::report;
use request::Request;
use std::io::{BufWriter, Write};
use std::process::ExitCode;
use std::{env, fs};
use stop::Stop;

fn inspect(rt: &HostRuntime) -> Result<(), Stop> {
    let heap = rt.alloc();
    let mut words = Vec::new(heap);
    for word in env::args(rt)?.skip(1) {
        words.push(word)?;
    }
    let request = Request::read(heap, words.as_slice())?;
    let Ok(bytes) = fs::read(rt, request.path.as_str()) else {
        return Err(Stop::Unreadable(request.path));
    };
    let mut out = BufWriter::new(heap, rt.stdout())?;
    report(heap, &mut out, bytes.as_slice(), &request)?;
    out.flush()?;
    Ok(())
}

fn main(rt: HostRuntime) -> ExitCode {
    let Err(stop) = inspect(&rt) else {
        return ExitCode::SUCCESS;
    };
    // where standard error cannot be written either, the status alone says it
    let _ = eprintln!(rt; "{stop}");
    ExitCode::FAILURE
}
