// town FILE: writes the sample plan as a log, opens it again, and says whether the file was the same before.
#![tactic(auto)]

mod plan;

use anyhow::bail;
use logs::log::Log;
use logs::write::write_and_open;
use std::{env, fmt, fs};

// What the file was before.
#[derive(Clone, Copy)]
enum Before {
    New,
    Same,
    Another,
}

impl fmt::Display for Before {
    fn fmt<W: fmt::Write>(&self, f: &mut fmt::Formatter<W>) -> fmt::Result {
        f.write_str(match self {
            Before::New => "new",
            Before::Same => "the same before",
            Before::Another => "another before",
        })
    }
}

fn stood_before(rt: &HostRuntime, path: &str, bytes: &[u8]) -> Before {
    match fs::read(rt, path) {
        Err(_) => Before::New,
        Ok(old) if old.as_slice() == bytes => Before::Same,
        Ok(_) => Before::Another,
    }
}

fn run(rt: &HostRuntime) -> anyhow::Result<()> {
    let mut args = env::args(rt)?;
    let _ = args.next();
    let (Some(path), None) = (args.next(), args.next()) else {
        bail!("usage: town FILE");
    };
    let mut log = Log::new();
    let mut buffer = [0; 1024];
    let Ok(len) = write_and_open(&mut log, plan::CLOSURES, &plan::spans(), &mut buffer) else {
        bail!("the plan is refused");
    };
    let Some(bytes) = buffer.get(0..len) else {
        bail!("the log is longer than its buffer");
    };
    let before = stood_before(rt, path.as_str(), bytes);
    fs::write(rt, path.as_str(), bytes)?;
    let closures = plan::CLOSURES;
    let spans = log.m();
    println!(rt; "{path}: {closures} closures, {spans} spans, {len} bytes, {before}")?;
    Ok(())
}

fn main(rt: HostRuntime) -> anyhow::Result<()> {
    run(&rt)
}
