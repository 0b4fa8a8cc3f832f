// Why the program stops early, and how it says so.
use books::fault::Fault;
use std::alloc::AllocError;
use std::{fmt, io};
use thiserror::Error;

#[derive(Debug, Drop, Error)]
pub enum Stop {
    // the arguments are not a path and options
    #[error("usage: inspect PLAN.log [--turned] [--shut CLOSURE..]")]
    Usage,
    // the file at this path
    #[error("refused\n{0} cannot be read")]
    Unreadable(String),
    // the log, or a closure that is to be shut
    #[error(fmt = refused)]
    Refused(#[from] Fault),
    #[error("there is no memory")]
    NoMemory(#[from(alloc)] AllocError),
    #[error("the output cannot be written")]
    NoOutput(#[from] io::Error),
}

// The number and the place of a refusal, and its condition below.
fn refused<W: fmt::Write>(fault: &Fault, f: &mut fmt::Formatter<W>) -> fmt::Result {
    let number = fault.number();
    let place = fault.place();
    write!(f, "refused {number} {place}\n{fault}")
}

#[cfg(test)]
mod tests {
    use super::*;
    use std::test::Fail;

    #[test]
    fn refusals_are_said_in_two_lines(rt: HostRuntime) -> Result<(), Fail> {
        let heap = rt.alloc();
        let refused = Stop::Refused(Fault::ForeignLink { place: 26 });
        let text = refused.to_string(heap)?;
        assert_eq!(rt;
            text.as_str(),
            "refused 6 26\na link leads to a record of another closure"
        );
        let unreadable = Stop::Unreadable(String::from_str(heap, "town.log")?);
        let text = unreadable.to_string(heap)?;
        assert_eq!(rt; text.as_str(), "refused\ntown.log cannot be read");
        Ok(())
    }
}
