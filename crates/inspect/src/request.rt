// What the program is asked for.
use super::stop::Stop;
use std::alloc::Global;

// The path of a log, whether its plan is to be turned, and the closures that are to be shut.
#[derive(Drop)]
pub struct Request {
    pub path: String,
    pub turned: bool,
    pub shut: Vec<u16>,
}

// What the words so far leave to follow.
#[derive(Clone, Copy)]
enum Due {
    Option,
    Closure,
    OptionOrClosure,
}

impl Request {
    // Reads the arguments: PLAN.log [--turned] [--shut CLOSURE..], the two options in either order.
    pub(crate) fn read(heap: Global, words: &[String]) -> Result<Request, Stop> {
        let [path, options @ ..] = words else {
            return Err(Stop::Usage);
        };
        if path.as_str().starts_with("--") {
            return Err(Stop::Usage);
        }
        let mut request = Request {
            path: path.clone()?,
            turned: false,
            shut: Vec::new(heap),
        };
        let mut due = Due::Option;
        for word in options {
            due = match (word.as_str(), due) {
                ("--turned", Due::Option | Due::OptionOrClosure) => {
                    request.turned = true;
                    Due::Option
                }
                ("--shut", Due::Option | Due::OptionOrClosure) => Due::Closure,
                (number, Due::Closure | Due::OptionOrClosure) => {
                    request.shut.push(closure(number)?)?;
                    Due::OptionOrClosure
                }
                _ => return Err(Stop::Usage),
            };
        }
        match due {
            Due::Closure => Err(Stop::Usage),
            _ => Ok(request),
        }
    }
}

// The number that a word of digits is. One that is too large becomes 65,535, which is no closure either.
fn closure(word: &str) -> Result<u16, Stop> {
    if word.is_empty() || !word.bytes().all(|digit| digit.is_ascii_digit()) {
        return Err(Stop::Usage);
    }
    Ok(word.parse::<u16>().unwrap_or(u16::MAX))
}

#[cfg(test)]
mod tests {
    use super::*;
    use std::test::Fail;

    fn read(heap: Global, line: &str) -> Result<Request, Stop> {
        let mut words = Vec::new(heap);
        for word in line.split(' ') {
            words.push(String::from_str(heap, word)?)?;
        }
        Request::read(heap, words.as_slice())
    }

    #[test]
    fn options_are_read_in_either_order(rt: HostRuntime) -> Result<(), Fail> {
        for line in [
            "town.log --shut 2 5 --turned",
            "town.log --turned --shut 2 5",
        ] {
            let Ok(request) = read(rt.alloc(), line) else {
                return Err(Fail::new("not read"));
            };
            assert_eq!(rt; request.path.as_str(), "town.log");
            assert!(rt; request.turned);
            assert_eq!(rt; request.shut.as_slice(), [2, 5].as_slice());
        }
        let Ok(request) = read(rt.alloc(), "town.log") else {
            return Err(Fail::new("not read"));
        };
        assert!(rt; !request.turned);
        assert!(rt; request.shut.is_empty());
        Ok(())
    }

    #[test]
    fn other_words_are_refused(rt: HostRuntime) -> Result<(), Fail> {
        let heap = rt.alloc();
        for line in [
            "--turned",
            "town.log other.log",
            "town.log --shut",
            "town.log --shut --turned",
            "town.log --shut --shut 2",
            "town.log --shut 2 --shut",
            "town.log --shut x",
            "town.log --shut +2",
            "town.log --turned 2",
        ] {
            let Err(stop) = read(heap, line) else {
                return Err(Fail::new("read"));
            };
            assert_eq!(rt;
                stop.to_string(heap)?.as_str(),
                "usage: inspect PLAN.log [--turned] [--shut CLOSURE..]"
            );
        }
        Ok(())
    }

    #[test]
    fn large_numbers_are_no_closures(rt: HostRuntime) -> Result<(), Fail> {
        let line = "town.log --shut 65535 --shut 65536 99999999999999999999";
        let Ok(request) = read(rt.alloc(), line) else {
            return Err(Fail::new("not read"));
        };
        assert_eq!(rt; request.shut.as_slice(), [65535, 65535, 65535].as_slice());
        Ok(())
    }
}
