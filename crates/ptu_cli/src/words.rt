// The words of the command line.
ghost use Rattle.std.specs.{Prelude.{◌≡◌, ◌≤◌, ◌-◌, ◌^◌, [], ◌∷◌, map, string_bytes, IfSome}, Str.all_ascii_digits};
ghost use Rattle.{ptu_made.specs.Generator.photon_limit, ptu_cli.specs.{Commands.{demo_of, is_numeral, number_in, pick_of, request_of}, Requests.ReadAs}};

use ptu_made::PHOTON_LIMIT;

/// What the program is asked to do.
#[derive(Clone, Copy)]
pub enum Command<'a> {
    /// Counts the records of a file by kind.
    Count {
        file: &'a str,
    },
    /// Prints the header of a file.
    Header {
        file: &'a str,
    },
    /// Lists the events of a file with their absolute times.
    Events {
        file: &'a str,
    },
    /// Counts what a plan asks for in a file, and prints the report.
    Run {
        plan: &'a str,
        file: &'a str,
    },
    /// Prints a plan's first trace with as many bins as FILE needs, while FILE is read.
    Trace {
        plan: &'a str,
        file: &'a str,
    },
    /// Writes the photons of a plan's group, by its number, to a file of their own, while FILE is read.
    Pick {
        plan: &'a str,
        group: u64,
        file: &'a str,
    },
    /// Counts the photons that a seed gives, and prints the report of a fixed plan. `read_words`
    /// gives at most 10,000,000 of them.
    Demo {
        seed: u64,
        count: u64,
    },
}

/// Whether all bytes are digits.
fn are_digits(text: &[u8]) -> bool
    ensures { result ≡ all_ascii_digits text.now }
{
    for byte in text {
        if !byte.is_ascii_digit() {
            return false;
        }
    }
    true
}

/// Whether a word is one to twenty digits.
fn is_number(word: &str) -> bool
    ensures { result ≡ is_numeral word.now }
{
    !word.is_empty() && word.len() <= 20 && are_digits(word.as_bytes())
}

/// The number that one to twenty digits write, where it is no greater than `most`.
fn number(word: &str, most: u64) -> Option<u64>
    ensures value { result ≡ number_in most word.now }
    ensures small { IfSome result (λ n. n ≤ most) }
{
    if !is_number(word) {
        return None;
    }
    match word.parse::<u64>() {
        Ok(value) => { if value <= most { Some(value) } else { None } }
        Err(_) => None,
    }
}

/// The words after `demo`.
fn demo_words(seed: &str, count: &str) -> Option<Command<'static>>
    ensures { ReadAs result
        (demo_of (number_in (2 ^ 64 - 1) seed.now) (number_in photon_limit count.now)) }
{
    let seed = number(seed, u64::MAX)?;
    let count = number(count, PHOTON_LIMIT)?;
    Some(Command::Demo { seed, count })
}

/// The words after `pick`.
fn pick_words<'a>(plan: &'a str, group: &str, file: &'a str) -> Option<Command<'a>>
    ensures { ReadAs result
        (pick_of plan.now (number_in (2 ^ 64 - 1) group.now) file.now) }
{
    let group = number(group, u64::MAX)?;
    Some(Command::Pick { plan, group, file })
}

/// The command of two words.
fn two_words<'a>(word: &str, file: &'a str) -> Option<Command<'a>>
    ensures { ReadAs result (request_of (word.now ∷ file.now ∷ [])) }
{
    if word == "count" {
        Some(Command::Count { file })
    } else if word == "header" {
        Some(Command::Header { file })
    } else if word == "events" {
        Some(Command::Events { file })
    } else {
        None
    }
}

/// The command of three words.
fn three_words<'a>(word: &str, first: &'a str, second: &'a str) -> Option<Command<'a>>
    ensures { ReadAs result (request_of (word.now ∷ first.now ∷ second.now ∷ [])) }
{
    if word == "run" {
        Some(Command::Run {
            plan: first,
            file: second,
        })
    } else if word == "trace" {
        Some(Command::Trace {
            plan: first,
            file: second,
        })
    } else if word == "demo" {
        demo_words(first, second)
    } else {
        None
    }
}

/// The command of the words after the program's name: `count FILE`, `header FILE`, `events FILE`,
/// `run PLAN FILE`, `trace PLAN FILE`, `pick PLAN GROUP FILE` or `demo SEED COUNT`. GROUP, SEED and COUNT are one to
/// twenty digits, GROUP and SEED at most 2^64 - 1 and COUNT at most 10,000,000. None exactly where the words are none
/// of these.
pub fn read_words(words: &[String]) -> Option<Command<'_>>
    ensures { ReadAs result (request_of (map (λ word. string_bytes word) words.now)) }
{
    match words {
        [word, file] => two_words(word.as_str(), file.as_str()),
        [word, first, second] => three_words(word.as_str(), first.as_str(), second.as_str()),
        [word, plan, group, file] => {
            if word.as_str() == "pick" {
                pick_words(plan.as_str(), group.as_str(), file.as_str())
            } else {
                None
            }
        }
        _ => None,
    }
}
