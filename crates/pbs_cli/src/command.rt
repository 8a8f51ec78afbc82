// The words of the command line: docs/FORMATS.md, "Commands".
ghost use Rattle.std.specs.Prelude.{◌≡◌, ◌≤◌, IfSome, bytes_eq, decimal};
ghost use Rattle.pbs_cli.specs.Words.{command_of, number_up_to, soak_of, texts};
ghost use Rattle.pbs_cli.specs.inner.Parts.{IsFew, meant};

use itoa::Buffer;

/// What is done with the first file: with a specification, or for `Sim` with a netlist. The names are those of traces.
#[derive(Drop)]
pub(crate) enum Job<'a> {
    Check,
    Compile,
    Map,
    Migrate,
    Sim(&'a str),
    Trace(&'a str),
}

#[derive(Drop)]
pub(crate) enum Command<'a> {
    /// A job, and the name of its first file.
    Run(Job<'a>, &'a str),
    /// A number from 1 to 1,000.
    Soak(u32),
}

// Whether these are the digits of the number.
fn is_number(digits: &[u8], n: u32) -> bool
    ensures { result ≡ bytes_eq digits.now (decimal n) }
{
    let mut buffer = Buffer::new();
    digits == buffer.format(n).as_bytes()
}

// The number from 1 to 1,000 that has these digits.
fn number(digits: &[u8]) -> Option<u32>
    ensures number { result ≡ number_up_to 1000 digits.now }
    ensures few { IfSome result (λ n. n ≤ 1000) }
{
    let mut n = 1000;
    while n > 0 {
        if is_number(digits, n) {
            return Some(n);
        }
        n -= 1;
    }
    None
}

fn soak_command<'a>(digits: &[u8]) -> Option<Command<'a>>
    ensures command { meant result ≡ soak_of (number_up_to 1000 digits.now) }
    ensures few { IfSome result (λ command. IsFew command) }
{
    match number(digits) {
        Some(n) => Some(Command::Soak(n)),
        None => None,
    }
}

/// The command that the words name.
pub(crate) fn parse<'a>(words: &'a [String]) -> Option<Command<'a>>
    ensures command { meant result ≡ command_of (texts words.now) }
    ensures few { IfSome result (λ command. IsFew command) }
{
    let (job, first) = match words {
        [word, first] if word.as_str() == "check" => (Job::Check, first),
        [word, first] if word.as_str() == "compile" => (Job::Compile, first),
        [word, first] if word.as_str() == "map" => (Job::Map, first),
        [word, first] if word.as_str() == "migrate" => (Job::Migrate, first),
        [word, digits] if word.as_str() == "soak" => {
            return soak_command(digits.as_str().as_bytes());
        }
        [word, first, trace] if word.as_str() == "sim" => (Job::Sim(trace.as_str()), first),
        [word, first, trace] if word.as_str() == "trace" => (Job::Trace(trace.as_str()), first),
        _ => return None,
    };
    Some(Command::Run(job, first.as_str()))
}
