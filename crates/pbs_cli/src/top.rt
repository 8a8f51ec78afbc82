// The top call.
ghost use Rattle.std.specs.Prelude.{◌≡◌, ◌↔◌, ◌+◌, ◌<◌, ◌≤◌, ◌⊎◌, ◌≢◌, Some, true};
ghost use Rattle.std.specs.Option.{ForSome};
ghost use Rattle.pbs_io.specs.Outside.{Rose, ShelfState};
ghost use Rattle.pbs_io.specs.Taken.{TakesAtMost};
ghost use Rattle.net_trace.specs.Endings.{CutShort, Wrote, WroteTaken};
ghost use Rattle.net_trace.specs.Taken.{Stops, TakesLittle};
ghost use Rattle.pbs_cli.specs.Words.{command_of, texts, Run, Soak, Usage};
ghost use Rattle.pbs_cli.specs.Answers.{Defines, DueRows, HasNeeded, NeedsFile, NeedsNoSecond, ReadToEnd};
ghost use Rattle.pbs_cli.specs.Answers.{first_of, first_most, texts_of, texts_with, trace_of};
ghost use Rattle.pbs_cli.specs.inner.Parts.{Attempts, EndsCommand, IsFew, job_meant, meant};
ghost use Rattle.pbs_cli.specs.declared.status.Status.TheVariants as status;

use crate::command::{Command, Job, parse};
use crate::first::read_first;
use crate::job::{do_job, soak_line};
use crate::status::{Status, code, finish};
use pbs_engine::RunFail;
use pbs_io::{Shelf, Sink};
use std::alloc::Global;

/// Does what the words ask for, and answers the status with which the program ends: docs/FORMATS.md, "Statuses". A file
/// is opened only where it is needed, the second one only where the first is accepted.
pub fn run<S: Shelf, K: Sink>(alloc: Global, words: &[String], shelf: &mut S, out: &mut K) -> u8
    ensures range { result ≤ 5 }

    // 0 and 1: the defined text was written whole, and this is its status.
    ensures answered { result < 2 → ForSome (S.state shelf.old).files (λ files.
        Wrote (texts_with (Defines (command_of (texts words.now)) files) result) (K.state out.old) (K.state out.new)) }

    // 0: the first file was read to its end, and the trace where the command has one.
    ensures ended { result ≡ 0 → ReadToEnd (command_of (texts words.now)) (S.state shelf.new) }

    // 2: exactly for words of no command. Nothing was opened or written.
    ensures usage { (result ≡ 2) ↔ (command_of (texts words.now) ≡ Usage) }
    ensures untouched { result ≡ 2 → (shelf.new ≡ shelf.old) × (out.new ≡ out.old) }

    // 3: the words need a file and the shelf failed, and not by itself where it is sound and has the needed files.
    ensures read { result ≡ 3 → Rose (S.state shelf.old).faults (S.state shelf.new).faults }
    ensures needs { result ≡ 3 → NeedsFile (command_of (texts words.now)) }
    ensures never { (S.state shelf.old).sound ≡ true → ForSome (S.state shelf.old).files (λ files.
        HasNeeded (command_of (texts words.now)) files → result ≢ 3) }

    // 4: the sink failed.
    ensures write { result ≡ 4 → Rose (K.state out.old).faults (K.state out.new).faults }

    // 3 and 4: a prefix of the defined text was written.
    ensures front { (result ≡ 3) ⊎ (result ≡ 4) → ForSome (S.state shelf.old).files (λ files.
        CutShort (texts_of (Defines (command_of (texts words.now)) files)) (K.state out.old) (K.state out.new)) }

    // 5: nothing was written.
    ensures memory { result ≡ 5 → (K.state out.new).written ≡ (K.state out.old).written }

    // 3: until the header's newline was taken from the second slot, nothing was written; from then on exactly the line
    // of row 0 and those of the rows whose newlines were taken. 3 doesn't come once a refusal is among the bytes taken.
    ensures stopped { result ≡ 3 → ForSome (S.state shelf.old).files (λ files.
        WroteTaken (Stops (DueRows (command_of (texts words.now)) files))
        (trace_of (command_of (texts words.now)) files)
        ((S.state shelf.old).slots 1) ((S.state shelf.new).slots 1) (K.state out.old) (K.state out.new)) }

    // 5: at most 65,536 bytes of the trace behind its header were taken.
    ensures little { result ≡ 5 → ForSome (S.state shelf.old).files (λ files.
        TakesLittle (trace_of (command_of (texts words.now)) files)
        ((S.state shelf.old).slots 1) ((S.state shelf.new).slots 1)) }

    // At most one byte more of the first file was taken than it may have: 1,048,577 of a specification, and 67,108,865
    // of a netlist.
    ensures first { ForSome (S.state shelf.old).files (λ files.
        TakesAtMost (first_most (command_of (texts words.now)) + 1) (first_of (command_of (texts words.now)) files)
        ((S.state shelf.old).slots 0) ((S.state shelf.new).slots 0)) }

    // At most 67,108,865 bytes of the trace were taken, and none where the words have no trace.
    ensures few { ForSome (S.state shelf.old).files (λ files.
        TakesAtMost 67108865 (trace_of (command_of (texts words.now)) files)
        ((S.state shelf.old).slots 1) ((S.state shelf.new).slots 1)) }

    // Where the first file is refused, the second slot is left as it was.
    ensures second { ForSome (S.state shelf.old).files (λ files.
        NeedsNoSecond (command_of (texts words.now)) files
        → (S.state shelf.new).slots 1 ≡ (S.state shelf.old).slots 1) }

    // Where neither count rose, the answer is the defined one, written whole, or 5.
    ensures complete { (Rose (S.state shelf.old).faults (S.state shelf.new).faults → ⊥)
        → (Rose (K.state out.old).faults (K.state out.new).faults → ⊥) → result ≢ 5
        → ForSome (S.state shelf.old).files (λ files.
        Wrote (texts_with (Defines (command_of (texts words.now)) files) result) (K.state out.old) (K.state out.new)) }
{
    code(perform(alloc, words, shelf, out))
}

// What a job comes to, but for the line of a refusal.
fn attempt<S: Shelf, K: Sink>(
    alloc: Global,
    job: &Job<'_>,
    first: &str,
    shelf: &mut S,
    out: &mut K,
) -> Result<(), RunFail>
    ensures { Attempts (job_meant job.now) first.now (S.state shelf.old) (S.state shelf.new)
        (K.state out.old) (K.state out.new) result }
{
    match read_first(alloc, shelf, first, job) {
        Ok(bytes) => do_job(alloc, job, bytes.as_slice(), shelf, out),
        Err(fail) => Err(fail),
    }
}

// Does a job, and answers how that ended.
fn run_job<S: Shelf, K: Sink>(
    alloc: Global,
    job: &Job<'_>,
    first: &str,
    shelf: &mut S,
    out: &mut K,
) -> Status
    ensures { EndsCommand (Run (job_meant job.now) first.now) (S.state shelf.old) (S.state shelf.new)
        (K.state out.old) (K.state out.new) result }
{
    let end = attempt(alloc, job, first, shelf, out);
    finish(out, end)
}

// Does a soak, and answers how that ended.
fn run_soak<K: Sink>(alloc: Global, n: u32, out: &mut K) -> Status
    requires { n ≤ 1000 }
    ensures { (shelf : ShelfState) → EndsCommand (Soak n) shelf shelf (K.state out.old) (K.state out.new) result }
{
    let end = soak_line(alloc, n, out);
    finish(out, end)
}

// Does the command, and answers how that ended.
fn carry_out<S: Shelf, K: Sink>(
    alloc: Global,
    command: &Command<'_>,
    shelf: &mut S,
    out: &mut K,
) -> Status
    requires { IsFew command.now }
    ensures { EndsCommand (meant (Some command.now)) (S.state shelf.old) (S.state shelf.new)
        (K.state out.old) (K.state out.new) result }
{
    match command {
        Command::Run(job, first) => run_job(alloc, job, first, shelf, out),
        Command::Soak(n) => run_soak(alloc, *n, out),
    }
}

fn perform<S: Shelf, K: Sink>(alloc: Global, words: &[String], shelf: &mut S, out: &mut K) -> Status
    ensures usage { (result ≡ status.Usage) ↔ (command_of (texts words.now) ≡ Usage) }
    ensures untouched { result ≡ status.Usage → (shelf.new ≡ shelf.old) × (out.new ≡ out.old) }
    ensures ends { result ≢ status.Usage
        → EndsCommand (command_of (texts words.now)) (S.state shelf.old) (S.state shelf.new)
        (K.state out.old) (K.state out.new) result }
{
    match parse(words) {
        None => Status::Usage,
        Some(command) => carry_out(alloc, &command, shelf, out),
    }
}
