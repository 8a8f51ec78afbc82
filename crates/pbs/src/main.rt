// The program: it lends `run` the real files and standard output, and ends with its status.
#![tactic(auto)]

use pbs_cli::run;
use pbs_io::{FileShelf, StdSink};
use std::env;
use std::io::ErrorKind;
use std::process::ExitCode;

fn main(rt: HostRuntime) -> ExitCode {
    let mut words = Vec::new(rt.alloc());
    match env::args(&rt) {
        Ok(mut all) => {
            // The first is the program's own name.
            let _ = all.next();
            for word in all {
                if words.push(word).is_err() {
                    return ExitCode::from(5);
                }
            }
        }
        // No memory for the words, or a word that is no text.
        Err(error) if error.kind() == ErrorKind::OutOfMemory => return ExitCode::from(5),
        Err(_) => return ExitCode::from(2),
    }
    let mut shelf = FileShelf::new(&rt);
    let mut out = StdSink::new(&rt);
    ExitCode::from(run(rt.alloc(), words.as_slice(), &mut shelf, &mut out))
}
