//! The program `ctxvet`: hands the words of its command line and its streams to the library `driver`.
#![tactic(auto)]

use driver::{Fault, ToTheEnd, refuse, run_leaving, words_fault};
use std::env;
use std::process::ExitCode;

/// Runs the program and ends with its status. The packages that were judged are left to the end of the process.
fn main(rt: HostRuntime) -> ExitCode {
    let mut err = rt.stderr();
    let status = match words(&rt) {
        Ok(words) => run_leaving::<_, _, _, _, ToTheEnd>(
            &rt,
            words.as_slice(),
            &mut rt.stdout(),
            &mut err,
        ),
        Err(fault) => refuse(&mut err, &fault),
    };
    ExitCode::from(status)
}

/// The words after the program's name.
fn words(rt: &HostRuntime) -> Result<Vec<String>, Fault> {
    match env::args(rt) {
        Ok(words) => Ok(words.skip(1).collect::<Vec<String>>(rt.alloc())?),
        Err(error) => Err(words_fault(&error)),
    }
}
