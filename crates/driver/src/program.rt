//! The whole program, over two writers.

ghost use Rattle.std.specs.Prelude.{◌≡◌, IfErr, IfOk, map};
ghost use Rattle.command_line.specs.VetWords.{vet_call};
ghost use Rattle.driver.specs.Faults.{IsRunFault, LeavesUnwritten};
ghost use Rattle.printed.specs.Printing.{refused_by};
ghost use Rattle.printed.specs.Statuses.{status_code};
ghost use Rattle.driver.specs.WrittenReport.{Does, DoesBy, EndsWith, FailsBy, LeavesBegun, LeavesWhole};

use crate::certify::certify;
use crate::check::check;
use crate::explain::explain;
use crate::verify::verify;
use command_line::{Asked, read_words, vet_words};
use folders::{Fault, Surroundings, fail};
use load::{Leave, LetGo};
use printed::{PROGRAM, Refusals, Status, print};
use std::convert::AsStr;
use std::io::Write;
use std::rt::Files;
use std::sync::Wait;
use std::thread::Threads;
use vet_units::vet;

/// Runs the program with the words after its name: prints its report or help on `out` and its fault on `err`, and
/// returns its status. 0: each package is yes, or help or the version was asked for. 1: some package is no. 2: a fault,
/// which is the first one. Words with which the go command calls its vet tool are answered as it wants. What a yes
/// says, and in which runs, `judge::report_of` tells: where a file of facts is named, in those in which what it
/// declares is true.
pub fn run<
    R: Files + Surroundings + AllocGlobal + Threads + Wait + Sync,
    S: AsStr,
    W: Write,
    E: Write,
>(rt: &R, words: &[S], out: &mut W, err: &mut E) -> u8
    ensures { (status : Status) × (result ≡ status_code status)
        × EndsWith (map S.text words.now) status (W.contents out.old) (W.contents out.new) }
{
    run_leaving::<R, S, W, E, LetGo>(rt, words, out, err)
}

/// The same, where `L` says what becomes of the packages once they were judged. A program that ends then may leave them
/// to the end of its process.
pub fn run_leaving<
    R: Files + Surroundings + AllocGlobal + Threads + Wait + Sync,
    S: AsStr,
    W: Write,
    E: Write,
    L: Leave,
>(rt: &R, words: &[S], out: &mut W, err: &mut E) -> u8
    ensures { (status : Status) × (result ≡ status_code status)
        × EndsWith (map S.text words.now) status (W.contents out.old) (W.contents out.new) }
{
    let mut refusals = Refusals::none();
    match answer::<R, S, W, E, L>(rt, words, out, err, &mut refusals) {
        Ok(status) => status.code(),
        Err(fault) => fail(err, PROGRAM, &fault),
    }
}

/// Prints the line of a fault that `main` meets before it runs the program, and gives the status to end with.
pub fn refuse<E: Write>(err: &mut E, fault: &Fault) -> u8
    ensures { result ≡ 2 }
{
    fail(err, PROGRAM, fault)
}

/// Does what the words ask for, be they those of the go command. A write on `out` was refused just where the fault is
/// that of writing.
fn answer<
    R: Files + Surroundings + AllocGlobal + Threads + Wait + Sync,
    S: AsStr,
    W: Write,
    E: Write,
    L: Leave,
>(rt: &R, words: &[S], out: &mut W, err: &mut E, refusals: &mut Refusals) -> Result<Status, Fault>
    ensures done { IfOk result (λ status. DoesBy (vet_call (map S.text words.now)) (map S.text words.now) status
        (W.contents out.old) (W.contents out.new)) }
    ensures fails { IfErr result (FailsBy (vet_call (map S.text words.now)) (map S.text words.now)
        (W.contents out.old) (W.contents out.new)) }
    ensures refused { refusals.new.any ≡ refused_by refusals.old.any result }
{
    match vet_words(words) {
        Some(asked) => vet::<R, W, E, L>(rt, &asked, out, err, refusals),
        None => answer_words::<R, S, W, E, L>(rt, words, out, err, refusals),
    }
}

/// Does what the words ask for, which are no call of the go command.
fn answer_words<
    R: Files + Surroundings + AllocGlobal + Threads + Wait + Sync,
    S: AsStr,
    W: Write,
    E: Write,
    L: Leave,
>(rt: &R, words: &[S], out: &mut W, err: &mut E, refusals: &mut Refusals) -> Result<Status, Fault>
    ensures written { IfOk result (λ status.
        Does (map S.text words.now) status (W.contents out.old) (W.contents out.new)) }
    ensures fault { IfErr result (IsRunFault (map S.text words.now)) }
    ensures unwritten { IfErr result (λ fault. LeavesUnwritten fault (W.contents out.old) (W.contents out.new)) }
    ensures begun { IfErr result (λ fault.
        LeavesBegun (map S.text words.now) fault (W.contents out.old) (W.contents out.new)) }
    ensures whole { IfErr result (λ fault.
        LeavesWhole (map S.text words.now) fault (W.contents out.old) (W.contents out.new)) }
    ensures refused { refusals.new.any ≡ refused_by refusals.old.any result }
{
    match read_words(rt.alloc(), words)? {
        Asked::Check(asked) => {
            let done = check::<R, W, E, L>(rt, &asked, out, err, refusals)?;
            Ok(done.status)
        }
        Asked::Explain(asked) => {
            let done = explain::<R, W, E, L>(rt, &asked, out, err, refusals)?;
            Ok(done.status)
        }
        Asked::Certify(asked) => {
            let done = certify::<R, W, E, L>(rt, &asked, out, err, refusals)?;
            Ok(done.status)
        }
        Asked::Verify(asked) => {
            let done = verify::<R, W, E, L>(rt, &asked, out, err, refusals)?;
            Ok(done.status)
        }
        Asked::Help(text) => {
            print(out, text.as_bytes(), refusals)?;
            Ok(Status::Fine)
        }
        Asked::Wrong(text) => {
            // Where standard error fails too, nobody is left to be told.
            let _ = err.write_all(text.as_bytes());
            let _ = err.flush();
            Ok(Status::Faulty)
        }
    }
}
