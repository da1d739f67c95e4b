//! What becomes of a file's bytes.

ghost use Rattle.std.specs.Prelude.{◌≡◌, ◌++◌, ◌∷◌, [], IfOk, IsErr, IsErrAnd, Ok, OnOk};
ghost use Rattle.lexer.specs.declared.fault.LexFault.TheVariants.{OutOfMemory};
ghost use Rattle.load.specs.Readings.{fault_of_form, reading_of, trees_of, IsParsed, TellsLexFault, TellsParseFault};
ghost use Rattle.parser.specs.declared.fault.ParseFault.TheVariants.{OutOfMemory as NoMemory};

use lexer::{LexFault, Source, lex};
use parser::{LeftOut, ParseFault, parse};
use report::{TextFault, TreeFault};
use std::alloc::{AllocError, Global};
use tree::{Edition, File};
use whole_packages::Reading;

/// What became of a file: its tree, or what it has instead.
pub type Parsed = Result<File, Reading>;

/// That a form of Go is left out.
fn left_out_form(form: LeftOut) -> TreeFault
    ensures { result ≡ fault_of_form form }
{
    match form {
        LeftOut::TypeParameters => TreeFault::TypeParameters,
        LeftOut::Goto => TreeFault::Goto,
        LeftOut::Fallthrough => TreeFault::Fallthrough,
        LeftOut::DotImport => TreeFault::DotImport,
    }
}

/// What becomes of a text that has tokens and no tree.
fn without_tree(fault: ParseFault) -> Result<Reading, AllocError>
    ensures ok { IfOk result (TellsParseFault fault) }
    ensures err { IsErr result → fault ≡ NoMemory }
{
    match fault {
        ParseFault::Unexpected(at) => Ok(Reading::NoTree(at, TreeFault::UnexpectedToken)),
        ParseFault::LeftOut(form, at) => Ok(Reading::NoTree(at, left_out_form(form))),
        ParseFault::TooDeep(at) => Ok(Reading::NoTree(at, TreeFault::TooDeep)),
        ParseFault::OutOfMemory => Err(AllocError),
    }
}

/// What becomes of a text that has no tokens. One that is too long has its fault at its start.
fn without_tokens(fault: LexFault) -> Result<Reading, AllocError>
    ensures ok { IfOk result (TellsLexFault fault) }
    ensures err { IsErr result → fault ≡ OutOfMemory }
{
    match fault {
        LexFault::TooLong => Ok(Reading::NoTokens(0, TextFault::TooLong)),
        LexFault::NotUtf8(at) => Ok(Reading::NoTokens(at, TextFault::NotUtf8)),
        LexFault::Nul(at) => Ok(Reading::NoTokens(at, TextFault::Nul)),
        LexFault::UnclosedString(at) => Ok(Reading::NoTokens(at, TextFault::UnclosedString)),
        LexFault::UnclosedComment(at) => Ok(Reading::NoTokens(at, TextFault::UnclosedComment)),
        LexFault::UnclosedRune(at) => Ok(Reading::NoTokens(at, TextFault::UnclosedRune)),
        LexFault::UnknownCharacter(at) => Ok(Reading::NoTokens(at, TextFault::UnknownCharacter)),
        LexFault::OutOfMemory => Err(AllocError),
    }
}

/// What became of a file without a tree.
fn parsed_without_tree(read: Result<Reading, AllocError>) -> Result<Parsed, AllocError>
    ensures { IfOk result (λ parsed. IsErrAnd parsed (λ reading. read ≡ Ok reading)) }
{
    match read {
        Ok(reading) => Ok(Err(reading)),
        Err(error) => Err(error),
    }
}

/// What becomes of a source that is read in that edition.
///
/// # Errors
///
/// Memory was refused.
pub fn read_source(alloc: Global, edition: Edition, source: &Source) -> Result<Parsed, AllocError>
    ensures { IfOk result (IsParsed edition source.now) }
{
    match lex(alloc, source) {
        Ok(tokens) => match parse(alloc, edition, &source.bytes, &tokens) {
            Ok(tree) => Ok(Ok(tree)),
            Err(fault) => parsed_without_tree(without_tree(fault)),
        },
        Err(fault) => parsed_without_tree(without_tokens(fault)),
    }
}

/// Adds what became of a file, and its tree, if it has one.
///
/// # Errors
///
/// Memory was refused.
pub fn keep(
    parsed: Parsed,
    readings: &mut Vec<Reading>,
    trees: &mut Vec<File>,
) -> Result<(), AllocError>
    ensures reading { OnOk result (readings.new.items ≡ readings.old.items ++ reading_of parsed ∷ []) }
    ensures trees { OnOk result (trees.new.items ≡ trees.old.items ++ trees_of parsed) }
{
    match parsed {
        Ok(tree) => {
            trees.push(tree)?;
            readings.push(Reading::Tree)?;
        }
        Err(reading) => readings.push(reading)?,
    }
    Ok(())
}
