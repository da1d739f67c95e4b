//! The words that the library of the command line understands, and its texts.

use crate::values::{JSON_WORD, SARIF_WORD, TEXT_WORD};
use crate::words::{CHECK_WORD, VERIFY_WORD};
use clap::builder::ValueParser;
use clap::{Arg, ArgAction, Command, Error};
use std::alloc::{AllocError, Global};
use std::convert::AsStr;
use workers::MOST_WORKERS;

const ABOUT: &str = "Finds cancel functions of contexts that may not be called in Go packages";

const AFTER: &str = "Exit status:
  0  each package is yes or accepted
  1  no: something was found that is not accepted
  2  wrong arguments, or something could not be read or written

Examples:
  go list -deps -json ./... | ctxvet check --packages -
  go list -deps -json ./... | ctxvet check -j 4 --format sarif --packages -
  ctxvet check example.org/pool=./pool
  ctxvet check --cert pool.json example.org/pool=./pool
  ctxvet verify --cert pool.json example.org/pool=./pool
  ctxvet check --facts facts.json example.org/pool=./pool

As a tool of the go command:
  go vet -vettool=$(command -v ctxvet) ./...
with the flags -edition=N, -facts=FILE, -baseline=FILE, -json, -c=N, -tests, -why, -accepted, -quiet,
-keeping and -no-std-facts. A package is judged when those that it imports were.";

const CHECK: &str = "Checks packages and prints their report";

const AFTER_CHECK: &str =
    "The report goes to standard output, the packages in the order of their paths. As text it has a line
for each finding,
  FILE:LINE:COLUMN: CODE NAME TEXT
and then `yes PATH` where nothing was found, `accepted PATH` where all findings of the package are
accepted, else `no PATH`. This comment accepts findings LC05 on its line, and where it stands alone, on
the line below:
  //ctxvet:accept LC05 lives as long as the process
What a package imports is known where it is given too, and as far as it is declared in the file of
facts or, in the second edition, known of Go's library; else it is taken as unknown.";

const VERIFY: &str =
    "Judges packages by the certificates of an earlier check, and prints their report";

const AFTER_VERIFY: &str =
    "The report goes to standard output, in the form of that of `ctxvet check`. Nothing is searched for:
the certificate of each body is looked through once. Where it is missing or does not hold, that is
a finding, LC16.";

const OUT: &str =
    "Writes what was found for each body to this file too, as JSON: the certificates of the packages";

const IN: &str = "The file of certificates";

const FACTS: &str =
    "The file of declared facts, as JSON: what is taken for true of functions of packages that are not given";

const NO_LIBRARY: &str =
    "Takes Go's own library as unknown where it is not given, also what the second edition knows of it";

const WORKERS: &str =
    "How many threads read the files and judge the packages at most, from 1 to 64. The report is the same \
for each number [default: 1]";

const LIST: &str =
    "The packages of a build, as `go list -json` prints them, in place of or beside words; `-` is standard input";

const FORMAT: &str = "The form of the report: text, json or sarif [default: text]";

const WHY: &str = "Tells below each finding why it stands there";

const ACCEPTED: &str = "Tells accepted findings too, with their reasons";

const BASELINE: &str =
    "Accepts the findings of an earlier report: a file that `check --format json` wrote";

const QUIET: &str = "Leaves out the lines of packages without findings";

const FORMATS: &[&str] = &[TEXT_WORD, JSON_WORD, SARIF_WORD];

const EDITION: &str =
    "The edition of the rules, 1 or 2; the second one knows type parameters, `fallthrough`, `goto` and imports with \
a dot [default: 1 for words, 2 where a list is named]";

/// The numbers of the editions.
const FIRST_EDITION: u64 = 1;

const LAST_EDITION: u64 = 2;

const PACKAGE: &str = "A package's import path, `=`, and the folder of its files: \
each file there is read that ends in .go and not in _test.go";

/// The version of the program.
pub const VERSION: &str = "0.4.0";

/// The version with the editions of the rules that it has, and the versions of Go whose files it reads.
const VERSION_TEXT: &str = "0.4.0 (rules: edition 2, and 1; reads Go 1.0 to 1.25)";

/// The name of the option for a list, by which it is told that words of packages may be left out.
const LIST_ID: &str = "packages";

/// The name of the option for certificates, by which it is told what does not go with it.
const CERT_ID: &str = "cert";

/// The words that the program understands.
fn command<'a>(alloc: Global) -> Result<Command<'a>, AllocError> {
    Command::new(alloc, "ctxvet")
        .about(ABOUT)
        .version(VERSION_TEXT)
        .after_help(AFTER)
        .bin_name("ctxvet")?
        .no_binary_name(true)
        .subcommand_required(true)
        .arg_required_else_help(true)
        .subcommand(check_command(alloc)?)?
        .subcommand(verify_command(alloc)?)
}

/// The words behind `check`.
fn check_command<'a>(alloc: Global) -> Result<Command<'a>, AllocError> {
    let check = Command::new(alloc, CHECK_WORD)
        .about(CHECK)
        .after_help(AFTER_CHECK)
        .arg(workers_option(alloc))?
        .arg(file(alloc).value_name("OUT").help(OUT))?
        .arg(why_option(alloc)?)?
        .arg(facts_option(alloc))?
        .arg(library_option(alloc))?
        .arg(baseline_option(alloc))?;
    report_options(alloc, check)
}

/// The words behind `verify`.
fn verify_command<'a>(alloc: Global) -> Result<Command<'a>, AllocError> {
    let verify = Command::new(alloc, VERIFY_WORD)
        .about(VERIFY)
        .after_help(AFTER_VERIFY)
        .arg(file(alloc).value_name("IN").help(IN).required(true))?
        .arg(facts_option(alloc))?
        .arg(library_option(alloc))?;
    report_options(alloc, verify)
}

/// The command, and with it the words that both commands have: how the report is told, and of which packages.
fn report_options<'a>(alloc: Global, command: Command<'a>) -> Result<Command<'a>, AllocError> {
    command
        .arg(list_option(alloc))?
        .arg(format_option(alloc))?
        .arg(accepted_option(alloc))?
        .arg(quiet_option(alloc))?
        .arg(edition_option(alloc))?
        .arg(package(alloc)?)
}

/// The option that says how many workers there are.
fn workers_option<'a>(alloc: Global) -> Arg<'a> {
    Arg::new(alloc, "workers")
        .short('j')
        .value_name("N")
        .help(WORKERS)
        .value_parser(ValueParser::unsigned(1, MOST_WORKERS as u64))
        .action(ArgAction::Set)
}

/// The option that names a file of certificates.
fn file<'a>(alloc: Global) -> Arg<'a> {
    Arg::new(alloc, CERT_ID)
        .long(CERT_ID)
        .action(ArgAction::Set)
}

/// The option by which the report says why, which does not go with certificates.
fn why_option<'a>(alloc: Global) -> Result<Arg<'a>, AllocError> {
    Arg::new(alloc, "why")
        .long("why")
        .help(WHY)
        .action(ArgAction::SetTrue)
        .conflicts_with(CERT_ID)
}

/// The option that names a file of declared facts.
fn facts_option<'a>(alloc: Global) -> Arg<'a> {
    Arg::new(alloc, "facts")
        .long("facts")
        .value_name("FILE")
        .help(FACTS)
        .action(ArgAction::Set)
}

/// The option by which nothing is known of Go's library but what is given and declared.
fn library_option<'a>(alloc: Global) -> Arg<'a> {
    Arg::new(alloc, "no-std-facts")
        .long("no-std-facts")
        .help(NO_LIBRARY)
        .action(ArgAction::SetTrue)
}

/// The option that names an earlier report.
fn baseline_option<'a>(alloc: Global) -> Arg<'a> {
    Arg::new(alloc, "baseline")
        .long("baseline")
        .value_name("FILE")
        .help(BASELINE)
        .action(ArgAction::Set)
}

/// The option by which accepted findings are told too.
fn accepted_option<'a>(alloc: Global) -> Arg<'a> {
    Arg::new(alloc, "accepted")
        .long("accepted")
        .help(ACCEPTED)
        .action(ArgAction::SetTrue)
}

/// The option by which lines of packages without findings are left out.
fn quiet_option<'a>(alloc: Global) -> Arg<'a> {
    Arg::new(alloc, "quiet")
        .long("quiet")
        .help(QUIET)
        .action(ArgAction::SetTrue)
}

/// The option that names a list of packages.
fn list_option<'a>(alloc: Global) -> Arg<'a> {
    Arg::new(alloc, LIST_ID)
        .long(LIST_ID)
        .value_name("FILE")
        .help(LIST)
        .action(ArgAction::Set)
}

/// The option that says in which form the report is written.
fn format_option<'a>(alloc: Global) -> Arg<'a> {
    Arg::new(alloc, "format")
        .long("format")
        .value_name("FORMAT")
        .help(FORMAT)
        .value_parser(ValueParser::Names(FORMATS))
        .hide_possible_values(true)
        .action(ArgAction::Set)
}

/// The option that says by which edition of the rules packages are judged.
fn edition_option<'a>(alloc: Global) -> Arg<'a> {
    Arg::new(alloc, "edition")
        .long("edition")
        .value_name("N")
        .help(EDITION)
        .value_parser(ValueParser::unsigned(FIRST_EDITION, LAST_EDITION))
        .action(ArgAction::Set)
}

/// The words of packages, at least one where no list of packages is named.
fn package<'a>(alloc: Global) -> Result<Arg<'a>, AllocError> {
    Arg::new(alloc, "package")
        .value_name("PATH=DIR")
        .help(PACKAGE)
        .num_args(1..)
        .action(ArgAction::Append)
        .required_unless_present(LIST_ID)
}

/// That the library understands the words, those after the program's name, and they ask for no help.
///
/// # Errors
///
/// The words are no command, they ask for help or the version, or memory was refused.
pub fn understood<S: AsStr>(alloc: Global, words: &[S]) -> Result<(), Error> {
    command(alloc)?.try_get_matches_from(words)?;
    Ok(())
}
