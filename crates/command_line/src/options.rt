//! The options of a command, and the words that have them.

ghost use Rattle.std.specs.Prelude.{◌≡◌, option_map};
ghost use Rattle.command_line.specs.Words.{baseline_option_in, number_in, number_option_in, option_in, run_option_in, option_of, switch_of};

/// An option that has a value: the word behind it, or what stands behind `=` in its own word.
#[derive(Clone, Copy, Debug)]
pub enum ValueOption {
    /// `--cert`: the file of certificates.
    Certificates,
    /// `--facts`: the file of declared facts.
    Facts,
    /// `--baseline`: the report of an earlier run, whose findings are accepted.
    Baseline,
    /// `--packages`: the list of packages.
    PackageList,
    /// `--format`: in which form the report is written.
    ReportFormat,
    /// `--edition`: by which edition of the rules the packages are judged.
    EditionNumber,
    /// `-j`: how many workers there are. Its value may also stand straight behind it.
    WorkerCount,
}

/// An option that has no value.
#[derive(Clone, Copy, Debug)]
pub enum Switch {
    /// `--why`: the report says why each finding stands there.
    Reasons,
    /// `--accepted`: accepted findings are told too.
    Accepted,
    /// `--quiet`: lines of packages without findings are left out.
    Quiet,
    /// `--no-std-facts`: nothing is known of Go's library but what is given and declared.
    WithoutLibrary,
}

/// The option that the word is, whose value is the word behind it.
pub fn option_of(word: &str) -> Option<ValueOption>
    ensures { result ≡ option_of word.now }
{
    if word == "--cert" {
        Some(ValueOption::Certificates)
    } else if word == "--facts" {
        Some(ValueOption::Facts)
    } else if word == "--baseline" {
        Some(ValueOption::Baseline)
    } else if word == "--packages" {
        Some(ValueOption::PackageList)
    } else if word == "--format" {
        Some(ValueOption::ReportFormat)
    } else if word == "--edition" {
        Some(ValueOption::EditionNumber)
    } else if word == "-j" {
        Some(ValueOption::WorkerCount)
    } else {
        None
    }
}

/// The option without a value that the word is.
pub fn switch_of(word: &str) -> Option<Switch>
    ensures { result ≡ switch_of word.now }
{
    if word == "--why" {
        Some(Switch::Reasons)
    } else if word == "--accepted" {
        Some(Switch::Accepted)
    } else if word == "--quiet" {
        Some(Switch::Quiet)
    } else if word == "--no-std-facts" {
        Some(Switch::WithoutLibrary)
    } else {
        None
    }
}

/// The option that the word has with its value in itself, and that value.
pub fn option_in(word: &str) -> Option<(ValueOption, &str)>
    ensures { option_map (λ held. (held.0, held.1.now)) result ≡ option_in word.now }
{
    if let Some(file) = word.strip_prefix("--cert=") {
        Some((ValueOption::Certificates, file))
    } else if let Some(file) = word.strip_prefix("--facts=") {
        Some((ValueOption::Facts, file))
    } else {
        baseline_option_in(word)
    }
}

/// The same of an earlier report, a list of packages, a format or a number.
fn baseline_option_in(word: &str) -> Option<(ValueOption, &str)>
    ensures { option_map (λ held. (held.0, held.1.now)) result ≡ baseline_option_in word.now }
{
    if let Some(file) = word.strip_prefix("--baseline=") {
        Some((ValueOption::Baseline, file))
    } else {
        run_option_in(word)
    }
}

/// The same of a list of packages, a format or a number.
fn run_option_in(word: &str) -> Option<(ValueOption, &str)>
    ensures { option_map (λ held. (held.0, held.1.now)) result ≡ run_option_in word.now }
{
    if let Some(file) = word.strip_prefix("--packages=") {
        Some((ValueOption::PackageList, file))
    } else if let Some(format) = word.strip_prefix("--format=") {
        Some((ValueOption::ReportFormat, format))
    } else {
        number_option_in(word)
    }
}

/// The same of the number of an edition or of workers.
fn number_option_in(word: &str) -> Option<(ValueOption, &str)>
    ensures { option_map (λ held. (held.0, held.1.now)) result ≡ number_option_in word.now }
{
    if let Some(number) = word.strip_prefix("--edition=") {
        Some((ValueOption::EditionNumber, number))
    } else {
        Some((ValueOption::WorkerCount, number_in(word)?))
    }
}

/// The number that stands in a word behind `-j`, or behind `-j=`.
fn number_in(word: &str) -> Option<&str>
    ensures { option_map (λ number. number.now) result ≡ number_in word.now }
{
    match word.strip_prefix("-j=") {
        Some(number) => Some(number),
        None => word.strip_prefix("-j"),
    }
}
