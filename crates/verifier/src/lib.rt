//! What `verify` says of the files of a package, by certificates that somebody gives. The rules are those of
//! `specs/Verified.antt`.
#![tactic(auto)]

ghost use Rattle.verifier.specs.VerifierLaws.{ClaimsAreConsistent, NothingIsFound, CreditsAreFair, FlagsAreDetermined, YesOfVerifiedIsQuiet};

mod bare_files;
mod body_claims;
mod by_certificates;
mod certified;
mod claimed;
mod first;
mod given;
mod relied;
mod rules;
mod said;
mod settled;

pub use by_certificates::ByCertificates;

/// Where nothing is said of the files of a package, its flags are consistent.
pub fn claims_are_consistent()
    ensures { ClaimsAreConsistent }
{}

/// Where nothing is said of a file, nothing is found in it: no path of a body has a fault.
pub fn nothing_is_found()
    ensures { NothingIsFound }
{}

/// What is relied on of literals by their certificates holds.
pub fn credits_are_fair()
    ensures { CreditsAreFair }
{}

/// A package has one way to have flags by certificates, so packages have one report by them.
pub fn flags_are_determined()
    ensures { FlagsAreDetermined }
{}

/// What a yes by certificates promises: where a report by them says nothing of a package, each of its returns is quiet,
/// in every run.
pub fn yes_of_verified_is_quiet()
    ensures { YesOfVerifiedIsQuiet }
{}
