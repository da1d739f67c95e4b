//! Where `check` and `verify` agree: the least certificates, which `check` makes, are believed by `verify` exactly
//! where `check` has nothing to say. It runs nothing.

ghost use Rattle.judge.specs.AgreementLaws.{LeastCertificatesAreBelieved, WhatIsBelievedHasNoFinding};
ghost use Rattle.judge.specs.PackageLaws.{ReportsAgree};
ghost use Rattle.judge.specs.CertificateLaws.{CertificatesAgree};
ghost use Rattle.judge.specs.FullCredits.{YesWithFullCreditsIsYes};
ghost use Rattle.judge.specs.GivenPackages.{FullCreditsAreBelieved, WrittenCertificatesAreBelieved};
ghost use Rattle.judge.specs.OwnGroups.{StartsHaveOwnGroups};

/// Each group in which a node of a body starts a literal is one of the body's variables.
pub fn starts_have_own_groups()
    ensures { StartsHaveOwnGroups }
{}

/// Where `check` finds nothing in a file, its least certificates are believed: `verify` relies on the same literals,
/// and says nothing of the file.
pub fn least_certificates_are_believed()
    ensures { LeastCertificatesAreBelieved }
{
    verifier::credits_are_fair();
    verifier::nothing_is_found();
}

/// Where `verify` says nothing of a file by its least certificates, `check` finds nothing in it.
pub fn what_is_believed_has_no_finding()
    ensures { WhatIsBelievedHasNoFinding }
{
    verifier::credits_are_fair();
    verifier::nothing_is_found();
}

/// Where what is given for each package of texts is what `check` makes of it, the reports of both say yes of the same
/// packages, and know the same of their functions.
pub fn reports_agree()
    ensures { ReportsAgree }
{
    meaning_runs::bodies_are_apart();
    verifier::credits_are_fair();
    verifier::nothing_is_found();
}

/// By the certificates that `check` makes of packages of texts, the reports of both say yes of the same packages, and
/// know the same of their functions.
pub fn certificates_agree()
    ensures { CertificatesAgree }
{
    meaning_runs::bodies_are_apart();
    verifier::credits_are_fair();
    verifier::nothing_is_found();
}

/// Where certificates hold, whichever they are, and rely on all that may be relied on of literals, in a package and in
/// every given package below it, `check` says yes of the package too.
pub fn yes_with_full_credits_is_yes()
    ensures { YesWithFullCreditsIsYes }
{
    meaning_runs::bodies_are_apart();
    verifier::claims_are_consistent();
    verifier::nothing_is_found();
}

/// The same of the bytes of files, and of the reports that `check` and `verify` make of them.
pub fn full_credits_are_believed()
    ensures { FullCreditsAreBelieved }
{
    meaning_runs::bodies_are_apart();
    verifier::claims_are_consistent();
    verifier::nothing_is_found();
}

/// By the certificates that `check` writes of given packages, `verify` says yes of exactly the packages of which
/// `check` does.
pub fn written_certificates_are_believed()
    ensures { WrittenCertificatesAreBelieved }
{
    meaning_runs::bodies_are_apart();
    verifier::credits_are_fair();
    verifier::nothing_is_found();
    all_certificates::certificates_read_back();
}
