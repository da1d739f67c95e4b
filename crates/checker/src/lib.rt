//! Whether a certificate of a body holds. A certificate is rows of masks, a row for each node in the order of the text
//! and a mask for each variable. Nothing is solved, and no memory is taken for that. The definitions are those of
//! `specs/Certificates.antt`.
#![tactic(auto)]

ghost use Rattle.checker.specs.CheckerLaws.{LeavesNoFault, KeepsClaims, SettlesWhatItSays};

mod certificate;
mod claims;
mod classes;
mod edges;
mod entry;
mod faults;
mod laid_out;
mod loaded;
mod rows;
mod settled;

pub use certificate::holds;
pub use claims::{Claims, NoClaims};
pub use laid_out::{LaidOut, Numbers, groups_of_bits, lay_out};
pub use settled::settles;

/// No list of a body with a certificate that holds comes to a fault of a path.
pub fn certificates_leave_no_fault()
    ensures { LeavesNoFault }
{}

/// Where a certificate holds, each parameter of which it is claimed has been called at each return.
pub fn certificates_keep_claims()
    ensures { KeepsClaims }
{}

/// What a certificate that holds leaves settled at each return is settled there.
pub fn certificates_settle()
    ensures { SettlesWhatItSays }
{}
