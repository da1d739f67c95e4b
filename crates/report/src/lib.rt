//! What is said of packages: diagnostics, their order, and notes on them; and how a text is put into whatever takes
//! bytes.
#![tactic(auto)]

mod codes;
mod cursors;
mod diagnostics;
mod format;
mod notes;
mod pieces;
mod sinks;

pub use codes::{DiagnosticCode, TextFault, TreeFault, Wording};
pub use cursors::{Cursor, first_byte, moved};
pub use diagnostics::{Diagnostic, PackageReport, in_order, names_in_order};
pub use format::Format;
pub use notes::{ExplainedDiagnostic, ExplainedPackage, Note, NoteText};
pub use pieces::{TextPiece, put_pieces};
pub use sinks::{PutFault, Sink, WriteFault, put_all};
