//! What a report says of the program.

/// The version of the program, as `ctxvet --version` prints it. `.ci/texts` holds both to each other.
pub const VERSION: &str = "0.4.0";

/// Where more stands about the program, for whoever sets it; a report says nothing of it where it is empty.
pub const INFORMATION_URI: &str = "";
