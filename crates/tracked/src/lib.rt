//! Which locals of a file's bodies are tracked and as what, by the rows that bind them (`tracked_rows`). The
//! definitions are those of `meaning/specs/Tracked.antt`, and what stands before the bindings in
//! `meaning/specs/Uses.antt`.
#![tactic(auto)]

mod around;
mod bound;
mod declared;
mod kinds;
pub mod local;
mod noted;
pub mod object_rows;
pub mod obtainings;
mod seen;
mod table;
mod unbound;

pub use around::enter;
pub use bound::{is_cancel, kind_at, row_binds};
pub use declared::declared_by;
pub use kinds::{kind, may_be_tracked, tracked_kind};
pub use local::{Local, LocalRole, SeenLocal};
pub use noted::variable_of;
pub use object_rows::{ObjectKind, ObjectRow, first_place};
pub use obtainings::{Obtaining, Obtainings, type_from, type_given};
pub use seen::{Seen, look};
pub use table::{Entries, Locals};
pub use unbound::{Objects, objects_in};
