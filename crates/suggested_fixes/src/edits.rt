//! Changes of a text.

ghost use Rattle.std.specs.Prelude.{◌≡◌, length};
ghost use Rattle.suggested_fixes.specs.Edits.{are_within, is_within};

/// A change of a text: what stands from the byte offset `start` on and before `end` gives way to another text.
#[derive(Debug, Drop)]
pub struct Edit {
    pub start: u32,
    pub end: u32,
    pub new: String,
}

/// What a fix is for.
#[derive(Clone, Copy, Debug)]
pub enum FixKind {
    /// A cancel function that has a name is not called on every path to a return.
    Named,
    /// A cancel function has no name.
    Blank,
}

/// What to change in a file, for all findings of this kind and name that stand there from one offset to another, both
/// included.
#[derive(Debug, Drop)]
pub struct Fix {
    /// The file's name.
    pub file: String,
    pub kind: FixKind,
    /// The name of which the findings speak.
    pub name: String,
    pub from: u32,
    pub to: u32,
    /// The edits in the order of the text. No two of them meet.
    pub edits: Vec<Edit>,
}

/// Whether the edit lies within a text of so many bytes.
fn is_within(size: usize, edit: &Edit) -> bool
    ensures { result ≡ is_within size edit.now }
{
    edit.start <= edit.end && edit.end as usize <= size
}

/// Whether all of them do.
pub fn are_within(size: usize, edits: &[Edit]) -> bool
    ensures { result ≡ are_within size edits.now }
{
    for edit in edits {
        if !is_within(size, edit) {
            return false;
        }
    }
    true
}
