//! Parts of bodies.

ghost use Rattle.std.specs.Prelude.{◌≡◌};
ghost use Rattle.body_parts.specs.PartViews.{part_view, is_wanted};

use tree::Decl;

/// A part of a body, by the byte offset of its first token.
#[derive(Clone, Copy)]
pub enum Part<'a> {
    Declaration(&'a Decl),
    Return(u32),
    Goto(u32),
    /// Another simple statement, a header or a clause.
    Plain(u32),
}

/// Which parts are wanted.
#[derive(Clone, Copy)]
pub enum Wanted {
    All,
    Jumps,
}

/// Whether the part is wanted.
pub fn is_wanted(wanted: Wanted, part: Part<'_>) -> bool
    ensures { result ≡ is_wanted wanted (part_view part.entry) }
{
    match wanted {
        Wanted::All => true,
        Wanted::Jumps => is_jump(part),
    }
}

fn is_jump(part: Part<'_>) -> bool
    ensures { result ≡ Rattle.body_parts.specs.PartViews.is_jump (part_view part.entry) }
{
    match part {
        Part::Declaration(_) => false,
        Part::Return(_) => false,
        Part::Goto(_) => true,
        Part::Plain(_) => false,
    }
}
