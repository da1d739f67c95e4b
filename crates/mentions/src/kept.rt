//! The marks of a file while they are made, and the arena in which what they refer to stands.

ghost use Rattle.std.specs.Prelude.{◌≡◌, [], ◌∷◌, IfOk, OnOk, option_map};
ghost use Rattle.mentions.specs.MarkViews.{Adds, named_view, row_view, call_view, optional_call, body_view, field_mark_view, mark_view};

use crate::mark::{BodyPlace, Call, FieldMark, Mark, Named, Row};
use bumpalo::Bump;
use std::alloc::AllocError;

/// The marks so far. Rows, calls, bodies and what is asked of fields stand in the arena, each once, whatever number of
/// marks refers to it.
#[derive(Drop)]
pub struct Marks<'m, 'a> {
    pub arena: &'m Bump,
    pub list: Vec<Mark<'m, 'a>>,
}

impl<'m, 'a> Marks<'m, 'a> {
    /// Adds a mark.
    ///
    /// # Errors
    ///
    /// Memory was refused.
    pub fn push(&mut self, mark: Mark<'m, 'a>) -> Result<(), AllocError>
        ensures { OnOk result (Adds self.old.list.items self.new.list.items (mark_view mark.entry ∷ [])) }
    {
        self.list.push(mark)?;
        Ok(())
    }

    /// Keeps a row.
    ///
    /// # Errors
    ///
    /// Memory was refused.
    pub fn keep_row(&self, row: Row<'a>) -> Result<&'m Row<'a>, AllocError>
        ensures { IfOk result (λ kept. row_view kept.now ≡ row_view row.entry) }
    {
        let arena = self.arena;
        let kept = arena.try_alloc(row)?;
        Ok(kept)
    }

    /// Keeps a call, if there is one.
    ///
    /// # Errors
    ///
    /// Memory was refused.
    pub fn keep_call(
        &self,
        call: Option<Call<'m, 'a>>,
    ) -> Result<Option<&'m Call<'m, 'a>>, AllocError>
        ensures { IfOk result (λ kept. optional_call kept ≡ option_map call_view call.entry) }
    {
        let arena = self.arena;
        match call {
            Some(call) => {
                let kept = arena.try_alloc(call)?;
                Ok(Some(kept))
            }
            None => Ok(None),
        }
    }

    /// Keeps a body.
    ///
    /// # Errors
    ///
    /// Memory was refused.
    pub fn keep_body(&self, body: BodyPlace<'a>) -> Result<&'m BodyPlace<'a>, AllocError>
        ensures { IfOk result (λ kept. body_view kept.now ≡ body_view body.entry) }
    {
        let arena = self.arena;
        let kept = arena.try_alloc(body)?;
        Ok(kept)
    }
    /// Keeps a name.
    ///
    /// # Errors
    ///
    /// Memory was refused.
    pub fn keep_named(&self, named: Named<'a>) -> Result<&'m Named<'a>, AllocError>
        ensures { IfOk result (λ kept. named_view kept.now ≡ named_view named.entry) }
    {
        let arena = self.arena;
        let kept = arena.try_alloc(named)?;
        Ok(kept)
    }

    /// Keeps what is asked of a field, or given to others.
    ///
    /// # Errors
    ///
    /// Memory was refused.
    pub fn keep_field(&self, field: FieldMark<'m, 'a>) -> Result<&'m FieldMark<'m, 'a>, AllocError>
        ensures { IfOk result (λ kept. field_mark_view kept.now ≡ field_mark_view field.entry) }
    {
        let arena = self.arena;
        let kept = arena.try_alloc(field)?;
        Ok(kept)
    }
}
