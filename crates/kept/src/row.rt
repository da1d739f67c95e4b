//! What is kept in a field.

ghost use Rattle.std.specs.Prelude.{◌≡◌};
ghost use Rattle.kept.specs.KeptViews.{keep_view, listed_keep};
ghost use Rattle.meaning.specs.Kept.{agrees, is_same_place, kept_in};

/// What the variable holds is kept in the field of the object; both are told by their numbers.
#[derive(Clone, Copy)]
pub struct Keep<'a> {
    pub variable: u32,
    pub object: u32,
    pub field: &'a str,
}

/// What is kept in that field of the object, if there is a variable and an object.
pub fn kept_in<'a>(variable: Option<u32>, object: Option<u32>, field: &'a str) -> Option<Keep<'a>>
    ensures { listed_keep result ≡ kept_in variable object field.now }
{
    match (variable, object) {
        (Some(variable), Some(object)) => Some(Keep {
            variable,
            object,
            field,
        }),
        _ => None,
    }
}

/// Whether both are kept in one field of one object.
pub fn is_same_place(left: Keep<'_>, right: Keep<'_>) -> bool
    ensures { result ≡ is_same_place (keep_view left.entry) (keep_view right.entry) }
{
    left.object == right.object && left.field == right.field
}

/// Whether both are of one variable in one field, or neither of one variable nor in one field.
pub fn agrees(left: Keep<'_>, right: Keep<'_>) -> bool
    ensures { result ≡ agrees (keep_view left.entry) (keep_view right.entry) }
{
    if left.variable == right.variable {
        is_same_place(left, right)
    } else {
        !is_same_place(left, right)
    }
}
