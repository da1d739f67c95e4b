//! The fields that keep cancel functions, and the left sides `x.f` into which makers and givers give what they keep.

ghost use Rattle.std.specs.Prelude.{◌≡◌, map, option_map};
ghost use Rattle.std.specs.List.{list_any};
ghost use Rattle.std.specs.Str.{bytes_eq};
ghost use Rattle.meaning.specs.Tracked.{has_field, may_be_field, some_keep};
ghost use Rattle.tracked_rows.specs.RowViews.{fields_view, object_left_view, left_among};

/// The fields of a package that keep cancel functions.
#[derive(Clone, Copy)]
pub enum Fields<'k, 'a> {
    /// Each field is taken for one, where it is asked which are.
    Each,
    These {
        keeping: &'k [&'a str],
        /// The names of those that are assigned to, or are keys of elements.
        filled: &'k [&'a str],
    },
}

/// A left side `x.f` into which a maker or giver gives what the field keeps.
#[derive(Clone, Copy)]
pub enum ObjectLeft {
    /// x is an object that others hold.
    Outer,
    /// x is a new object, the local `object`, and `x.f` a variable of its own, of that number.
    New { object: u32, number: u32 },
}

/// Such a left side, by the offset of f.
#[derive(Clone, Copy)]
pub struct PlacedLeft {
    pub at: u32,
    pub left: ObjectLeft,
}

fn is_among(names: &[&str], name: &str) -> bool
    ensures { result ≡ list_any (λ f. bytes_eq f name.now) (map (λ f. f.now) names.now) }
{
    for field in names {
        if *field == name {
            return true;
        }
    }
    false
}

/// Whether the field of that name keeps.
pub fn has_field(fields: Fields<'_, '_>, name: &str) -> bool
    ensures { result ≡ has_field (fields_view fields.entry) name.now }
{
    match fields {
        Fields::Each => true,
        Fields::These { keeping, .. } => is_among(keeping, name),
    }
}

/// Whether the name may be a field's, and no method's.
pub fn may_be_field(fields: Fields<'_, '_>, name: &str) -> bool
    ensures { result ≡ may_be_field (fields_view fields.entry) name.now }
{
    match fields {
        Fields::Each => true,
        Fields::These { keeping, filled } => is_among(keeping, name) || is_among(filled, name),
    }
}

/// Whether some field keeps.
pub fn some_keep(fields: Fields<'_, '_>) -> bool
    ensures { result ≡ some_keep (fields_view fields.entry) }
{
    match fields {
        Fields::Each => true,
        Fields::These { keeping, .. } => !keeping.is_empty(),
    }
}

/// The one of these left sides of which f has that offset.
pub fn left_among(lefts: &[PlacedLeft], at: u32) -> Option<ObjectLeft>
    ensures { option_map object_left_view result ≡ left_among lefts.now at }
{
    for placed in lefts {
        if placed.at == at {
            return Some(placed.left);
        }
    }
    None
}
