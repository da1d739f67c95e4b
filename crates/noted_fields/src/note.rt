//! What one place says of a field.

/// What is said of the fields of a name.
#[derive(Clone, Copy)]
pub enum Note<'a> {
    /// A body calls one.
    Called(&'a str),
    /// A cancel function is put into one.
    Put(&'a str),
    /// One gets something else.
    Spoiled(&'a str),
    /// The name may be a field's: it is assigned to, or is the key of an element.
    Filled(&'a str),
    /// The name is a method's.
    Method(&'a str),
}
