//! The marks of a file.

use tree::{DeclKeyword, Expr, Identifier, Param, Signature, Span, Stmt};

/// A name, or a name with another one after a dot: `n`, `n.m`.
#[derive(Clone, Copy)]
pub struct Named<'a> {
    pub name: &'a str,
    /// The offset of n.
    pub at: u32,
    pub selected: Option<&'a str>,
}

/// How left sides and values are written.
#[derive(Clone, Copy)]
pub enum RowForm<'a> {
    /// `names := values`.
    Defines(&'a [Identifier]),
    /// `left = values`.
    Assigns(&'a [Expr]),
    /// `keyword names Type = values`.
    Declares(DeclKeyword, &'a [Identifier], &'a Option<Box<Expr>>),
}

/// How a statement stands.
#[derive(Clone, Copy)]
pub enum Standing {
    Ordinary,
    /// It is the first statement of a `for`.
    FirstOfFor,
    /// A clause of a `select` waits for it.
    Communication,
}

/// Left sides and values of one statement or spec.
#[derive(Clone, Copy)]
pub struct Row<'a> {
    pub form: RowForm<'a>,
    pub values: &'a [Expr],
    /// The offset of the first token of its statement.
    pub statement: u32,
    pub standing: Standing,
}

/// Where an expression stands as a whole.
#[derive(Clone, Copy)]
pub enum CallPlace<'m, 'a> {
    Nowhere,
    Statement,
    /// It is the only value of a row.
    OnlyValue(&'m Row<'a>),
    /// It is the item of that number of a return list.
    ReturnItem(usize),
    Deferred,
    UnderGo,
}

/// A call of `n` or `n.m`.
#[derive(Clone, Copy)]
pub struct Call<'m, 'a> {
    pub callee: Named<'a>,
    pub arguments: &'a [Expr],
    /// Whether `...` stands after the last argument.
    pub has_ellipsis: bool,
    pub place: CallPlace<'m, 'a>,
}

/// How a function literal is used.
#[derive(Clone, Copy)]
pub enum LiteralUse<'a> {
    Other,
    /// `defer func(..) { .. }(..)`.
    DeferredCall,
    /// `go func(..) { .. }(..)`.
    CallUnderGo,
    /// It is the argument of this, `g.Go` or `g.TryGo`.
    StartedBy(Named<'a>),
}

/// What a place asks of a name.
#[derive(Clone, Copy)]
pub enum Role<'m, 'a> {
    Elsewhere,
    /// n as key of an element of a composite literal.
    Key,
    /// n where no row declares it, or where it may get another value, and is no whole left side of a row.
    Exposed,
    /// n of `&n` that is no argument.
    PointedTo,
    /// n of `n == nil` or `n != nil`, once more at the brace at which it is known to be nil; with the offset of `nil`.
    FoundNil(u32),
    /// The same where it is known not to be nil, behind a row.
    FoundError(u32, &'m Row<'a>),
    /// n in `n(..)`, n.m in `n.m(..)`.
    Called(&'m Call<'m, 'a>),
    /// The same in brackets.
    CalledInBrackets,
    /// Whether `&` stands before n or n.m, which is the argument of that number. The truth value stands first, beside
    /// the tag, so that the role takes 24 bytes.
    Argument(bool, usize, &'m Call<'m, 'a>),
    /// n as item of that number of a return list.
    Returned(usize),
    /// n as left side of that number.
    Left(usize, &'m Row<'a>),
    /// The type of a row's names.
    NamesType(&'m Row<'a>),
    /// T of `&T{}`, the only value of a row.
    NewLiteral(&'m Row<'a>),
    /// T of a parameter's type `*T`.
    ParameterPointer,
}

/// A name at its place.
#[derive(Clone, Copy)]
pub struct Mention<'m, 'a> {
    pub named: Named<'a>,
    pub role: Role<'m, 'a>,
    /// The offset of its statement, spec, header or clause.
    pub site: u32,
    /// The number of the local that the name declares there, unless it means one that is declared already.
    pub declares: Option<u32>,
}

/// A function or method with a block, or a function literal, which has no name.
#[derive(Clone, Copy)]
pub struct BodyPlace<'a> {
    /// The offset of `func`.
    pub at: u32,
    pub name: Option<&'a Identifier>,
    pub receiver: Option<&'a [Param]>,
    pub signature: &'a Signature,
    pub statements: &'a [Stmt],
    pub braces: Span,
    pub literal: LiteralUse<'a>,
}

/// A left side `e.f`, in brackets or not.
#[derive(Clone, Copy)]
pub struct FieldLeft<'a> {
    pub field: &'a Identifier,
    /// n, where it is `n.f`, or `(n).f`, `(*n).f` or `(&n).f`.
    pub object: Option<Named<'a>>,
    /// Round it, or round what stands before its dot.
    pub has_brackets: bool,
}

/// The left side of that number of a row.
#[derive(Clone, Copy)]
pub struct Assigned<'m, 'a> {
    pub left_side: usize,
    pub row: &'m Row<'a>,
}

/// Who gets what stands at a place. It takes 24 bytes, since each spot has one.
#[derive(Clone, Copy)]
pub enum Taker<'m, 'a> {
    Nobody,
    /// The function that is called, as its name says, if it has one.
    CalledFunction(Option<&'m Call<'m, 'a>>),
    /// `append`, of which the value goes to someone.
    Appending(&'m Named<'a>),
    /// The method of that name, under `go` or `defer`.
    Method(&'a str),
    /// Whoever reads a channel, or a place that is no name, or a goroutine.
    Someone,
}

/// What a place asks of a field, or gives to others.
#[derive(Clone, Copy)]
pub enum FieldMark<'m, 'a> {
    /// `e.f(..)`.
    CallsField(&'a str),
    /// `e.f` gets a value: by a row, or otherwise.
    WritesField {
        left: FieldLeft<'a>,
        assigned: Option<Assigned<'m, 'a>>,
    },
    /// The expression is given to the taker.
    HandsOver {
        taker: Taker<'m, 'a>,
        value: &'a Expr,
    },
    /// So is the literal at that offset, with what it mentions.
    HandsLiteral {
        taker: Taker<'m, 'a>,
        at: u32,
    },
    /// A clause makes the local of that number anew.
    Renews(u32),
    /// An import of the file brings names that aren't written.
    ImportsAll,
}

/// When a literal runs that a statement calls: at the return, or in a goroutine of its own.
#[derive(Clone, Copy)]
pub enum Moment {
    AtReturn,
    InGoroutine,
}

/// What stands in a file, in the order in which its statements do what they say. A mark takes 96 bytes, since rows,
/// calls, bodies and what is asked of fields stand in an arena.
#[derive(Clone, Copy)]
pub enum Mark<'m, 'a> {
    Mentions(Mention<'m, 'a>),
    /// What is asked of a field, or given to others, with its site.
    OfFields(u32, &'m FieldMark<'m, 'a>),
    /// A literal is called under `defer` or `go`: the offsets of the statement and of the literal.
    RunsLiteral(Moment, u32, u32),
    /// A return, its offset and its items.
    Returns(u32, &'a [Expr]),
    /// From here to the mark that closes it all stands in the body.
    Opens(&'m BodyPlace<'a>),
    Closes,
}

/// Which argument of its call an expression is.
#[derive(Clone, Copy)]
pub struct Position {
    pub index: usize,
    pub is_last: bool,
}

/// Where an expression stands: as a whole, how it is used and who gets it if it is a literal, and the offset of its
/// site.
#[derive(Clone, Copy)]
pub struct Spot<'m, 'a> {
    pub place: CallPlace<'m, 'a>,
    pub literal: LiteralUse<'a>,
    pub taker: Taker<'m, 'a>,
    pub site: u32,
}
