//! What a body does to its tracked variables: the events, and the functions that they name.

ghost use Rattle.std.specs.Prelude.{◌≡◌, option_map};
ghost use Rattle.meaning.specs.Uses.{last_name, path_meant, callee_of};
ghost use Rattle.tracked_rows.specs.EventViews.{callee_view};
ghost use Rattle.mentions.specs.MarkViews.{named_view};
ghost use Rattle.names.specs.Answers.{decl_view};
ghost use Rattle.tracked_rows.specs.RowViews.{known_view};

use crate::known::{Known, meaning};
use crate::makings::GroupState;
use mentions::Named;
use names::NameMeaning;

/// A function, of the import of that path, or of this package.
#[derive(Clone, Copy)]
pub struct Callee<'a> {
    pub path: Option<&'a str>,
    pub name: &'a str,
}

/// A variable that a return hands on, and the position of its item.
#[derive(Clone, Copy)]
pub struct Handed {
    pub number: u32,
    pub position: usize,
    /// The object in which it is kept, if it is that which the item names.
    pub object: Option<u32>,
}

/// A variable that a function under `go` gets, and the position of the argument.
#[derive(Clone, Copy)]
pub struct Sent {
    pub number: u32,
    pub position: usize,
}

/// A variable, with the offset of its name where it is bound or passed: there a fault of a path stands.
#[derive(Clone, Copy)]
pub struct VariableAt {
    pub number: u32,
    pub at: u32,
}

/// What a mention, a return or a literal under `defer` or `go` does. Variables are named by their numbers.
#[derive(Drop)]
pub enum Event<'a> {
    /// The variable obtains the result of that number of the function, and whether it is declared there.
    Obtain {
        variable: VariableAt,
        source: Callee<'a>,
        result: usize,
        is_declared: bool,
    },
    Clear {
        variable: VariableAt,
    },
    Call {
        variable: u32,
    },
    DeferCall {
        variable: u32,
    },
    /// A field of the object is a variable of its own: it obtains what the field keeps from then on.
    ObtainKept {
        variable: VariableAt,
        source: Callee<'a>,
        result: usize,
        object: u32,
    },
    /// The declaration of an object is evaluated that keeps the variable in a field.
    Renew {
        variable: u32,
        object: u32,
    },
    /// A field of the object gets what the variable holds.
    Keep {
        variable: u32,
        object: u32,
    },
    /// The field is called.
    CallKept {
        variable: u32,
        object: u32,
    },
    /// The call of the field is saved.
    DeferKept {
        variable: u32,
        object: u32,
    },
    /// The object is given to others.
    Give {
        variable: u32,
        object: u32,
    },
    /// What the variable holds goes to others in a field.
    GiveField {
        variable: u32,
    },
    /// The variable is the function's argument at that position.
    Pass {
        variable: VariableAt,
        callee: Callee<'a>,
        position: usize,
    },
    DeferPass {
        variable: VariableAt,
        callee: Callee<'a>,
        position: usize,
    },
    Lend {
        group: u32,
        callee: Callee<'a>,
        position: usize,
    },
    /// With the offset of the literal that is started, if it is one.
    Start {
        group: u32,
        literal: Option<u32>,
    },
    /// A start that may do nothing.
    Try {
        group: u32,
        literal: Option<u32>,
    },
    Wait {
        group: u32,
    },
    DeferWait {
        group: u32,
    },
    Make {
        variable: VariableAt,
        state: GroupState,
    },
    /// The literal at the offset is called under `defer`.
    DeferLiteral {
        literal: u32,
    },
    /// What the variable holds is called under `go`.
    GoCall {
        variable: u32,
    },
    /// The function is called under `go`, with these variables.
    GoPass {
        callee: Callee<'a>,
        sent: Vec<Sent>,
    },
    /// The literal at the offset is called under `go`.
    GoLiteral {
        literal: u32,
    },
    Return {
        handed: Vec<Handed>,
    },
}

/// The last one of `n` and `n.m`.
pub fn last_name<'a>(named: Named<'a>) -> &'a str
    ensures { result.now ≡ last_name (named_view named.entry) }
{
    match named.selected {
        Some(member) => member,
        None => named.name,
    }
}

fn path_of<'a>(meaning: Option<NameMeaning<'a>>) -> Option<&'a str>
    ensures { option_map (λ p. p.now) result ≡ path_meant (option_map decl_view meaning.entry) }
{
    match meaning {
        Some(NameMeaning::Import(path)) => Some(path),
        _ => None,
    }
}

/// The function that is named.
pub fn callee_of<'a>(known: Known<'_, 'a>, named: Named<'a>) -> Callee<'a>
    ensures { callee_view result ≡ callee_of (known_view known.entry)
        (named_view named.entry) }
{
    Callee {
        path: path_of(meaning(known, named.at)),
        name: last_name(named),
    }
}
