//! The bodies of a file.

ghost use Rattle.std.specs.Prelude.{◌≡◌, ◌&&◌, ◌==◌, ℕ, IfOk, length, map, not};
ghost use Rattle.bodies.specs.Bodies.{is_unfollowed, IsGraphIf, TellsPlace, TellBodies};
ghost use Rattle.events.specs.ToldViews.{TellsFile};
ghost use Rattle.events.specs.VariableViews.{variable_view, ordered_in};
ghost use Rattle.meaning.specs.BodyEvents.{variables_of};
ghost use Rattle.meaning.specs.Uses.{Seen};
ghost use Rattle.mentions.specs.MarkViews.{body_view};

use crate::graph::{BodyGraph, ordered_graph};
use events::{Told, Variable, Variables, unfollowed};
use mentions::BodyPlace;
use std::alloc::{AllocError, Global};
use tree::Edition;

/// A body of a file that was told of: made once, and taken by whoever asks for its paths.
#[derive(Drop)]
pub struct Body<'e, 'a> {
    /// The number of its file in the package.
    pub file: usize,
    /// Where it stands, with its signature and its statements.
    pub place: BodyPlace<'a>,
    /// Its variables in their order, each with how it is declared.
    pub variables: Vec<Variable<'a>>,
    /// Its paths are not followed, and nothing is said of them: it has more cancel functions or groups than a body may
    /// have, or a `goto` beside one.
    pub is_unfollowed: bool,
    /// The edition by which its file is judged.
    pub edition: Edition,
    /// In the second edition the numbers of the locals to which it, or a literal in it, may give another value.
    pub bound: &'e [u32],
    /// The graph of its code, where it has a variable, and its paths are followed.
    pub graph: Option<BodyGraph<'e, 'a>>,
}

/// Whether the paths of the body at that place, with these variables, are not followed.
fn is_unfollowed<'a>(
    alloc: Global,
    variables: &[Variable<'a>],
    place: BodyPlace<'a>,
) -> Result<bool, AllocError>
    ensures { IfOk result (λ is. (seen : Seen)
        → map variable_view variables.now ≡ variables_of seen place.entry.at
        → is ≡ is_unfollowed seen (body_view place.entry)) }
{
    let faults = unfollowed(alloc, variables, place)?;
    Ok(!faults.is_empty())
}

/// Whether the paths of a body with these variables are judged: it has some, and its paths are followed.
fn has_paths(variables: &[Variable<'_>], is_unfollowed: bool) -> bool
    ensures { result ≡ (not (length variables.now == 0) && not is_unfollowed) }
{
    !variables.is_empty() && !is_unfollowed
}

/// The graph of the body at that place, if its paths are judged.
fn graph_if<'e, 'a>(
    alloc: Global,
    are_judged: bool,
    told: &'e Told<'a>,
    place: BodyPlace<'a>,
) -> Result<Option<BodyGraph<'e, 'a>>, AllocError>
    ensures { IfOk result (λ kept. IsGraphIf are_judged told.now (body_view place.entry) kept) }
{
    if !are_judged {
        return Ok(None);
    }
    let graph = ordered_graph(alloc, told, place)?;
    Ok(Some(graph))
}

/// The body at that place, one of those that the file of that number opens. The file was told of, and these are the
/// variables of its bodies.
///
/// # Errors
///
/// Memory was refused.
pub fn body_at<'e, 'a>(
    alloc: Global,
    file: usize,
    told: &'e Told<'a>,
    variables: &Variables<'a>,
    place: BodyPlace<'a>,
) -> Result<Body<'e, 'a>, AllocError>
    ensures { IfOk result (λ body. TellsPlace file told.now variables.now (body_view place.entry) body) }
{
    let variables = variables.of(alloc, place.at)?;
    let is_unfollowed = is_unfollowed(alloc, &variables, place)?;
    let are_judged = has_paths(&variables, is_unfollowed);
    let graph = graph_if(alloc, are_judged, told, place)?;
    Ok(Body {
        file,
        place,
        variables,
        is_unfollowed,
        edition: told.edition,
        bound: told.bound.at(place.at),
        graph,
    })
}

/// The bodies of the file of that number in its package, in the order of their places. The file was told of, and these
/// are the variables of its bodies.
///
/// # Errors
///
/// Memory was refused.
pub fn bodies<'e, 'a>(
    alloc: Global,
    file: usize,
    told: &'e Told<'a>,
    variables: &Variables<'a>,
) -> Result<Vec<Body<'e, 'a>>, AllocError>
    ensures { IfOk result (λ bodies. (seen : Seen) → TellsFile seen told.now
        → ((at : ℕ) → ordered_in variables.now at ≡ variables_of seen at)
        → TellBodies file seen bodies.items) }
{
    let mut bodies = Vec::new(alloc);
    for place in &told.opened {
        let body = body_at(alloc, file, told, variables, *place)?;
        bodies.push(body)?;
    }
    Ok(bodies)
}
