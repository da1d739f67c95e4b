//! The parts of codes. Each function here takes what was made as a result, and gives one: so no function that goes
//! through the tree holds a code while it may fail, and none there lets go of one.

ghost use Rattle.std.specs.Prelude.{◌≡◌, map, option_map, None};
ghost use Rattle.code.specs.CodeViews.{text_now, way_view, way_to, turn_or_end, ends_at, sequence, choice, code_view, codes_view, Changes, Joins, JoinsFour};
ghost use Rattle.meaning.specs.Code.{breaking, leave, then_code, either, repeats, up_to};
ghost use Rattle.meaning.specs.StatementCode.{label_of, up_to_labels, breaks_end, turns_end, up_to_falls};
ghost use Rattle.tree.specs.View.{identifier_syntax};

use crate::code::{Code, Way};
use std::alloc::{AllocError, Global};
use tree::Identifier;

/// A code that was made, if there was memory.
pub type Made<'a, E> = Result<Code<'a, E>, AllocError>;

/// The statements that lead to the end of a statement around them, or of its block.
#[derive(Clone, Copy)]
pub enum Jump {
    Break,
    Continue,
}

/// The way out to a label, or to the innermost end.
pub fn way_to<'a>(exit: Jump, label: Option<&'a str>) -> Way<'a>
    ensures { way_view result ≡ way_to exit (option_map text_now label.entry) }
{
    match exit {
        Jump::Break => Way::Breaking(label),
        Jump::Continue => Way::Continuing(label),
    }
}

/// The text of a label.
pub fn label_of(label: &Option<Identifier>) -> Option<&str>
    ensures { option_map text_now result ≡ label_of (option_map identifier_syntax label.now) }
{
    match label {
        Some(name) => Some(name.text.as_str()),
        None => None,
    }
}

/// One after the other.
pub fn then<'a, E: Copy>(alloc: Global, first: Made<'a, E>, second: Made<'a, E>) -> Made<'a, E>
    ensures { Joins then_code first.entry second.entry result }
{
    let first = Box::new(alloc, first?)?;
    let second = Box::new(alloc, second?)?;
    Ok(Code::Then(first, second))
}

/// These codes, each after the one before it.
pub fn in_sequence<E: Copy>(mut codes: Vec<Code<'_, E>>) -> Code<'_, E>
    ensures { code_view result ≡ sequence (codes_view codes.entry.items) }
{
    codes.reverse();
    Code::Sequence(codes)
}

/// One of these codes.
pub fn one_of<E: Copy>(mut codes: Vec<Code<'_, E>>) -> Code<'_, E>
    ensures { code_view result ≡ choice (codes_view codes.entry.items) }
{
    codes.reverse();
    Code::Choice(codes)
}

/// One of two.
pub fn either<'a, E: Copy>(alloc: Global, first: Made<'a, E>, second: Made<'a, E>) -> Made<'a, E>
    ensures { Joins either first.entry second.entry result }
{
    let mut codes = Vec::new(alloc);
    codes.push(first?)?;
    codes.push(second?)?;
    Ok(one_of(codes))
}

/// Over and over.
fn repeats<E: Copy>(alloc: Global, code: Made<'_, E>) -> Made<'_, E>
    ensures { Changes repeats code.entry result }
{
    let code = Box::new(alloc, code?)?;
    Ok(Code::Repeats(code))
}

/// What leaves that way arrives at the end of the code.
fn up_to<'a, E: Copy>(alloc: Global, way: Way<'a>, code: Made<'a, E>) -> Made<'a, E>
    ensures { Changes (up_to (way_view way.entry)) code.entry result }
{
    let code = Box::new(alloc, code?)?;
    Ok(Code::UpTo(way, code))
}

/// What leaves by these labels, the innermost first, arrives at the end of the code.
fn up_to_labels<'a, E: Copy>(
    alloc: Global,
    exit: Jump,
    labels: &[&'a str],
    code: Made<'a, E>,
) -> Made<'a, E>
    ensures { Changes (up_to_labels (way_to exit) (map text_now labels.now)) code.entry result }
{
    match labels.split_first() {
        Some((label, others)) => up_to(
            alloc,
            way_to(exit, Some(label)),
            up_to_labels(alloc, exit, others, code),
        ),
        None => code,
    }
}

/// What leaves that way, to these labels or to none, arrives at the end of the code.
fn ends_at<'a, E: Copy>(
    alloc: Global,
    exit: Jump,
    labels: &[&'a str],
    code: Made<'a, E>,
) -> Made<'a, E>
    ensures { Changes (ends_at exit (map text_now labels.now)) code.entry result }
{
    let labeled = up_to_labels(alloc, exit, labels, code);
    up_to(alloc, way_to(exit, None), labeled)
}

/// The end of a statement with these labels is where `break` leads.
pub fn breaks_end<'a, E: Copy>(alloc: Global, labels: &[&'a str], code: Made<'a, E>) -> Made<'a, E>
    ensures { Changes (breaks_end (map text_now labels.now)) code.entry result }
{
    ends_at(alloc, Jump::Break, labels, code)
}

/// The end of a loop's block is where `continue` leads.
fn turns_end<'a, E: Copy>(alloc: Global, labels: &[&'a str], code: Made<'a, E>) -> Made<'a, E>
    ensures { Changes (turns_end (map text_now labels.now)) code.entry result }
{
    ends_at(alloc, Jump::Continue, labels, code)
}

/// What falls through at one of these offsets arrives at the end of the code.
fn up_to_falls<'a, E: Copy>(alloc: Global, falls: Vec<u32>, code: Made<'a, E>) -> Made<'a, E>
    ensures { Changes (up_to_falls falls.items) code.entry result }
{
    let code = Box::new(alloc, code?)?;
    Ok(Code::UpToFalls(falls, code))
}

/// What follows the header of a loop: a turn, or the end of the loop where the header may end it.
fn turn_or_end<'a, E: Copy>(alloc: Global, may_end: bool, turn: Made<'a, E>) -> Made<'a, E>
    ensures { Changes (turn_or_end may_end) turn.entry result }
{
    if may_end {
        either(alloc, Ok(Code::Leave(Way::Breaking(None))), turn)
    } else {
        turn
    }
}

/// What follows the header of a loop: its block and its last statement, or the end of the loop where the header may
/// end it.
pub fn one_turn<'a, E: Copy>(
    alloc: Global,
    labels: &[&'a str],
    may_end: bool,
    body: Made<'a, E>,
    post: Made<'a, E>,
) -> Made<'a, E>
    ensures { Joins (λ b p. turn_or_end may_end (then_code (turns_end (map text_now labels.now) b) p)) body.entry
        post.entry result }
{
    let turn = then(alloc, turns_end(alloc, labels, body), post);
    turn_or_end(alloc, may_end, turn)
}

/// A loop evaluates its header and goes through what follows it, over and over.
pub fn turns<'a, E: Copy>(
    alloc: Global,
    labels: &[&'a str],
    header: Made<'a, E>,
    turn: Made<'a, E>,
) -> Made<'a, E>
    ensures { Joins (λ h t. breaks_end (map text_now labels.now) (repeats (then_code h t))) header.entry turn.entry
        result }
{
    let round = then(alloc, header, turn);
    breaks_end(alloc, labels, repeats(alloc, round))
}

/// A switch where clauses fall through at these offsets: its header, and then what it leads to, over and over until
/// another way leads out of that.
pub fn falling_over<'a, E: Copy>(
    alloc: Global,
    labels: &[&'a str],
    falls: Vec<u32>,
    header: Made<'a, E>,
    clauses: Made<'a, E>,
) -> Made<'a, E>
    ensures { Joins (λ h c. breaks_end (map text_now labels.now) (repeats (up_to_falls falls.items
        (then_code h (then_code c (leave (breaking None))))))) header.entry clauses.entry result }
{
    let end = then(alloc, clauses, Ok(Code::Leave(Way::Breaking(None))));
    let round = up_to_falls(alloc, falls, then(alloc, header, end));
    breaks_end(alloc, labels, repeats(alloc, round))
}

/// The code of an `if`: first its statement, then the header, then one of its blocks.
pub fn two_ways<'a, E: Copy>(
    alloc: Global,
    first: Made<'a, E>,
    header: Made<'a, E>,
    block: Made<'a, E>,
    otherwise: Made<'a, E>,
) -> Made<'a, E>
    ensures { JoinsFour (λ f h b o. then_code f (then_code h (either b o))) first.entry header.entry block.entry
        otherwise.entry result }
{
    then(
        alloc,
        first,
        then(alloc, header, either(alloc, block, otherwise)),
    )
}
