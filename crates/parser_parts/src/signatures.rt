//! Parameters and results (the Go specification, "Function types").

ghost use Rattle.std.specs.Prelude.{◌≡◌, option_map, option_and_then};
ghost use Rattle.meaning.specs.WellFormed.{has_named_item};
ghost use Rattle.tree.specs.Syntax.{Parameters};
ghost use Rattle.tree.specs.View.{expression_syntax, parameter_and, parameters_syntax, signature_syntax};
ghost use Rattle.parser_base.specs.Gives.{Gives};
ghost use Rattle.parser_base.specs.Parts.{ReadsExpressions};
ghost use Rattle.parser_base.specs.Places.{cursor, seen, parts_of, go_text};
ghost use Rattle.tree_reader.specs.Reader.{as_identifier, is_no_item, name_alone, with_names, settled, read_item, read_items, read_parameters, read_signature};
ghost use Rattle.tree_reader.specs.Reading.{steps};

use crate::instances::{indexed, is_indexed, item_of};
use lexer::TokenKind;
use parser_base::cursor::{Read, SourceTokens, TokenPlace};
use parser_base::fault::Stop;
use parser_base::holding;
use parser_base::names::identifier;
use parser_base::parts::{Wanted, type_expression};
use tree::{Expr, ExprKind, Identifier, Param, Signature};
use tree_hold::{list, release};
use tree_make as make;

/// An item of a list of parameters.
#[tactic(auto, unfolding(tree_reader::specs::Reader::read_item))]
fn item<F: Fn(Wanted, TokenPlace) -> Read<Expr>>(
    source: SourceTokens<'_>,
    parts: &F,
    place: TokenPlace,
) -> Read<Param>
    requires { ReadsExpressions source (F.pre parts.now) (F.post parts.now) }
    ensures { Gives (seen source.entry parameter_and) result (read_item (go_text source.entry) (parts_of source.entry)
        (cursor source.entry place)) }
{
    if is_indexed(source, place) {
        let (read, end) = indexed(source, parts, place)?;
        return Ok((item_of(read), end));
    }
    let next = source.behind(place);
    if source.stands(place, TokenKind::Identifier)
        && (source.stands(next, TokenKind::Ellipsis) || source.begins_type(next))
    {
        let (name, rest) = identifier(source, place)?;
        let has_ellipsis = source.stands(rest, TokenKind::Ellipsis);
        let (kind, end) = type_expression(source, parts, source.past(rest, TokenKind::Ellipsis))?;
        return Ok((make::types::named_parameter(name, has_ellipsis, kind), end));
    }
    let has_ellipsis = source.stands(place, TokenKind::Ellipsis);
    let (kind, end) = type_expression(source, parts, source.past(place, TokenKind::Ellipsis))?;
    Ok((make::types::unnamed_parameter(has_ellipsis, kind), end))
}

/// Items up to a closing bracket, and the place after them.
fn items<F: Fn(Wanted, TokenPlace) -> Read<Expr>>(
    source: SourceTokens<'_>,
    parts: &F,
    place: TokenPlace,
) -> Read<Vec<Param>>
    requires { ReadsExpressions source (F.pre parts.now) (F.post parts.now) }
    ensures { Gives (seen source.entry (λ ps. parameters_syntax ps.items)) result (read_items
        (go_text source.entry) (parts_of source.entry) (steps (cursor source.entry place)) (cursor source.entry
        place)) }
{
    let mut read = Vec::new(source.alloc);
    let mut rest = place;
    for _ in 0..source.steps(place) {
        if source.stands(rest, TokenKind::RightParenthesis) {
            return Ok((read, rest));
        }
        let (param, after) = holding!(params: read; item(source, parts, rest));
        read = list::with_param(read, param)?;
        if !source.stands(after, TokenKind::Comma) {
            return Ok((read, after));
        }
        rest = source.behind(after);
    }
    release::params(read);
    Err(source.unexpected(rest))
}

/// Whether some item has both name and type.
fn has_named(params: &[Param]) -> bool
    ensures { result ≡ has_named_item (parameters_syntax params.now) }
{
    for param in params {
        if let Param::Named(_, _, _) = param {
            return true;
        }
    }
    false
}

/// A type without a name, in a list that has an item with both name and type: where it is one name, it is a name alone,
/// which is not the last item.
fn without_name(kind: Expr, is_last: bool) -> Option<Param>
    ensures { (more : Parameters) → is_no_item more ≡ is_last → option_map (λ item. parameter_and item more) result
        ≡ name_alone (as_identifier (expression_syntax kind)) (expression_syntax kind) more }
{
    let span = kind.span;
    match kind.kind {
        ExprKind::Name(text) => if is_last {
            None
        } else {
            Some(make::types::name_alone(Identifier { text, span }))
        },
        other => Some(make::types::unnamed_parameter(false, Expr { kind: other, span })),
    }
}

/// An item of a list that has an item with both name and type.
fn with_name(param: Param, is_last: bool) -> Option<Param>
    ensures { (after : Parameters) → is_no_item after ≡ is_last → option_and_then (λ more. option_map (λ item.
        parameter_and item more) result) (with_names after) ≡ with_names (parameter_and param after) }
{
    match param {
        Param::Named(name, has_ellipsis, kind) => Some(make::types::named_parameter(
            name,
            has_ellipsis,
            kind,
        )),
        Param::Unnamed(has_ellipsis, kind) => if has_ellipsis {
            Some(make::types::unnamed_parameter(true, kind))
        } else {
            without_name(kind, is_last)
        },
        Param::NameAlone(_name) => None,
    }
}

/// The items of a list that has an item with both name and type, before this place.
fn all_with_names(
    source: SourceTokens<'_>,
    mut params: Vec<Param>,
    place: TokenPlace,
) -> Result<Vec<Param>, Stop>
    ensures { Gives (λ ps. parameters_syntax ps.items) result (with_names (parameters_syntax params.items)) }
{
    params.reverse();
    let mut named = Vec::new(source.alloc);
    while let Some(param) = params.pop() {
        let is_last = params.is_empty();
        match with_name(param, is_last) {
            Some(item) => {
                named = holding!(params: params; memory list::with_param(named, item));
            }
            None => {
                release::params(params);
                release::params(named);
                return Err(source.unexpected(place));
            }
        }
    }
    release::params(params);
    Ok(named)
}

/// The items of a list, of which a type that is one name is a name alone if some item has both name and type. The list
/// ends at this place.
fn settled(
    source: SourceTokens<'_>,
    params: Vec<Param>,
    place: TokenPlace,
) -> Result<Vec<Param>, Stop>
    ensures { Gives (λ ps. parameters_syntax ps.items) result (settled (parameters_syntax params.items)) }
{
    if !has_named(&params) {
        return Ok(params);
    }
    all_with_names(source, params, place)
}

/// A list of parameters in brackets.
///
/// # Errors
///
/// Where another token stands, and out of memory.
#[tactic(auto, unfolding(tree_reader::specs::Reader::read_parameters))]
pub fn parameters<F: Fn(Wanted, TokenPlace) -> Read<Expr>>(
    source: SourceTokens<'_>,
    parts: &F,
    place: TokenPlace,
) -> Read<Vec<Param>>
    requires { ReadsExpressions source (F.pre parts.now) (F.post parts.now) }
    ensures { Gives (seen source.entry (λ ps. parameters_syntax ps.items)) result (read_parameters
        (go_text source.entry) (parts_of source.entry) (cursor source.entry place)) }
{
    let inner = source.take(place, TokenKind::LeftParenthesis)?;
    let (read, rest) = items(source, parts, inner)?;
    let end = holding!(params: read; source.take(rest, TokenKind::RightParenthesis));
    let params = settled(source, read, rest)?;
    Ok((params, end))
}

/// Parameters and results.
///
/// # Errors
///
/// Where another token stands, and out of memory.
#[tactic(auto, unfolding(tree_reader::specs::Reader::read_signature))]
pub fn signature<F: Fn(Wanted, TokenPlace) -> Read<Expr>>(
    source: SourceTokens<'_>,
    parts: &F,
    place: TokenPlace,
) -> Read<Signature>
    requires { ReadsExpressions source (F.pre parts.now) (F.post parts.now) }
    ensures { Gives (seen source.entry signature_syntax) result (read_signature (go_text source.entry) (parts_of
        source.entry) (cursor source.entry place)) }
{
    let (params, rest) = parameters(source, parts, place)?;
    if source.stands(rest, TokenKind::LeftParenthesis) {
        let (results, end) = holding!(params: params; parameters(source, parts, rest));
        let read = Signature {
            params,
            results,
            has_result_brackets: true,
        };
        return Ok((read, end));
    }
    let mut results = Vec::new(source.alloc);
    if !source.begins_type(rest) {
        let read = Signature {
            params,
            results,
            has_result_brackets: false,
        };
        return Ok((read, rest));
    }
    let (kind, end) =
        holding!(params: params, params: results; type_expression(source, parts, rest));
    let only = make::types::unnamed_parameter(false, kind);
    results = holding!(params: params; memory list::with_param(results, only));
    let read = Signature {
        params,
        results,
        has_result_brackets: false,
    };
    Ok((read, end))
}
