//! A name with brackets behind it, among parameters and fields: an array of that name, or an instance (the Go
//! specification, "Array types", "Instantiations").

ghost use Rattle.std.specs.Prelude.{◌≡◌, ◌&&◌, true, Some, option_and_then, option_map};
ghost use Rattle.lexer.specs.declared.token.TokenKind.TheVariants.{Identifier as identifier_kind};
ghost use Rattle.meaning.specs.Cursor.{Cursor};
ghost use Rattle.meaning.specs.WellFormed.{is_instance, is_type};
ghost use Rattle.tree.specs.Syntax.{Expression, Parameters, array_type};
ghost use Rattle.tree.specs.View.{expression_syntax, field_and, identifier_syntax, parameter_and};
ghost use Rattle.parser_base.specs.Gives.{Gives};
ghost use Rattle.parser_base.specs.Parts.{ReadsExpressions};
ghost use Rattle.parser_base.specs.Places.{cursor, seen, parts_of, go_text};
ghost use Rattle.tree_reader.specs.Reader.{field_of, indexed, is_second, item_of, name_at, opens_index, read_index, read_indexed, within};
ghost use Rattle.tree_reader.specs.Reading.{behind, only_where, span_between, spanned, stands};

use crate::indexes::index_of_types_or_length;
use lexer::TokenKind;
use parser_base::cursor::{Read, SourceTokens, TokenPlace};
use parser_base::expressions::name;
use parser_base::fault::Stop;
use parser_base::holding;
use parser_base::names::identifier;
use parser_base::parts::{Wanted, type_expression, within};
use parser_base::shapes::{is_instance, is_type};
use parser_base::type_faults::fault_of_types_or_length;
use tree::{Expr, ExprKind, Field, Identifier, Param, Span};
use tree_hold::{boxed, release};
use tree_make as make;

/// A type, and the name before it, if it has one.
pub type Indexed = (Option<Identifier>, Expr);

/// Whether a name stands here with brackets behind it that can be an index: only the second edition reads it as one.
pub fn is_indexed(source: SourceTokens<'_>, place: TokenPlace) -> bool
    ensures { result ≡ (is_second source.entry.edition && (stands identifier_kind (cursor source.entry place)
        && opens_index (behind (cursor source.entry place)))) }
{
    source.is_second()
        && (source.stands(place, TokenKind::Identifier) && source.opens_index(source.behind(place)))
}

/// A name with brackets behind it: where a type follows, the name and the type of an array, else an instance.
///
/// # Errors
///
/// Where another token stands, where what stands in the brackets is no type and no type follows, where it is too deep,
/// and out of memory.
#[tactic(auto, unfolding(tree_reader::specs::Reader::read_indexed))]
pub fn indexed<F: Fn(Wanted, TokenPlace) -> Read<Expr>>(
    source: SourceTokens<'_>,
    parts: &F,
    place: TokenPlace,
) -> Read<Indexed>
    requires parts { ReadsExpressions source (F.pre parts.now) (F.post parts.now) }
    requires name { stands identifier_kind (cursor source place) ≡ true }
    ensures { Gives (seen source.entry (λ t. (option_map identifier_syntax t.0, expression_syntax t.1))) result
        (read_indexed (go_text source.entry) (parts_of source.entry) (cursor source.entry place)) }
{
    let (named, at_bracket) = name(source, place)?;
    let (read, rest) = index_of_types_or_length(source, parts, place, named, at_bracket)?;
    if !source.begins_type(rest) {
        let (instance, end) = only_instance(source, read, at_bracket, rest)?;
        return Ok(((None, instance), end));
    }
    let (name, length) = name_and_length(source, read, place, rest)?;
    let (array, end) = array_behind(source, parts, at_bracket, length, rest)?;
    Ok(((Some(name), array), end))
}

/// The name and the length of what was read as an index behind the name at `from`, up to `end`.
///
/// # Errors
///
/// Where it is no index, and out of memory.
fn name_and_length(
    source: SourceTokens<'_>,
    read: Expr,
    from: TokenPlace,
    end: TokenPlace,
) -> Result<(Identifier, Box<Expr>), Stop>
    requires name { stands identifier_kind (cursor source from) ≡ true }
    requires read { read_index (go_text source) (parts_of source) (cursor source from) (name_at (go_text source)
        (parts_of source) (cursor source from)) (behind (cursor source from))
        ≡ Some (expression_syntax read, cursor source end) }
    ensures { Gives (λ s. (identifier_syntax s.0, expression_syntax s.1.value)) result (indexed (expression_syntax
        read)) }
{
    let Expr { kind, span } = read;
    match identifier(source, from) {
        Ok((name, _)) => match kind {
            ExprKind::Index(operand, length) => {
                release::boxed_expression(operand);
                Ok((name, length))
            }
            other => {
                release::expression(Expr { kind: other, span });
                Err(no_length_or_types(source, source.behind(from), end))
            }
        },
        Err(stop) => {
            release::expression(Expr { kind, span });
            Err(stop)
        }
    }
}

/// The type of an array of this length, whose brackets began at `from`, behind them.
fn array_behind<F: Fn(Wanted, TokenPlace) -> Read<Expr>>(
    source: SourceTokens<'_>,
    parts: &F,
    from: TokenPlace,
    length: Box<Expr>,
    place: TokenPlace,
) -> Read<Expr>
    requires { ReadsExpressions source (F.pre parts.now) (F.post parts.now) }
    ensures { Gives (seen source.entry expression_syntax) result (option_and_then (λ (t : Expression × Cursor). within
        (go_text source.entry) (parts_of source.entry) (spanned (cursor source.entry from) (array_type
        (expression_syntax length.value) t.0) t.1)) ((parts_of source.entry).read_type (cursor source.entry place))) }
{
    let (element, end) = holding!(boxed_expression: length; type_expression(source, parts, place));
    let kept = holding!(boxed_expression: length; memory boxed::expression(source.alloc, element));
    let array = make::types::array_type(length, kept, source.span_to(from, end));
    if !within(source, &array) {
        release::expression(array);
        return Err(Stop::TooDeep);
    }
    Ok((array, end))
}

/// The fault of brackets that begin and end at these places, and have neither types nor the length of an array in them.
fn no_length_or_types(source: SourceTokens<'_>, from: TokenPlace, end: TokenPlace) -> Stop {
    fault_of_types_or_length(source, source.behind(from), source.unexpected(end))
}

/// An instance that was read as an index, where all that stands in its brackets are types. These begin at `from`, and
/// it ends at this place.
fn only_instance(
    source: SourceTokens<'_>,
    read: Expr,
    from: TokenPlace,
    place: TokenPlace,
) -> Read<Expr>
    ensures { Gives (seen source.entry expression_syntax) result (option_and_then (λ (t : Expression × Cursor).
        only_where (is_instance t.0 && is_type t.0) (Some t)) (within (go_text source.entry) (parts_of source.entry)
        (expression_syntax read, cursor source.entry place))) }
{
    if !within(source, &read) {
        release::expression(read);
        return Err(Stop::TooDeep);
    }
    if is_instance(&read) && is_type(&read) {
        return Ok((read, place));
    }
    release::expression(read);
    Err(no_length_or_types(source, from, place))
}

/// What was read so, as an item of a list of parameters.
pub fn item_of(read: Indexed) -> Param
    ensures { (after : Parameters) → parameter_and result after
        ≡ item_of (option_map identifier_syntax read.0) (expression_syntax read.1) after }
{
    let (name, kind) = read;
    match name {
        Some(name) => make::types::named_parameter(name, false, kind),
        None => make::types::unnamed_parameter(false, kind),
    }
}

/// What was read so, as a line of a struct type that begins at `place` and ends at `end`.
///
/// # Errors
///
/// Out of memory.
pub fn field_of(
    source: SourceTokens<'_>,
    read: Indexed,
    tag: Option<Span>,
    place: TokenPlace,
    end: TokenPlace,
) -> Read<Field>
    ensures { Gives (seen source.entry field_and) result (Some (
      field_of (option_map identifier_syntax read.0)
          (expression_syntax read.1) tag (span_between (cursor source.entry place) (cursor source.entry end)),
      cursor
          source.entry end,
    )) }
{
    let span = source.span_to(place, end);
    let (name, kind) = read;
    match name {
        Some(name) => {
            let mut names = Vec::new(source.alloc);
            holding!(expression: kind; memory names.push(name));
            Ok((make::types::named_fields(names, kind, tag, span), end))
        }
        None => Ok((make::types::element(false, kind, tag, span), end)),
    }
}
