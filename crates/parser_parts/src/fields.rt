//! Lines of struct and interface types (the Go specification, "Struct types", "Interface types").

ghost use Rattle.std.specs.Prelude.{◌≡◌, ◌||◌, ◌&&◌, if◌then◌else◌};
ghost use Rattle.lexer.specs.declared.token.TokenKind.TheVariants.{Identifier as identifier_kind, Star};
ghost use Rattle.tree.specs.View.{field_and, fields_syntax};
ghost use Rattle.parser_base.specs.Gives.{Gives};
ghost use Rattle.parser_parts.specs.Lines.{read_embedded, read_element_line};
ghost use Rattle.parser_base.specs.Parts.{ReadsExpressions};
ghost use Rattle.parser_base.specs.Places.{cursor, seen, parts_of, go_text};
ghost use Rattle.tree_reader.specs.Reader.{follows_embedded, read_struct_field, read_interface_field, read_field, read_fields, read_braced_fields};
ghost use Rattle.tree_reader.specs.Reading.{stands, behind, steps};
ghost use Rattle.meaning.specs.Cursor.{is_next};
ghost use Rattle.meaning.specs.Grammar.{of_struct, of_interface};

use crate::constraints::constraint;
use crate::instances::{field_of, indexed, is_indexed};
use crate::signatures::signature;
use lexer::TokenKind;
use parser_base::cursor::{Read, SourceTokens, TokenPlace};
use parser_base::holding;
use parser_base::lists::tag;
use parser_base::names::{identifier, identifiers, type_name};
use parser_base::parts::{Wanted, type_expression};
use parser_base::shapes::{is_instance, names_type};
use tree::{Expr, Field};
use tree_hold::{list, release};
use tree_make as make;

/// Whether a line of a struct type embeds a type.
fn is_embedded(source: SourceTokens<'_>, place: TokenPlace) -> bool
    ensures { result ≡ stands Star (cursor source.entry place) || (stands identifier_kind (cursor source.entry place)
        && is_next follows_embedded (behind (cursor source.entry place))) }
{
    source.stands(place, TokenKind::Star)
        || (source.stands(place, TokenKind::Identifier)
            && source.follows_embedded(source.behind(place)))
}

/// A line of a struct type that embeds a type, or in the second edition an instance.
fn embedded<F: Fn(Wanted, TokenPlace) -> Read<Expr>>(
    source: SourceTokens<'_>,
    parts: &F,
    place: TokenPlace,
) -> Read<Field>
    requires { ReadsExpressions source (F.pre parts.now) (F.post parts.now) }
    ensures { Gives (seen source.entry field_and) result (read_embedded (go_text source.entry) (parts_of source.entry)
        (cursor source.entry place)) }
{
    let has_star = source.stands(place, TokenKind::Star);
    let start = source.past(place, TokenKind::Star);
    let (name, rest) = type_name(source, start)?;
    if source.is_second() && source.stands(rest, TokenKind::LeftBracket) {
        let (kind, after) = type_expression(source, parts, start)?;
        if !is_instance(&kind) {
            release::expression(kind);
            return Err(source.unexpected(after));
        }
        let (label, end) = tag(source, after);
        let span = source.span_to(place, end);
        return Ok((make::types::element(has_star, kind, label, span), end));
    }
    let (label, end) = tag(source, rest);
    let span = source.span_to(place, end);
    Ok((make::types::embedded(has_star, name, label, span), end))
}

/// A line of a struct type.
#[tactic(auto, unfolding(tree_reader::specs::Reader::read_struct_field))]
fn struct_field<F: Fn(Wanted, TokenPlace) -> Read<Expr>>(
    source: SourceTokens<'_>,
    parts: &F,
    place: TokenPlace,
) -> Read<Field>
    requires { ReadsExpressions source (F.pre parts.now) (F.post parts.now) }
    ensures { Gives (seen source.entry field_and) result (read_struct_field (go_text source.entry) (parts_of
        source.entry) (cursor source.entry place)) }
{
    if is_indexed(source, place) {
        let (read, rest) = indexed(source, parts, place)?;
        let (label, end) = tag(source, rest);
        return field_of(source, read, label, place, end);
    }
    if is_embedded(source, place) {
        return embedded(source, parts, place);
    }
    let (names, rest) = identifiers(source, place)?;
    let (kind, after) = type_expression(source, parts, rest)?;
    let (label, end) = tag(source, after);
    let span = source.span_to(place, end);
    Ok((make::types::named_fields(names, kind, label, span), end))
}

/// A line of an interface type that is more than the name of a type: a union, `~` and a type, or another constraint.
fn element<F: Fn(Wanted, TokenPlace) -> Read<Expr>>(
    source: SourceTokens<'_>,
    parts: &F,
    place: TokenPlace,
) -> Read<Field>
    requires { ReadsExpressions source (F.pre parts.now) (F.post parts.now) }
    ensures { Gives (seen source.entry field_and) result (read_element_line (go_text source.entry) (parts_of
        source.entry) (cursor source.entry place)) }
{
    let (kind, end) = constraint(source, parts, place)?;
    if names_type(&kind) {
        release::expression(kind);
        return Err(source.unexpected(end));
    }
    let span = source.span_to(place, end);
    Ok((make::types::element(false, kind, None, span), end))
}

/// A line of an interface type.
#[tactic(auto, unfolding(tree_reader::specs::Reader::read_interface_field))]
fn interface_field<F: Fn(Wanted, TokenPlace) -> Read<Expr>>(
    source: SourceTokens<'_>,
    parts: &F,
    place: TokenPlace,
) -> Read<Field>
    requires { ReadsExpressions source (F.pre parts.now) (F.post parts.now) }
    ensures { Gives (seen source.entry field_and) result (read_interface_field (go_text source.entry) (parts_of
        source.entry) (cursor source.entry place)) }
{
    if source.stands(place, TokenKind::Identifier)
        && source.stands(source.behind(place), TokenKind::LeftParenthesis)
    {
        let (name, rest) = identifier(source, place)?;
        let (declared, end) = signature(source, parts, rest)?;
        return Ok((
            make::types::method(name, declared, source.span_to(place, end)),
            end,
        ));
    }
    if source.is_second() && source.is_no_name(place) {
        return element(source, parts, place);
    }
    let (name, end) = type_name(source, place)?;
    Ok((
        make::types::embedded(false, name, None, source.span_to(place, end)),
        end,
    ))
}

/// A line of a struct type, or of an interface type.
fn field<F: Fn(Wanted, TokenPlace) -> Read<Expr>>(
    source: SourceTokens<'_>,
    parts: &F,
    is_struct: bool,
    place: TokenPlace,
) -> Read<Field>
    requires { ReadsExpressions source (F.pre parts.now) (F.post parts.now) }
    ensures { Gives (seen source.entry field_and) result (read_field (go_text source.entry) (parts_of source.entry) (if
        is_struct then of_struct else of_interface) (cursor source.entry place)) }
{
    if is_struct {
        struct_field(source, parts, place)
    } else {
        interface_field(source, parts, place)
    }
}

/// Lines of a struct type, or of an interface type, each with its semicolon, up to a closing brace, and the place
/// before it.
fn fields<F: Fn(Wanted, TokenPlace) -> Read<Expr>>(
    source: SourceTokens<'_>,
    parts: &F,
    is_struct: bool,
    place: TokenPlace,
) -> Read<Vec<Field>>
    requires { ReadsExpressions source (F.pre parts.now) (F.post parts.now) }
    ensures { Gives (seen source.entry (λ fs. fields_syntax fs.items)) result (read_fields (go_text source.entry)
        (parts_of source.entry) (if is_struct then of_struct else of_interface) (steps (cursor source.entry place))
        (cursor source.entry place)) }
{
    let mut items = Vec::new(source.alloc);
    let mut rest = place;
    for _ in 0..source.steps(place) {
        if source.stands(rest, TokenKind::RightBrace) {
            return Ok((items, rest));
        }
        let (item, after) = holding!(fields: items; field(source, parts, is_struct, rest));
        items = list::with_field(items, item)?;
        rest = holding!(fields: items; source.semicolon(after));
    }
    release::fields(items);
    Err(source.unexpected(rest))
}

/// Lines of a struct type, or of an interface type, in braces.
#[tactic(auto, unfolding(tree_reader::specs::Reader::read_braced_fields))]
fn braced_fields<F: Fn(Wanted, TokenPlace) -> Read<Expr>>(
    source: SourceTokens<'_>,
    parts: &F,
    is_struct: bool,
    place: TokenPlace,
) -> Read<Vec<Field>>
    requires { ReadsExpressions source (F.pre parts.now) (F.post parts.now) }
    ensures { Gives (seen source.entry (λ fs. fields_syntax fs.items)) result (read_braced_fields (go_text source.entry)
        (parts_of source.entry) (if is_struct then of_struct else of_interface) (cursor source.entry place)) }
{
    let inner = source.take(place, TokenKind::LeftBrace)?;
    let (items, rest) = fields(source, parts, is_struct, inner)?;
    let end = holding!(fields: items; source.take(rest, TokenKind::RightBrace));
    Ok((items, end))
}

/// Lines of a struct type in braces.
///
/// # Errors
///
/// Where another token stands, and out of memory.
pub fn struct_fields<F: Fn(Wanted, TokenPlace) -> Read<Expr>>(
    source: SourceTokens<'_>,
    parts: &F,
    place: TokenPlace,
) -> Read<Vec<Field>>
    requires { ReadsExpressions source (F.pre parts.now) (F.post parts.now) }
    ensures { Gives (seen source.entry (λ fs. fields_syntax fs.items)) result (read_braced_fields (go_text source.entry)
        (parts_of source.entry) of_struct (cursor source.entry place)) }
{
    braced_fields(source, parts, true, place)
}

/// Lines of an interface type in braces.
///
/// # Errors
///
/// Where another token stands, and out of memory.
pub fn interface_fields<F: Fn(Wanted, TokenPlace) -> Read<Expr>>(
    source: SourceTokens<'_>,
    parts: &F,
    place: TokenPlace,
) -> Read<Vec<Field>>
    requires { ReadsExpressions source (F.pre parts.now) (F.post parts.now) }
    ensures { Gives (seen source.entry (λ fs. fields_syntax fs.items)) result (read_braced_fields (go_text source.entry)
        (parts_of source.entry) of_interface (cursor source.entry place)) }
{
    braced_fields(source, parts, false, place)
}
