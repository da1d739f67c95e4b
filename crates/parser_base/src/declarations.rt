//! Imports, and steps of declarations that read no expression or type (the Go specification, "Import declarations",
//! "Declarations and scope").

ghost use Rattle.std.specs.Prelude.{◌≡◌, map, option_map};
ghost use Rattle.tree.specs.View.{optional_expression_syntax, expressions_syntax, identifier_syntax, import_spec_syntax, import_syntax};
ghost use Rattle.parser_base.specs.Gives.{Gives};
ghost use Rattle.parser_base.specs.Places.{cursor, seen, go_text};
ghost use Rattle.tree_reader.specs.Reader.{value_fits, read_import_name, read_import_spec, read_import_specs, read_import};
ghost use Rattle.tree_reader.specs.Reading.{steps};

use crate::cursor::{Read, SourceTokens, TokenPlace};
use crate::fault::{LeftOut, Stop};
use crate::names::{optional_identifier, quoted};
use lexer::TokenKind;
use tree::{DeclKeyword, Expr, Identifier, ImportDecl, ImportSpec, NameText};

/// Whether constants or variables may be declared with this type and these values.
pub fn value_fits(keyword: DeclKeyword, kind: &Option<Box<Expr>>, values: &[Expr]) -> bool
    ensures { result ≡ value_fits keyword (optional_expression_syntax kind.now) (expressions_syntax values.now) }
{
    match keyword {
        DeclKeyword::Const => match kind {
            None => true,
            Some(_) => !values.is_empty(),
        },
        DeclKeyword::Var => match kind {
            None => !values.is_empty(),
            Some(_) => true,
        },
        DeclKeyword::Type => false,
    }
}

/// The name of an import, if there is one, or a dot, and the place after it. The first edition has no dot.
///
/// # Errors
///
/// Out of memory.
#[tactic(auto, unfolding(tree_reader::specs::Reader::read_import_name))]
fn import_name(source: SourceTokens<'_>, place: TokenPlace) -> Read<Option<Identifier>>
    ensures { Gives (seen source.entry (option_map identifier_syntax)) result (read_import_name (go_text source.entry)
        (cursor source.entry place)) }
{
    if source.is_second() && source.stands(place, TokenKind::Dot) {
        let text = NameText::of(source.alloc, ".")?;
        let end = source.behind(place);
        let span = source.span_to(place, end);
        return Ok((Some(Identifier { text, span }), end));
    }
    optional_identifier(source, place)
}

/// What one line of an import declaration imports, and the place after it.
///
/// # Errors
///
/// Where it has a dot in the first edition, where it has no path, and out of memory.
#[tactic(auto, unfolding(tree_reader::specs::Reader::read_import_spec))]
pub fn import_spec(source: SourceTokens<'_>, place: TokenPlace) -> Read<ImportSpec>
    ensures { Gives (seen source.entry import_spec_syntax) result (read_import_spec (go_text source.entry) (cursor
        source.entry place)) }
{
    if source.stands(place, TokenKind::Dot) {
        if !source.is_second() {
            return Err(Stop::LeftOut(LeftOut::DotImport, source.start(place)));
        }
    }
    let (name, at_path) = import_name(source, place)?;
    if !source.has_string(at_path) {
        return Err(source.unexpected(at_path));
    }
    let path = quoted(source, at_path)?;
    let end = source.behind(at_path);
    let path_span = source.span_to(at_path, end);
    let span = source.span_to(place, end);
    let spec = ImportSpec {
        name,
        path,
        path_span,
        span,
    };
    Ok((spec, end))
}

/// Imports up to a closing bracket, each with its semicolon, and the place after them.
fn import_specs(source: SourceTokens<'_>, place: TokenPlace) -> Read<Vec<ImportSpec>>
    ensures { Gives (seen source.entry (λ specs. map import_spec_syntax specs.items)) result (read_import_specs
        (go_text source.entry) (steps (cursor source.entry place)) (cursor source.entry place)) }
{
    let mut specs = Vec::new(source.alloc);
    let mut rest = place;
    for _ in 0..source.steps(place) {
        if source.stands(rest, TokenKind::RightParenthesis) {
            return Ok((specs, rest));
        }
        let (item, end) = import_spec(source, rest)?;
        let after = source.semicolon(end)?;
        specs.push(item)?;
        rest = after;
    }
    Err(source.unexpected(rest))
}

/// An import declaration, at its word, and the place after it.
///
/// # Errors
///
/// Where another token stands than one can have there, and out of memory.
#[tactic(auto, unfolding(tree_reader::specs::Reader::read_import))]
pub fn import(source: SourceTokens<'_>, place: TokenPlace) -> Read<ImportDecl>
    ensures { Gives (seen source.entry import_syntax) result (read_import (go_text source.entry) (cursor source.entry
        place)) }
{
    let inner = source.behind(place);
    if !source.stands(inner, TokenKind::LeftParenthesis) {
        let (only, end) = import_spec(source, inner)?;
        let mut specs = Vec::new(source.alloc);
        specs.push(only)?;
        let span = source.span_to(place, end);
        let declared = ImportDecl {
            specs,
            is_grouped: false,
            span,
        };
        return Ok((declared, end));
    }
    let (specs, rest) = import_specs(source, source.behind(inner))?;
    let end = source.take(rest, TokenKind::RightParenthesis)?;
    let span = source.span_to(place, end);
    let declared = ImportDecl {
        specs,
        is_grouped: true,
        span,
    };
    Ok((declared, end))
}
