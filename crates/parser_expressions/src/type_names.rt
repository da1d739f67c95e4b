//! The names of types, and instances of them (the Go specification, "Qualified identifiers", "Instantiations").

ghost use Rattle.std.specs.Prelude.{◌≡◌, ◌&&◌, true};
ghost use Rattle.lexer.specs.declared.token.TokenKind.TheVariants.{Identifier as identifier_kind, LeftBracket as left_bracket_kind};
ghost use Rattle.tree.specs.View.{expression_syntax};
ghost use Rattle.parser_base.specs.Gives.{Gives};
ghost use Rattle.parser_base.specs.Parts.{ReadsExpressions};
ghost use Rattle.parser_base.specs.Places.{cursor, seen, parts_of, go_text};
ghost use Rattle.tree_reader.specs.Reader.{is_second, read_named_type, read_type_arguments};
ghost use Rattle.tree_reader.specs.Reading.{stands};

use lexer::TokenKind;
use parser_base::cursor::{Begun, Read, SourceTokens, TokenPlace};
use parser_base::expressions::{name, selector};
use parser_base::fault::Stop;
use parser_base::parts::{Wanted, fits};
use parser_base::shapes::{is_instance, is_type};
use parser_base::type_faults::fault_of_types;
use parser_parts::indexes::index_of_types;
use tree::Expr;
use tree_hold::release;

/// A type's name, perhaps of another package's, and in the second edition perhaps an instance of it.
///
/// # Errors
///
/// Where no name stands after a dot, where what stands in brackets is no type, where it is too deep, and out of memory.
#[tactic(auto, unfolding(tree_reader::specs::Reader::read_named_type, tree_reader::specs::Reader::read_type_arguments))]
pub fn named_type<F: Fn(Wanted, TokenPlace) -> Read<Expr>>(
    source: SourceTokens<'_>,
    parts: &F,
    place: TokenPlace,
) -> Read<Expr>
    requires parts { ReadsExpressions source (F.pre parts.now) (F.post parts.now) }
    requires name { stands identifier_kind (cursor source place) ≡ true }
    ensures { Gives (seen source.entry expression_syntax) result (read_named_type (go_text source.entry) (parts_of
        source.entry) source.entry.below (cursor source.entry place)) }
{
    let (first, end) = name(source, place)?;
    if !source.stands(end, TokenKind::Dot) {
        // Most names stand alone, and an expression costs a move each time that it is handed on.
        if !opens_arguments(source, end) {
            return Ok((first, end));
        }
        let begun = Begun {
            from: place,
            first,
            place: end,
        };
        return type_arguments(source, parts, begun);
    }
    if !fits(source, &first) {
        release::expression(first);
        return Err(Stop::TooDeep);
    }
    let (selected, rest) = selector(source, place, first, end)?;
    let begun = Begun {
        from: place,
        first: selected,
        place: rest,
    };
    type_arguments(source, parts, begun)
}

/// Whether the brackets of an instance stand at `place`, if a type's name stands before it.
fn opens_arguments(source: SourceTokens<'_>, place: TokenPlace) -> bool
    ensures { result ≡ is_second source.entry.edition && stands left_bracket_kind (cursor source.entry place) }
{
    source.is_second() && source.stands(place, TokenKind::LeftBracket)
}

/// The brackets of an instance, where they follow a type's name. All that stands in them are types.
#[tactic(auto, unfolding(tree_reader::specs::Reader::read_type_arguments))]
fn type_arguments<F: Fn(Wanted, TokenPlace) -> Read<Expr>>(
    source: SourceTokens<'_>,
    parts: &F,
    begun: Begun<Expr>,
) -> Read<Expr>
    requires { ReadsExpressions source (F.pre parts.now) (F.post parts.now) }
    ensures { Gives (seen source.entry expression_syntax) result (read_type_arguments (go_text source.entry) (parts_of
        source.entry) source.entry.below (cursor source.entry begun.from) (expression_syntax begun.first) (cursor
        source.entry begun.place)) }
{
    let Begun { from, first, place } = begun;
    if !opens_arguments(source, place) {
        return Ok((first, place));
    }
    if !fits(source, &first) {
        release::expression(first);
        return Err(Stop::TooDeep);
    }
    let (read, end) = index_of_types(source, parts, from, first, place)?;
    if is_instance(&read) && is_type(&read) {
        return Ok((read, end));
    }
    release::expression(read);
    Err(fault_of_types(source, source.behind(place), source.unexpected(end)))
}
