//! Declarations of constants, variables and types (the Go specification, "Declarations and scope").

ghost use Rattle.std.specs.Prelude.{◌≡◌, false, true, Some, if◌then◌else◌, option_and_then};
ghost use Rattle.lexer.specs.declared.token.TokenKind.TheVariants.{Assign, LeftBracket};
ghost use Rattle.meaning.specs.Cursor.{is_next};
ghost use Rattle.meaning.specs.OperatorTokens.{can_begin_type};
ghost use Rattle.meaning.specs.TypeParameters.{is_parameter};
ghost use Rattle.tree.specs.Syntax.{no_expression, missing_expression, present_expression};
ghost use Rattle.tree.specs.View.{expression_syntax, expressions_syntax, optional_expression_syntax, identifier_syntax, parameters_syntax, spec_and, specs_syntax, declaration_syntax};
ghost use Rattle.parser_base.specs.Gives.{Gives};
ghost use Rattle.parser_base.specs.Parts.{ReadsExpressions};
ghost use Rattle.parser_base.specs.Places.{cursor, seen, parts_of, go_text};
ghost use Rattle.tree_reader.specs.Reader.{read_any, read_expressions, read_value_spec, read_plain_type, read_generic_type, read_length_or_parameter, read_type_spec, read_spec, read_specs, read_declaration};
ghost use Rattle.tree_reader.specs.Reading.{stands, behind, steps};

use crate::parameter_faults::parameters_or_fault;
use crate::split_parameters::{constraint_of, ends_plainly, only_parameter};
use lexer::TokenKind;
use parser_base::ahead::begins_parameters;
use parser_base::cursor::{Begun, Read, SourceTokens, TokenPlace};
use parser_base::declarations::value_fits;
use parser_base::fault::Stop;
use parser_base::holding;
use parser_base::names::{identifier, identifiers};
use parser_base::parts::{Wanted, expression, type_expression, within};
use parser_base::shapes::{is_constraint, is_one_parameter, is_parameter};
use parser_parts::lists::expressions;
use tree::{Decl, DeclKeyword, Expr, Identifier, Param, Spec};
use tree_hold::{boxed, list, release};
use tree_make as make;

/// The type of constants or variables, if one stands here, and the place after it.
fn value_type<F: Fn(Wanted, TokenPlace) -> Read<Expr>>(
    source: SourceTokens<'_>,
    parts: &F,
    place: TokenPlace,
) -> Read<Option<Box<Expr>>>
    requires { ReadsExpressions source (F.pre parts.now) (F.post parts.now) }
    ensures { Gives (seen source.entry optional_expression_syntax) result (if is_next can_begin_type (cursor
        source.entry place)
        then option_and_then (λ kind. Some (present_expression kind.0, kind.1)) ((parts_of source.entry).read_type
        (cursor source.entry place))
        else Some (missing_expression, cursor source.entry place)) }
{
    if !source.begins_type(place) {
        return Ok((None, place));
    }
    let (kind, end) = type_expression(source, parts, place)?;
    let kept = boxed::expression(source.alloc, kind)?;
    Ok((Some(kept), end))
}

/// The values of constants or variables, if they stand here, and the place after them.
fn values<F: Fn(Wanted, TokenPlace) -> Read<Expr>>(
    source: SourceTokens<'_>,
    parts: &F,
    place: TokenPlace,
) -> Read<Vec<Expr>>
    requires { ReadsExpressions source (F.pre parts.now) (F.post parts.now) }
    ensures { Gives (seen source.entry (λ es. expressions_syntax es.items)) result (if stands Assign (cursor
        source.entry place) then read_expressions (go_text source.entry) (parts_of source.entry) false (behind (cursor
        source.entry place)) else Some (no_expression, cursor source.entry place)) }
{
    if !source.stands(place, TokenKind::Assign) {
        return Ok((Vec::new(source.alloc), place));
    }
    expressions(source, parts, false, source.behind(place))
}

/// What one line declares of constants or variables, and the place after it.
#[tactic(auto, unfolding(tree_reader::specs::Reader::read_value_spec))]
fn value_spec<F: Fn(Wanted, TokenPlace) -> Read<Expr>>(
    source: SourceTokens<'_>,
    parts: &F,
    keyword: DeclKeyword,
    place: TokenPlace,
) -> Read<Spec>
    requires { ReadsExpressions source (F.pre parts.now) (F.post parts.now) }
    ensures { Gives (seen source.entry spec_and) result (read_value_spec (go_text source.entry) (parts_of source.entry)
        keyword (cursor source.entry place)) }
{
    let (names, after_names) = identifiers(source, place)?;
    // Variables have a type or values, which are at least one deep.
    if let DeclKeyword::Var = keyword {
        if source.below == 0 {
            return Err(Stop::TooDeep);
        }
    }
    let (kind, after_kind) = value_type(source, parts, after_names)?;
    let (values, end) = holding!(optional_expression: kind; values(source, parts, after_kind));
    if !value_fits(keyword, &kind, &values) {
        release::optional_expression(kind);
        release::expressions(values);
        return Err(source.unexpected(end));
    }
    let span = source.span_to(place, end);
    Ok((make::statement::value_spec(names, kind, values, span), end))
}

/// A type, or `=` and a type, behind the name and the type parameters of what is declared at `from`.
#[tactic(auto, unfolding(tree_reader::specs::Reader::read_plain_type))]
fn plain_type<F: Fn(Wanted, TokenPlace) -> Read<Expr>>(
    source: SourceTokens<'_>,
    parts: &F,
    declared: Begun<Identifier>,
    params: Vec<Param>,
) -> Read<Spec>
    requires { ReadsExpressions source (F.pre parts.now) (F.post parts.now) }
    ensures { Gives (seen source.entry spec_and) result (read_plain_type (go_text source.entry) (parts_of source.entry)
        (cursor source.entry declared.from) (identifier_syntax declared.first) (parameters_syntax params.items) (cursor
        source.entry declared.place)) }
{
    let Begun {
        from,
        first: name,
        place,
    } = declared;
    let is_alias = source.stands(place, TokenKind::Assign);
    let start = source.past(place, TokenKind::Assign);
    let (kind, end) = holding!(params: params; type_expression(source, parts, start));
    let kept = holding!(params: params; memory boxed::expression(source.alloc, kind));
    let span = source.span_to(from, end);
    Ok((
        make::statement::type_spec(name, params, is_alias, kept, span),
        end,
    ))
}

/// Type parameters and a type, behind the name of what is declared at `from`. What stands in the brackets may have been
/// read as a length already, up to `length_end`.
#[tactic(auto, unfolding(tree_reader::specs::Reader::read_generic_type))]
fn generic_type<F: Fn(Wanted, TokenPlace) -> Read<Expr>>(
    source: SourceTokens<'_>,
    parts: &F,
    length_end: Option<TokenPlace>,
    declared: Begun<Identifier>,
) -> Read<Spec>
    requires parts { ReadsExpressions source (F.pre parts.now) (F.post parts.now) }
    requires bracket { stands LeftBracket (cursor source declared.place) ≡ true }
    ensures { Gives (seen source.entry spec_and) result (read_generic_type (go_text source.entry) (parts_of
        source.entry) (cursor source.entry declared.from) (identifier_syntax declared.first) (cursor source.entry
        declared.place)) }
{
    let Begun {
        from,
        first: name,
        place,
    } = declared;
    let (params, rest) = parameters_or_fault(source, parts, length_end, place)?;
    if begins_parameters(source, place) || is_one_parameter(&params) {
        let named = Begun {
            from,
            first: name,
            place: rest,
        };
        return plain_type(source, parts, named, params);
    }
    release::params(params);
    Err(source.unexpected(rest))
}

/// Type parameters and a type, behind the name of what is declared at `from`, where the one type parameter was read as
/// a length. It is not read again, so that nested texts are not read twice at each level; but where it has a fault,
/// reading it tells where.
fn split_type<F: Fn(Wanted, TokenPlace) -> Read<Expr>>(
    source: SourceTokens<'_>,
    parts: &F,
    declared: Begun<Identifier>,
    length: Begun<Expr>,
) -> Read<Spec>
    requires parts { ReadsExpressions source (F.pre parts.now) (F.post parts.now) }
    requires bracket { stands LeftBracket (cursor source declared.place) ≡ true }
    requires inner { cursor source length.from ≡ behind (cursor source declared.place) }
    requires read { read_any (go_text source) (parts_of source) (cursor source length.from) ≡ Some (
      expression_syntax
          length.first,
      cursor source length.place,
    ) }
    requires is_parameter { is_parameter (expression_syntax length.first) ≡ true }
    ensures { Gives (seen source.entry spec_and) result (read_generic_type (go_text source.entry) (parts_of
        source.entry) (cursor source.entry declared.from) (identifier_syntax declared.first) (cursor source.entry
        declared.place)) }
{
    let Begun {
        from: inner,
        first: read,
        place: rest,
    } = length;
    if !ends_plainly(source, inner, rest) {
        release::expression(read);
        return generic_type(source, parts, Some(rest), declared);
    }
    let Begun {
        from,
        first: name,
        place,
    } = declared;
    let start = source.start(source.behind(inner));
    let constraint = constraint_of(source, start, read, rest)?;
    if !is_constraint(&constraint) {
        release::expression(constraint);
        let declared = Begun {
            from,
            first: name,
            place,
        };
        return generic_type(source, parts, Some(rest), declared);
    }
    let params = only_parameter(source, inner, constraint)?;
    let named = Begun {
        from,
        first: name,
        place: source.behind(rest),
    };
    plain_type(source, parts, named, params)
}

/// A type that begins with the length of an array, behind the name of what is declared at `from`, unless this is read
/// as a type parameter.
#[tactic(auto, unfolding(tree_reader::specs::Reader::read_length_or_parameter))]
fn length_or_parameter<F: Fn(Wanted, TokenPlace) -> Read<Expr>>(
    source: SourceTokens<'_>,
    parts: &F,
    declared: Begun<Identifier>,
) -> Read<Spec>
    requires parts { ReadsExpressions source (F.pre parts.now) (F.post parts.now) }
    requires bracket { stands LeftBracket (cursor source declared.place) ≡ true }
    ensures { Gives (seen source.entry spec_and) result (read_length_or_parameter (go_text source.entry) (parts_of
        source.entry) (cursor source.entry declared.from) (identifier_syntax declared.first) (cursor source.entry
        declared.place)) }
{
    let Begun {
        from,
        first: name,
        place,
    } = declared;
    let inner = source.behind(place);
    let (read, rest) = expression(source, parts, false, 1, inner)?;
    if is_parameter(&read) {
        let declared = Begun {
            from,
            first: name,
            place,
        };
        let length = Begun {
            from: inner,
            first: read,
            place: rest,
        };
        return split_type(source, parts, declared, length);
    }
    let after = holding!(expression: read; source.take(rest, TokenKind::RightBracket));
    let (element, end) = holding!(expression: read; type_expression(source, parts, after));
    let kept = holding!(expression: read; memory boxed::expression(source.alloc, element));
    let count = holding!(boxed_expression: kept; memory boxed::expression(source.alloc, read));
    let array = make::types::array_type(count, kept, source.span_to(place, end));
    if !within(source, &array) {
        release::expression(array);
        return Err(Stop::TooDeep);
    }
    let kind = boxed::expression(source.alloc, array)?;
    let span = source.span_to(from, end);
    Ok((
        make::statement::type_spec(name, Vec::new(source.alloc), false, kind, span),
        end,
    ))
}

/// What one line declares of types, and the place after it.
#[tactic(auto, unfolding(tree_reader::specs::Reader::read_type_spec))]
fn type_spec<F: Fn(Wanted, TokenPlace) -> Read<Expr>>(
    source: SourceTokens<'_>,
    parts: &F,
    place: TokenPlace,
) -> Read<Spec>
    requires { ReadsExpressions source (F.pre parts.now) (F.post parts.now) }
    ensures { Gives (seen source.entry spec_and) result (read_type_spec (go_text source.entry) (parts_of source.entry)
        (cursor source.entry place)) }
{
    let (name, rest) = identifier(source, place)?;
    let has_bracket = source.stands(rest, TokenKind::LeftBracket);
    let declared = Begun {
        from: place,
        first: name,
        place: rest,
    };
    if !(source.is_second() && (has_bracket && source.has_name(source.behind(rest)))) {
        return plain_type(source, parts, declared, Vec::new(source.alloc));
    }
    if begins_parameters(source, rest) {
        generic_type(source, parts, None, declared)
    } else {
        length_or_parameter(source, parts, declared)
    }
}

/// What one line declares, and the place after it.
fn spec<F: Fn(Wanted, TokenPlace) -> Read<Expr>>(
    source: SourceTokens<'_>,
    parts: &F,
    keyword: DeclKeyword,
    place: TokenPlace,
) -> Read<Spec>
    requires { ReadsExpressions source (F.pre parts.now) (F.post parts.now) }
    ensures { Gives (seen source.entry spec_and) result (read_spec (go_text source.entry) (parts_of source.entry)
        keyword (cursor source.entry place)) }
{
    match keyword {
        DeclKeyword::Const => value_spec(source, parts, DeclKeyword::Const, place),
        DeclKeyword::Var => value_spec(source, parts, DeclKeyword::Var, place),
        DeclKeyword::Type => type_spec(source, parts, place),
    }
}

/// Lines up to a closing bracket, each with its semicolon, and the place after them.
fn specs<F: Fn(Wanted, TokenPlace) -> Read<Expr>>(
    source: SourceTokens<'_>,
    parts: &F,
    keyword: DeclKeyword,
    place: TokenPlace,
) -> Read<Vec<Spec>>
    requires { ReadsExpressions source (F.pre parts.now) (F.post parts.now) }
    ensures { Gives (seen source.entry (λ specs. specs_syntax specs.items)) result (read_specs
        (go_text source.entry) (parts_of source.entry) keyword (steps (cursor source.entry place)) (cursor source.entry
        place)) }
{
    let mut read = Vec::new(source.alloc);
    let mut rest = place;
    for _ in 0..source.steps(place) {
        if source.stands(rest, TokenKind::RightParenthesis) {
            return Ok((read, rest));
        }
        let (item, end) = holding!(specs: read; spec(source, parts, keyword, rest));
        let after = holding!(specs: read, spec: item; source.semicolon(end));
        read = list::with_spec(read, item)?;
        rest = after;
    }
    release::specs(read);
    Err(source.unexpected(rest))
}

/// A declaration, at its word.
///
/// # Errors
///
/// Where another token stands, and out of memory.
#[tactic(auto, unfolding(tree_reader::specs::Reader::read_declaration))]
pub fn declaration<F: Fn(Wanted, TokenPlace) -> Read<Expr>>(
    source: SourceTokens<'_>,
    parts: &F,
    keyword: DeclKeyword,
    place: TokenPlace,
) -> Read<Decl>
    requires { ReadsExpressions source (F.pre parts.now) (F.post parts.now) }
    ensures { Gives (seen source.entry declaration_syntax) result (read_declaration (go_text source.entry) (parts_of
        source.entry) keyword (cursor source.entry place)) }
{
    let inner = source.behind(place);
    if !source.stands(inner, TokenKind::LeftParenthesis) {
        let (only, end) = spec(source, parts, keyword, inner)?;
        let specs = list::with_spec(Vec::new(source.alloc), only)?;
        let declared = Decl {
            keyword,
            specs,
            is_grouped: false,
            span: source.span_to(place, end),
        };
        return Ok((declared, end));
    }
    let (specs, rest) = specs(source, parts, keyword, source.behind(inner))?;
    let end = holding!(specs: specs; source.take(rest, TokenKind::RightParenthesis));
    let declared = Decl {
        keyword,
        specs,
        is_grouped: true,
        span: source.span_to(place, end),
    };
    Ok((declared, end))
}
