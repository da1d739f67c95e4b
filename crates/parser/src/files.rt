//! Files and what stands in them (the Go specification, "Source file organization", "Function declarations", "Method
//! declarations"). What a file declares is as deep as the source lets it be.

ghost use Rattle.std.specs.Prelude.{◌≡◌, map, option_map};
ghost use Rattle.meaning.specs.declared.TheConstants.{MOST_DEPTH};
ghost use Rattle.tree.specs.View.{block_syntax, file_syntax, function_syntax, identifier_syntax, import_syntax, parameters_syntax, top_level_syntax};
ghost use Rattle.parser_base.specs.Gives.{Gives};
ghost use Rattle.parser_base.specs.Parts.{ReadsExpressions, ReadsStatements};
ghost use Rattle.parser_base.specs.Places.{cursor, seen, go_text};
ghost use Rattle.tree_reader.specs.Reader.{is_over, read_imports, read_receiver, read_body, read_function_parameters, read_function_declaration, read_top_level, read_top_levels, read_file};
ghost use Rattle.tree_reader.specs.Reading.{steps};
ghost use Rattle.parser.specs.FileParts.{read_declared, read_front};
ghost use Rattle.parser.specs.Faults.{GivesOrRefuses};

use crate::fault::{ParseFault, fault_in};
use lexer::TokenKind;
use parser_base::cursor::{Read, SourceTokens, TokenPlace};
use parser_base::declarations::import;
use parser_base::fault::{LeftOut, Stop};
use parser_base::holding;
use parser_base::names::identifier;
use parser_base::parts::Wanted;
use parser_parts::blocks::block;
use parser_parts::constraints::{Faults, type_parameters};
use parser_parts::signatures::{parameters, signature};
use parser_statements::declarations::declaration;
use tree::{Block, Expr, File, Func, Identifier, ImportDecl, Param, Stmt, TopLevelDecl};
use tree_hold::{list, release};

/// Whether no token is left.
fn is_over(source: SourceTokens<'_>, place: TokenPlace) -> bool
    ensures { result ≡ is_over (go_text source.entry) (cursor source.entry place) }
{
    match source.tokens.get(place.at) {
        Some(_) => false,
        None => true,
    }
}

/// Imports, each with its semicolon, and the place after them.
///
/// # Errors
///
/// Where another token stands than one can have there, and out of memory.
fn imports(source: SourceTokens<'_>, place: TokenPlace) -> Read<Vec<ImportDecl>>
    ensures { Gives (seen source.entry (λ is. map import_syntax is.items)) result (read_imports (go_text source.entry)
        (steps (cursor source.entry place)) (cursor source.entry place)) }
{
    let mut items = Vec::new(source.alloc);
    let mut rest = place;
    for _ in 0..source.steps(place) {
        if !source.stands(rest, TokenKind::ImportKeyword) {
            return Ok((items, rest));
        }
        let (item, end) = import(source, rest)?;
        let after = source.semicolon(end)?;
        items.push(item)?;
        rest = after;
    }
    Err(source.unexpected(rest))
}

/// The receiver of a method, if one stands here.
///
/// # Errors
///
/// Where another token stands, and out of memory.
#[tactic(auto, unfolding(tree_reader::specs::Reader::read_receiver_within))]
fn receiver<F: Fn(Wanted, TokenPlace) -> Read<Expr>>(
    source: SourceTokens<'_>,
    parts: &F,
    place: TokenPlace,
) -> Read<Option<Vec<Param>>>
    requires expressions { ReadsExpressions source (F.pre parts.now) (F.post parts.now) }
    requires top { source.below ≡ MOST_DEPTH }
    ensures { Gives (seen source.entry (option_map (λ ps. parameters_syntax ps.items))) result (read_receiver
        (go_text source.entry) (cursor source.entry place)) }
{
    if !source.stands(place, TokenKind::LeftParenthesis) {
        return Ok((None, place));
    }
    let (items, rest) = parameters(source, parts, place)?;
    Ok((Some(items), rest))
}

/// The block of a function, if it has one.
///
/// # Errors
///
/// Where another token stands, and out of memory.
#[tactic(auto, unfolding(tree_reader::specs::Reader::read_body_within))]
fn body<S: Fn(TokenPlace) -> Read<Stmt>>(
    source: SourceTokens<'_>,
    statements: &S,
    place: TokenPlace,
) -> Read<Option<Block>>
    requires statements { ReadsStatements source (S.pre statements.now) (S.post statements.now) }
    requires top { source.below ≡ MOST_DEPTH }
    ensures { Gives (seen source.entry (option_map block_syntax)) result (read_body (go_text source.entry) (cursor
        source.entry place)) }
{
    if !source.stands(place, TokenKind::LeftBrace) {
        return Ok((None, place));
    }
    let (inner, end) = block(source, statements, place)?;
    Ok((Some(inner), end))
}

/// The type parameters of a function, which no method has: in the second edition, if they stand here.
///
/// # Errors
///
/// Where another token stands, and out of memory.
#[tactic(auto, unfolding(tree_reader::specs::Reader::read_function_parameters))]
fn function_parameters<F: Fn(Wanted, TokenPlace) -> Read<Expr>>(
    source: SourceTokens<'_>,
    parts: &F,
    receiver: &Option<Vec<Param>>,
    place: TokenPlace,
) -> Read<Vec<Param>>
    requires expressions { ReadsExpressions source (F.pre parts.now) (F.post parts.now) }
    requires top { source.below ≡ MOST_DEPTH }
    ensures { Gives (seen source.entry (λ ps. parameters_syntax ps.items)) result (read_function_parameters (go_text
        source.entry) MOST_DEPTH (option_map (λ ps. parameters_syntax ps.items) receiver.now) (cursor source.entry
        place)) }
{
    match receiver {
        Some(_) => Ok((Vec::new(source.alloc), place)),
        None => if source.is_second() && source.stands(place, TokenKind::LeftBracket) {
            type_parameters(source, parts, Faults::OfTypes, place)
        } else {
            Ok((Vec::new(source.alloc), place))
        },
    }
}

/// A function or a method, at its word.
///
/// # Errors
///
/// Where another token stands, and out of memory.
#[tactic(auto, unfolding(tree_reader::specs::Reader::read_function_declaration_within))]
fn function<F: Fn(Wanted, TokenPlace) -> Read<Expr>, S: Fn(TokenPlace) -> Read<Stmt>>(
    source: SourceTokens<'_>,
    parts: &F,
    statements: &S,
    place: TokenPlace,
) -> Read<Func>
    requires expressions { ReadsExpressions source (F.pre parts.now) (F.post parts.now) }
    requires statements { ReadsStatements source (S.pre statements.now) (S.post statements.now) }
    requires top { source.below ≡ MOST_DEPTH }
    ensures { Gives (seen source.entry function_syntax) result (read_function_declaration (go_text source.entry) (cursor
        source.entry place)) }
{
    let (on, at_name) = receiver(source, parts, source.behind(place))?;
    let (name, rest) = holding!(optional_params: on; identifier(source, at_name));
    if !source.is_second() {
        if source.stands(rest, TokenKind::LeftBracket) {
            release::optional_params(on);
            return Err(Stop::LeftOut(LeftOut::TypeParameters, source.start(rest)));
        }
    }
    let (type_params, at_signature) =
        holding!(optional_params: on; function_parameters(source, parts, &on, rest));
    let (takes, at_body) =
        holding!(optional_params: on, params: type_params; signature(source, parts, at_signature));
    let (inner, end) =
        holding!(optional_params: on, params: type_params, signature: takes; body(source, statements, at_body));
    let declared = Func {
        receiver: on,
        name,
        type_params,
        signature: takes,
        body: inner,
        span: source.span_to(place, end),
    };
    Ok((declared, end))
}

/// What stands in a file after its imports.
///
/// # Errors
///
/// Where another token stands, and out of memory.
#[tactic(auto, unfolding(tree_reader::specs::Reader::read_top_level_within))]
fn top_level<F: Fn(Wanted, TokenPlace) -> Read<Expr>, S: Fn(TokenPlace) -> Read<Stmt>>(
    source: SourceTokens<'_>,
    parts: &F,
    statements: &S,
    place: TokenPlace,
) -> Read<TopLevelDecl>
    requires expressions { ReadsExpressions source (F.pre parts.now) (F.post parts.now) }
    requires statements { ReadsStatements source (S.pre statements.now) (S.post statements.now) }
    requires top { source.below ≡ MOST_DEPTH }
    ensures { Gives (seen source.entry top_level_syntax) result (read_top_level (go_text source.entry) (cursor
        source.entry place)) }
{
    if source.stands(place, TokenKind::FuncKeyword) {
        let (declared, end) = function(source, parts, statements, place)?;
        return Ok((TopLevelDecl::Func(declared), end));
    }
    match source.next_declaration_keyword(place) {
        Some(keyword) => {
            let (declared, end) = declaration(source, parts, keyword, place)?;
            Ok((TopLevelDecl::Decl(declared), end))
        }
        None => Err(source.unexpected(place)),
    }
}

/// A declaration and the semicolon after it.
///
/// # Errors
///
/// Where another token stands, and out of memory.
#[tactic(auto, unfolding(crate::specs::FileParts::read_declared))]
fn declared<F: Fn(Wanted, TokenPlace) -> Read<Expr>, S: Fn(TokenPlace) -> Read<Stmt>>(
    source: SourceTokens<'_>,
    parts: &F,
    statements: &S,
    place: TokenPlace,
) -> Read<TopLevelDecl>
    requires expressions { ReadsExpressions source (F.pre parts.now) (F.post parts.now) }
    requires statements { ReadsStatements source (S.pre statements.now) (S.post statements.now) }
    requires top { source.below ≡ MOST_DEPTH }
    ensures { Gives (seen source.entry top_level_syntax) result (read_declared (go_text source.entry) (cursor
        source.entry place)) }
{
    let (item, end) = top_level(source, parts, statements, place)?;
    let after = holding!(top_level: item; source.semicolon(end));
    Ok((item, after))
}

/// Declarations to the end of the tokens, and the place after them.
///
/// # Errors
///
/// Where another token stands, where a declaration is too deep, and out of memory.
fn top_levels<F: Fn(Wanted, TokenPlace) -> Read<Expr>, S: Fn(TokenPlace) -> Read<Stmt>>(
    source: SourceTokens<'_>,
    parts: &F,
    statements: &S,
    place: TokenPlace,
) -> Result<(Vec<TopLevelDecl>, TokenPlace), ParseFault>
    requires expressions { ReadsExpressions source (F.pre parts.now) (F.post parts.now) }
    requires statements { ReadsStatements source (S.pre statements.now) (S.post statements.now) }
    requires top { source.below ≡ MOST_DEPTH }
    ensures { GivesOrRefuses source.entry.text.now (seen source.entry (λ ds. map top_level_syntax ds.items)) result
        (read_top_levels (go_text source.entry) (steps (cursor source.entry place)) (cursor source.entry place)) }
{
    let mut items = Vec::new(source.alloc);
    let mut rest = place;
    for _ in 0..source.steps(place) {
        if is_over(source, rest) {
            return Ok((items, rest));
        }
        let (item, after) = match declared(source, parts, statements, rest) {
            Ok(read) => read,
            Err(stop) => {
                release::top_levels(items);
                return Err(fault_in(source.text, stop, source.start(rest)));
            }
        };
        items = match list::with_top_level(items, item) {
            Ok(longer) => longer,
            Err(_) => return Err(ParseFault::OutOfMemory),
        };
        rest = after;
    }
    release::top_levels(items);
    Err(fault_in(source.text, source.unexpected(rest), 0))
}

/// What a file begins with: its package clause's name and its imports.
type Front = (Identifier, Vec<ImportDecl>);

/// What a file begins with, and the place after it.
///
/// # Errors
///
/// Where another token stands, and out of memory.
#[tactic(auto, unfolding(crate::specs::FileParts::read_front))]
fn front(source: SourceTokens<'_>, place: TokenPlace) -> Read<Front>
    ensures { Gives (seen source.entry (λ front. (identifier_syntax front.0, map import_syntax front.1.items))) result
        (read_front (go_text source.entry) (cursor source.entry place)) }
{
    let word = source.take(place, TokenKind::PackageKeyword)?;
    let (name, end) = identifier(source, word)?;
    let at_imports = source.semicolon(end)?;
    let (items, rest) = imports(source, at_imports)?;
    Ok(((name, items), rest))
}

/// A file, of all tokens from a place on.
///
/// # Errors
///
/// Where another token stands, where a declaration is too deep, and out of memory.
pub fn file<F: Fn(Wanted, TokenPlace) -> Read<Expr>, S: Fn(TokenPlace) -> Read<Stmt>>(
    source: SourceTokens<'_>,
    parts: &F,
    statements: &S,
    place: TokenPlace,
) -> Result<(File, TokenPlace), ParseFault>
    requires expressions { ReadsExpressions source (F.pre parts.now) (F.post parts.now) }
    requires statements { ReadsStatements source (S.pre statements.now) (S.post statements.now) }
    requires top { source.below ≡ MOST_DEPTH }
    ensures { GivesOrRefuses source.entry.text.now (seen source.entry file_syntax) result (read_file
        (go_text source.entry) (cursor source.entry place)) }
{
    let ((package_name, imports), rest) = match front(source, place) {
        Ok(read) => read,
        Err(stop) => return Err(fault_in(source.text, stop, 0)),
    };
    let (declarations, end) = top_levels(source, parts, statements, rest)?;
    let span = source.span_to(place, end);
    let read = File {
        package_name,
        imports,
        declarations,
        span,
    };
    Ok((read, end))
}
