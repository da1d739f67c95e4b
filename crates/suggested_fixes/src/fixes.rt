//! The fixes of a file.

ghost use Rattle.std.specs.Prelude.{◌≡◌, length, true, IfOk, OnOk};
ghost use Rattle.suggested_fixes.specs.Edits.{lie_within};

use crate::edits::{Edit, Fix, FixKind, are_within};
use crate::functions::{Function, functions_of, is_taken};
use crate::names::{Names, only_blank};
use crate::scans::Scan;
use crate::statements::{Line, Obtaining, line_behind, obtaining_at};
use crate::tokens::{Text, behind, end_of, is_identifier, is_word, kind_at, start_of, word_at};
use crate::uses::{all_stay, is_untouched, jumps};
use lexer::{LexFault, Source, Token, TokenKind, lex};
use memchr::memmem::Finder;
use std::alloc::{AllocError, Global};

/// The most statements of a function for which something is suggested: as many cancel functions are followed.
const MOST_STATEMENTS: usize = 48;

/// Names for a cancel function that has none, in the order in which they are tried.
fn free_name(text: Text<'_>, function: Function) -> Option<&'static str> {
    if !is_taken(text, function, b"cancel") {
        Some("cancel")
    } else if !is_taken(text, function, b"cancelContext") {
        Some("cancelContext")
    } else if !is_taken(text, function, b"stopContext") {
        Some("stopContext")
    } else {
        None
    }
}

/// The line that defers the call of the cancel function of this name.
fn deferred(
    alloc: Global,
    line: Line<'_>,
    name: &str,
    takes_cause: bool,
) -> Result<Edit, AllocError> {
    let mut new = String::from_str(alloc, text_of(line.indentation))?;
    new.push_str("defer ")?;
    new.push_str(name)?;
    new.push_str(if takes_cause { "(nil)\n" } else { "()\n" })?;
    Ok(Edit {
        start: line.offset,
        end: line.offset,
        new,
    })
}

/// These bytes as a text: those of tokens, and white space, are one.
fn text_of(bytes: &[u8]) -> &str {
    match str::from_utf8(bytes) {
        Ok(text) => text,
        Err(_) => "",
    }
}

/// A file whose fixes are looked for.
#[derive(Clone, Copy)]
struct Given<'a> {
    alloc: Global,
    name: &'a str,
    text: Text<'a>,
}

/// The fix for a cancel function that is bound to the name at the token.
fn fix_of_name(
    given: Given<'_>,
    function: Function,
    obtaining: Obtaining,
    line: Line<'_>,
    bound: usize,
) -> Result<Fix, AllocError> {
    let Given { alloc, name, text } = given;
    let word = text_of(word_at(text, bound));
    let mut edits = Vec::new(alloc);
    edits.push(deferred(alloc, line, word, obtaining.gift.takes_cause)?)?;
    Ok(Fix {
        file: String::from_str(alloc, name)?,
        kind: FixKind::Named,
        name: String::from_str(alloc, word)?,
        from: line.offset,
        to: start_of(text, function.close),
        edits,
    })
}

/// The fix for a cancel function for which `_` stands at the token, where it gets this name.
fn fix_of_blank(
    given: Given<'_>,
    obtaining: Obtaining,
    line: Line<'_>,
    bound: usize,
    own: &str,
) -> Result<Fix, AllocError> {
    let Given { alloc, name, text } = given;
    let first = start_of(text, obtaining.names.first);
    let mut edits = Vec::new(alloc);
    edits.push(Edit {
        start: start_of(text, bound),
        end: end_of(text, bound),
        new: String::from_str(alloc, own)?,
    })?;
    edits.push(deferred(alloc, line, own, obtaining.gift.takes_cause)?)?;
    Ok(Fix {
        file: String::from_str(alloc, name)?,
        kind: FixKind::Blank,
        name: String::from_str(alloc, text_of(word_at(text, obtaining.gift.name)))?,
        from: first,
        to: first,
        edits,
    })
}

/// Whether the cancel function may be at the place of this `_`: functions of packages give it last.
fn may_be_for_cancel(obtaining: Obtaining, blank: usize) -> bool {
    let Names { define, .. } = obtaining.names;
    let is_of_package = obtaining.gift.name == behind(define, 3);
    !is_of_package || behind(blank, 1) == define
}

/// Adds the fix for a `_` in place of the cancel function.
fn add_of_blank(
    fixes: &mut Vec<Fix>,
    given: Given<'_>,
    function: Function,
    obtaining: Obtaining,
    line: Line<'_>,
) -> Result<(), AllocError> {
    let text = given.text;
    let Some(blank) = only_blank(text, obtaining.names) else {
        return Ok(());
    };
    let Some(own) = free_name(text, function) else {
        return Ok(());
    };
    if !may_be_for_cancel(obtaining, blank)
        || !all_stay(text, function, obtaining, blank, line.error)
    {
        return Ok(());
    }
    fixes.push(fix_of_blank(given, obtaining, line, blank, own)?)?;
    Ok(())
}

/// Whether the cancel function may be bound to the name at the token, and the call of that may be deferred.
fn may_be_deferred(
    text: Text<'_>,
    function: Function,
    obtaining: Obtaining,
    bound: usize,
    error: usize,
) -> bool {
    is_identifier(text, bound)
        && !is_word(text, bound, b"_")
        && is_untouched(text, function, bound)
        && all_stay(text, function, obtaining, bound, error)
}

/// Adds the fixes for what a statement obtains.
fn add_of_statement(
    fixes: &mut Vec<Fix>,
    given: Given<'_>,
    function: Function,
    obtaining: Obtaining,
) -> Result<(), AllocError> {
    let text = given.text;
    let Some(line) = line_behind(text, obtaining) else {
        return Ok(());
    };
    for bound in obtaining.names.first..obtaining.names.define {
        if may_be_deferred(text, function, obtaining, bound, line.error) {
            fixes.push(fix_of_name(given, function, obtaining, line, bound)?)?;
        }
    }
    add_of_blank(fixes, given, function, obtaining, line)
}

/// The statement with the `:=` at the token, if there is one which obtains a cancel function where a call may be
/// deferred: in no loop, and in no literal.
fn obtaining_in(
    text: Text<'_>,
    functions: &[Function],
    scan: Scan,
    at: usize,
) -> Option<Obtaining> {
    if kind_at(text, at) != TokenKind::Define || scan.is_in_loop() || scan.is_in_literal() {
        return None;
    }
    obtaining_at(text, functions, scan.first, at)
}

/// Adds the fixes for what a function obtains.
fn add_of_function(
    fixes: &mut Vec<Fix>,
    given: Given<'_>,
    functions: &[Function],
    function: Function,
) -> Result<(), AllocError> {
    let text = given.text;
    if jumps(text, function) {
        return Ok(());
    }
    let mut scan = Scan::at(function.open);
    let mut count: usize = 0;
    for at in function.open..function.close {
        if let Some(obtaining) = obtaining_in(text, functions, scan, at) {
            count = count.saturating_add(1);
            if count > MOST_STATEMENTS {
                return Ok(());
            }
            add_of_statement(fixes, given, function, obtaining)?;
        }
        scan = scan.behind(text, at);
    }
    Ok(())
}

/// The fixes of a file with these tokens.
fn fixes_of(alloc: Global, source: &Source, tokens: &[Token]) -> Result<Vec<Fix>, AllocError> {
    let given = Given {
        alloc,
        name: source.name.as_str(),
        text: Text {
            bytes: &source.bytes,
            tokens,
        },
    };
    let functions = functions_of(alloc, given.text)?;
    let mut fixes = Vec::new(alloc);
    for function in &functions {
        add_of_function(&mut fixes, given, &functions, *function)?;
    }
    Ok(fixes)
}

/// Adds the fix, if its edits lie within a text of so many bytes.
fn add_within(fixes: &mut Vec<Fix>, size: usize, fix: Fix) -> Result<(), AllocError>
    requires { lie_within size fixes.old.items ≡ true }
    ensures { OnOk result (lie_within size fixes.new.items ≡ true) }
{
    if !are_within(size, &fix.edits) {
        return Ok(());
    }
    fixes.push(fix)?;
    Ok(())
}

/// Those of the fixes whose edits lie within a text of so many bytes.
fn all_within(alloc: Global, size: usize, found: Vec<Fix>) -> Result<Vec<Fix>, AllocError>
    ensures { IfOk result (λ fixes. lie_within size fixes.items ≡ true) }
{
    let mut fixes = Vec::new(alloc);
    for fix in found {
        add_within(&mut fixes, size, fix)?;
    }
    Ok(fixes)
}

/// Whether a file may obtain a cancel function, as far as is looked for: few files do.
fn may_obtain(bytes: &[u8]) -> bool {
    Finder::new(b"context.With").find(bytes).is_some()
        || Finder::new(b"context.Cancel").find(bytes).is_some()
        || Finder::new(b"signal.NotifyContext").find(bytes).is_some()
}

/// What to change in a file so that cancel functions are called that are not. A file without tokens has no fixes.
///
/// # Errors
///
/// Memory was refused.
pub fn suggested_fixes(alloc: Global, source: &Source) -> Result<Vec<Fix>, AllocError>
    ensures { IfOk result (λ fixes. lie_within (length source.now.bytes.items) fixes.items ≡ true) }
{
    if !may_obtain(&source.bytes) {
        return Ok(Vec::new(alloc));
    }
    let tokens = match lex(alloc, source) {
        Ok(tokens) => tokens,
        Err(LexFault::OutOfMemory) => return Err(AllocError),
        Err(_) => return Ok(Vec::new(alloc)),
    };
    let found = fixes_of(alloc, source, &tokens)?;
    all_within(alloc, source.bytes.len(), found)
}
