//! Two functions of one name.

ghost use Rattle.std.specs.Prelude.{◌≡◌, ℕ, List, ◌&&◌, ◌||◌, IfOk, OnOk, is_some, None, map, option_map};
ghost use Rattle.std.specs.Str.{bytes_eq};
ghost use Rattle.meaning.specs.OuterBlocks.{can_be_meant};
ghost use Rattle.meaning.specs.TwoFunctions.{FunctionName, function_names_in, is_called_before, second_after, second_function};
ghost use Rattle.names.specs.Answers.{at_name, function_name_view};
ghost use Rattle.tree.specs.View.{function_syntax, top_level_syntax, file_syntax};

use crate::package_block::can_be_meant;
use indexmap::IndexMap;
use std::alloc::{AllocError, Global};
use tree::{File, Func, Identifier, TopLevelDecl};

/// Whether a function of that name was seen before; then it is seen.
fn is_second<'a>(seen: &mut IndexMap<&'a str, ()>, function: &'a Func) -> Result<bool, AllocError>
    ensures second { IfOk result (λ second. second ≡ (can_be_meant (function_syntax function.now) && is_some
        (at_name seen.old (function_syntax function.now).name.text))) }
    ensures seen { OnOk result ((name : List ℕ) → is_some (at_name seen.new name) ≡ ((can_be_meant
        (function_syntax function.now) && bytes_eq (function_syntax function.now).name.text name) || is_some
        (at_name seen.old name))) }
{
    if !can_be_meant(function) {
        return Ok(false);
    }
    let old = seen.insert(function.name.text.as_str(), ())?;
    Ok(old.is_some())
}

/// The name of the first function of a file whose name was seen before, where the functions of the files before it, and
/// no others, were seen. If there is none, its functions are seen too.
fn second_in<'a>(
    seen: &mut IndexMap<&'a str, ()>,
    declarations: &'a [TopLevelDecl],
) -> Result<Option<&'a Identifier>, AllocError>
    ensures second { IfOk result (λ second. (file : ℕ) (earlier : List FunctionName) →
        ((f : FunctionName) → is_some (at_name seen.old f.name.text) ≡ is_called_before f earlier) → option_map
        (λ name. function_name_view file name.now) second ≡ second_after earlier (function_names_in file
        (map top_level_syntax declarations.now))) }
    ensures seen { IfOk result (λ second. second ≡ None → (file : ℕ) (f : FunctionName) → is_some
        (at_name seen.new f.name.text) ≡ (is_called_before f (function_names_in file
        (map top_level_syntax declarations.now)) || is_some (at_name seen.old f.name.text))) }
{
    for declaration in declarations {
        if let TopLevelDecl::Func(function) = declaration {
            if is_second(seen, function)? {
                return Ok(Some(&function.name));
            }
        }
    }
    Ok(None)
}

/// The first function whose name an earlier one has: the number of its file, and its name there.
///
/// # Errors
///
/// Memory was refused.
pub fn second_function<'a>(
    alloc: Global,
    files: &'a [File],
) -> Result<Option<(usize, &'a Identifier)>, AllocError>
    ensures { IfOk result (λ found. option_map (λ f. function_name_view f.0 f.1.now) found ≡ second_function
        (map file_syntax files.now)) }
{
    let mut seen = IndexMap::new(alloc);
    for number in 0..files.len() {
        if let Some(name) = second_in(&mut seen, &files[number].declarations)? {
            return Ok(Some((number, name)));
        }
    }
    Ok(None)
}
