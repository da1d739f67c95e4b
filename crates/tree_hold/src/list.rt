//! Lists that grow by one part. Where memory runs out, all of it is let go.

ghost use Rattle.std.specs.Prelude.{◌≡◌, ◌++◌, ◌∷◌, [], IfOk};

use std::alloc::AllocError;
use tree::{CaseClause, CommClause, Expr, Field, Param, Spec, Stmt, TopLevelDecl};

/// Most lists of a tree have one part or two. So long a list has no room to spare.
const MOST_EXACT: usize = 2;

/// A list, and a part after it.
///
/// # Errors
///
/// Out of memory.
fn with_part<T: Drop>(mut list: Vec<T>, part: T) -> Result<Vec<T>, AllocError>
    ensures { IfOk result (λ longer. longer.items ≡ list.items ++ (part ∷ [])) }
{
    if list.len() < MOST_EXACT {
        list.reserve_exact(1)?;
    }
    list.push(part)?;
    Ok(list)
}

/// A list, and an expression after it.
///
/// # Errors
///
/// Out of memory.
pub fn with_expression(list: Vec<Expr>, part: Expr) -> Result<Vec<Expr>, AllocError>
    ensures { IfOk result (λ longer. longer.items ≡ list.items ++ (part ∷ [])) }
{
    with_part(list, part)
}

/// A list, and a statement after it.
///
/// # Errors
///
/// Out of memory.
pub fn with_statement(list: Vec<Stmt>, part: Stmt) -> Result<Vec<Stmt>, AllocError>
    ensures { IfOk result (λ longer. longer.items ≡ list.items ++ (part ∷ [])) }
{
    with_part(list, part)
}

/// A list, and an item of a list of parameters after it.
///
/// # Errors
///
/// Out of memory.
pub fn with_param(list: Vec<Param>, part: Param) -> Result<Vec<Param>, AllocError>
    ensures { IfOk result (λ longer. longer.items ≡ list.items ++ (part ∷ [])) }
{
    with_part(list, part)
}

/// A list, and a line of a struct or interface type after it.
///
/// # Errors
///
/// Out of memory.
pub fn with_field(list: Vec<Field>, part: Field) -> Result<Vec<Field>, AllocError>
    ensures { IfOk result (λ longer. longer.items ≡ list.items ++ (part ∷ [])) }
{
    with_part(list, part)
}

/// A list, and a spec after it.
///
/// # Errors
///
/// Out of memory.
pub fn with_spec(list: Vec<Spec>, part: Spec) -> Result<Vec<Spec>, AllocError>
    ensures { IfOk result (λ longer. longer.items ≡ list.items ++ (part ∷ [])) }
{
    with_part(list, part)
}

/// A list, and a clause of a `switch` after it.
///
/// # Errors
///
/// Out of memory.
pub fn with_case_clause(
    list: Vec<CaseClause>,
    part: CaseClause,
) -> Result<Vec<CaseClause>, AllocError>
    ensures { IfOk result (λ longer. longer.items ≡ list.items ++ (part ∷ [])) }
{
    with_part(list, part)
}

/// A list, and a clause of a `select` after it.
///
/// # Errors
///
/// Out of memory.
pub fn with_communication_clause(
    list: Vec<CommClause>,
    part: CommClause,
) -> Result<Vec<CommClause>, AllocError>
    ensures { IfOk result (λ longer. longer.items ≡ list.items ++ (part ∷ [])) }
{
    with_part(list, part)
}

/// A list, and a declaration after it.
///
/// # Errors
///
/// Out of memory.
pub fn with_top_level(
    list: Vec<TopLevelDecl>,
    part: TopLevelDecl,
) -> Result<Vec<TopLevelDecl>, AllocError>
    ensures { IfOk result (λ longer. longer.items ≡ list.items ++ (part ∷ [])) }
{
    with_part(list, part)
}
