//! Lists of nodes.

ghost use Rattle.std.specs.Prelude.{◌≡◌, ◌∷◌, ◌++◌, [], IfOk};

use std::alloc::{AllocError, Global};

/// A copy of a list of nodes.
pub fn copied(alloc: Global, nodes: &[usize]) -> Result<Vec<usize>, AllocError>
    ensures { IfOk result (λ copy. copy.items ≡ nodes.now) }
{
    joined(Vec::new(alloc), nodes)
}

/// One node.
pub fn only(alloc: Global, node: usize) -> Result<Vec<usize>, AllocError>
    ensures { IfOk result (λ nodes. nodes.items ≡ node ∷ []) }
{
    let mut nodes = Vec::new(alloc);
    nodes.push(node)?;
    Ok(nodes)
}

/// These nodes, and after them those.
pub fn joined(mut first: Vec<usize>, second: &[usize]) -> Result<Vec<usize>, AllocError>
    ensures { IfOk result (λ nodes. nodes.items ≡ first.items ++ second.now) }
{
    for node in second {
        first.push(*node)?;
    }
    Ok(first)
}
