//! How a file is read from its tokens, as a function on them. It runs nothing. Each law is of every text, tokens that
//! are not the text's own among them.
#![tactic(auto)]

ghost use Rattle.meaning.specs.Cursor.{read_in};
ghost use Rattle.std.specs.Prelude.{ℕ};
ghost use Rattle.tree.specs.declared.edition.Edition.{Edition};
ghost use Rattle.tree_reader.specs.Claims.{OneTree, OneTreeOfAnyDepth, ReadsAllThatIsSpelled, ReadsWhatIsSpelled};
ghost use Rattle.tree_reader.specs.ReadExamples.{ComputedTrees};

/// In both editions and by any limit of depth: a file that is read is spelled by all tokens, and no deeper than the
/// limit.
pub fn reads_what_is_spelled(text: &[u8])
    ensures { (edition : Edition) (most : ℕ) → ReadsWhatIsSpelled (read_in edition text.now) most }
{}

/// In both editions and by any limit of depth: a file that is spelled by all tokens, and no deeper than the limit, is
/// read.
pub fn reads_all_that_is_spelled(text: &[u8])
    ensures { (edition : Edition) (most : ℕ) → ReadsAllThatIsSpelled (read_in edition text.now) most }
{}

/// Tokens spell one file at most, however deep it is: two that all of them spell are equal.
pub fn one_tree_of_any_depth()
    ensures { OneTreeOfAnyDepth }
{}

/// In each edition a text has one tree at most.
pub fn one_tree()
    ensures { OneTree }
{}

/// The reader computes the tree of each of some small texts, which is the only tree that they have. It finds none where
/// there is none.
pub fn trees_are_found_by_computing()
    ensures { ComputedTrees }
{}
