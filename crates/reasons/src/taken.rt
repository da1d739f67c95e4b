//! Which branch was taken.

ghost use Rattle.std.specs.Prelude.{◌≡◌};
ghost use Rattle.reasons.specs.Branches.{is_in_block, is_within, place_at, word_at, word_in, if_form, loop_form, clauses_form};
ghost use Rattle.reasons.specs.WordViews.{branch_view, word_view};

use crate::branches::{Branch, BranchForm};
use crate::words::Word;
use tree::Span;

fn is_within(span: Span, at: u32) -> bool
    ensures { result ≡ is_within span at }
{
    span.start <= at && at < span.end
}

/// Whether it stands in the braces, before the last one.
fn is_in_block(braces: Span, at: u32) -> bool
    ensures { result ≡ is_in_block braces at }
{
    braces.start <= at && at < braces.end.saturating_sub(1)
}

fn word_of_if(span: Span, braces: Span, is_silent: bool, next: u32) -> Word
    ensures { word_view result ≡ word_in span (if_form braces is_silent) next }
{
    if is_in_block(braces, next) || (is_silent && !is_within(span, next)) {
        Word::Holds
    } else {
        Word::DoesNotHold
    }
}

fn word_of_loop(span: Span, next: u32) -> Word
    ensures { word_view result ≡ word_in span loop_form next }
{
    if is_within(span, next) {
        Word::GoesOn
    } else {
        Word::Ends
    }
}

fn word_of_clauses(span: Span, clauses: &[u32], next: u32) -> Word
    ensures { word_view result ≡ word_in span (clauses_form clauses.now) next }
{
    for at in clauses {
        if *at == next {
            return Word::Entered;
        }
    }
    Word::NoneEntered
}

/// The word of the branch that the way takes whose next occurrence after the header stands at that offset.
pub fn word_at(branch: &Branch, next: u32) -> Word
    ensures { word_view result ≡ word_at (branch_view branch.now) next }
{
    match &branch.form {
        BranchForm::If(braces, is_silent) => word_of_if(branch.span, *braces, *is_silent, next),
        BranchForm::Loop => word_of_loop(branch.span, next),
        BranchForm::Clauses(clauses) => word_of_clauses(branch.span, clauses, next),
    }
}

/// Where it is told: at the clause that is entered, else at the header.
pub fn place_at(branch: &Branch, next: u32) -> u32
    ensures { result ≡ place_at (branch_view branch.now) next }
{
    match word_at(branch, next) {
        Word::Entered => next,
        Word::Obtained
        | Word::Made
        | Word::Started
        | Word::Holds
        | Word::DoesNotHold
        | Word::GoesOn
        | Word::Ends
        | Word::NoneEntered => branch.span.start,
    }
}
