//! The names of a file are words of its text: laws.

ghost use Rattle.silent_files.specs.NamedWords.{NamesAreWords, LackedWordsAreNoNames};

/// In the tree of a text each name that a mark mentions is the text of an identifier token, and so are the other
/// names that it is looked at by.
pub fn names_are_words()
    ensures { NamesAreWords }
{}

/// No word of the tokens is one that the text lacks.
pub fn lacked_words_are_no_names()
    ensures { LackedWordsAreNoNames }
{}
