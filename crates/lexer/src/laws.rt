//! Laws about the definitions, as functions with nothing to run. A text is cut in one way at most, has one list of
//! tokens at most, one fault at most, and not both: so what `lex` answers is determined, out of memory aside. And of
//! ASCII the categories of letters and digits have just the letters and digits that people expect.

ghost use Rattle.lexer.specs.Letters.{AsciiLetters};
ghost use Rattle.lexer.specs.Tokens.{OneCut, OneTokenList};
ghost use Rattle.lexer.specs.Faults.{OneFault, OneOutcome};

/// A text is cut into one list of pieces at most.
pub fn one_cut()
    ensures { OneCut }
{}

/// A text has at most one list of tokens.
pub fn one_token_list()
    ensures { OneTokenList }
{}

/// A text has at most one fault.
pub fn one_fault()
    ensures { OneFault }
{}

/// A text that has tokens has no fault.
pub fn one_outcome()
    ensures { OneOutcome }
{}

/// The letters of ASCII are `_`, `A` to `Z` and `a` to `z`, and its digits `0` to `9`.
pub fn ascii_letters()
    ensures { AsciiLetters }
{}
