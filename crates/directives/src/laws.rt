//! What holds of the directives of any text.

ghost use Rattle.std.specs.Prelude.{ℕ, List};
ghost use Rattle.std.specs.List.{All};
ghost use Rattle.directives.specs.Directives.{directives_of};
ghost use Rattle.directives.specs.Laws.{LinesRise, StandsIn};

/// The lines of directives rise: no line has two.
pub fn lines_of_directives_rise()
    ensures { (text : List ℕ) → LinesRise (directives_of text) }
{}

/// Each directive stands in the text on its line.
pub fn directives_stand_in_their_text()
    ensures { (text : List ℕ) → All (StandsIn text) (directives_of text) }
{}
