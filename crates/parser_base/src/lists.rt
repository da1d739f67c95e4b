//! Steps of lists that read no expression, type or statement (the Go specification, "Struct types").

ghost use Rattle.std.specs.Prelude.{◌≡◌};
ghost use Rattle.parser_base.specs.Places.{cursor, seen, parts_of, go_text};
ghost use Rattle.tree_reader.specs.Reader.{read_tag};

use crate::cursor::{SourceTokens, TokenPlace};
use tree::Span;

/// A tag, if one stands here, and the place after it.
pub fn tag(source: SourceTokens<'_>, place: TokenPlace) -> (Option<Span>, TokenPlace)
    ensures { seen source.entry (λ span. span) result ≡ read_tag (go_text source.entry) (parts_of source.entry) (cursor
        source.entry
        place) }
{
    if source.has_string(place) {
        let end = source.behind(place);
        return (Some(source.span_to(place, end)), end);
    }
    (None, place)
}
