//! Going through tokens.

ghost use Rattle.std.specs.Prelude.{◌≤◌};
ghost use Rattle.meaning.specs.declared.TheConstants.{MOST_DEPTH};
ghost use Rattle.parser_base.specs.Gives.{IsNoMemory};
ghost use Rattle.parser_base.specs.Words.{HasWords};

use crate::fault::{LeftOut, Stop};
use crate::kinds::{
    assigning_operator, binary_operator, can_begin_type, declaration_keyword, ends_statements,
    follows_embedded, is_closing, is_end, is_identifier, is_no_index, is_string, joins_terms,
    literal_kind, unary_operator,
};
use lexer::{Token, TokenKind};
use std::alloc::Global;
use tree::{BasicLitKind, BinaryOperator, DeclKeyword, Edition, Span, UnaryOperator};

/// A text, its tokens, how deep the parts of what is read of them may be, the edition by which the text is read, and
/// what allocates the tree. The texts that the tree keeps of tokens are UTF-8.
// The widest fields come first. So a copy, which each call is handed, has no gaps.
#[derive(Clone, Copy)]
pub struct SourceTokens<'a> {
    pub alloc: Global,
    pub text: &'a [u8],
    pub tokens: &'a [Token],
    pub below: u32,
    pub edition: Edition,
    pub ghost words: { HasWords text.now tokens.now },
    pub ghost bounded: { below ≤ MOST_DEPTH },
}

/// A place among tokens: the index of the next one, and the offset in bytes of the end of the last one that was taken.
/// A semicolon leaves that end as it was.
#[derive(Clone, Copy)]
pub struct TokenPlace {
    pub at: usize,
    pub end: u32,
}

/// What is read, and the place after it.
pub type Read<T> = Result<(T, TokenPlace), Stop>;

/// What is read so far of something: where it began, what stands there first, and the place after that.
pub struct Begun<T> {
    pub from: TokenPlace,
    pub first: T,
    pub place: TokenPlace,
}

/// That a token of this kind, at this offset, can't stand where it does, or is of a form that the first edition leaves
/// out.
fn left_out(kind: TokenKind, start: u32) -> Stop
    ensures { IsNoMemory result }
{
    match kind {
        TokenKind::GotoKeyword => Stop::LeftOut(LeftOut::Goto, start),
        TokenKind::FallthroughKeyword => Stop::LeftOut(LeftOut::Fallthrough, start),
        TokenKind::Tilde => Stop::LeftOut(LeftOut::TypeParameters, start),
        _ => Stop::Unexpected(start),
    }
}

impl SourceTokens<'_> {
    ghost use Rattle.std.specs.Prelude.{◌≡◌, length, suc};
    ghost use Rattle.lexer.specs.Spelling.{same_kind};
    ghost use Rattle.parser_base.specs.Gives.{Gives};
    ghost use Rattle.parser_base.specs.Places.{cursor};
    ghost use Rattle.meaning.specs.Cursor.{start_at, is_next, is_closing};
    ghost use Rattle.meaning.specs.OperatorTokens.{can_begin_type};
    ghost use Rattle.meaning.specs.TypeParameters.{is_identifier, is_no_index};
    ghost use Rattle.tree_reader.specs.Reader.{
      of_next,
      is_string,
      is_second,
      opens_index,
      behind_name,
      joins_terms,
      is_no_name,
      is_end,
      is_guard,
      ends_statements,
      follows_embedded,
      unary_operator,
      binary_operator,
      assigning_operator,
      literal_kind,
      declaration_keyword,
    };
    ghost use Rattle.tree_reader.specs.Reading.{
      stands,
      behind,
      take,
      past,
      behind_semicolon,
      take_semicolon,
      skip_semicolons,
      steps,
      span_between,
    };

    /// The kind of the next token.
    pub fn peek(self, place: TokenPlace) -> Option<TokenKind>
        ensures { result ≡ of_next (λ kind. Some kind) (cursor self.entry place) }
    {
        match self.tokens.get(place.at) {
            Some(first) => Some(first.kind),
            None => None,
        }
    }

    /// Whether a token of this kind stands next.
    #[tactic(auto, unfolding(tree_reader::specs::Reading::stands, lexer::specs::Spelling::same_kind))]
    pub fn stands(self, place: TokenPlace, kind: TokenKind) -> bool
        ensures { result ≡ stands kind (cursor self.entry place) }
    {
        match self.tokens.get(place.at) {
            Some(first) => first.kind == kind,
            None => false,
        }
    }

    /// The place after the next token.
    pub fn behind(self, place: TokenPlace) -> TokenPlace
        ensures { cursor self.entry result ≡ behind (cursor self.entry place) }
    {
        match self.tokens.get(place.at) {
            Some(first) => TokenPlace {
                at: place.at + 1,
                end: first.end,
            },
            None => place,
        }
    }

    /// The place after the next token, of this kind.
    ///
    /// # Errors
    ///
    /// Where another token stands.
    #[tactic(auto, unfolding(tree_reader::specs::Reading::take))]
    pub fn take(self, place: TokenPlace, kind: TokenKind) -> Result<TokenPlace, Stop>
        ensures { Gives (cursor self.entry) result (take kind (cursor self.entry place)) }
    {
        if self.stands(place, kind) {
            Ok(self.behind(place))
        } else {
            Err(self.unexpected(place))
        }
    }

    /// The place after the next token, where it is of this kind.
    #[tactic(auto, unfolding(tree_reader::specs::Reading::past))]
    pub fn past(self, place: TokenPlace, kind: TokenKind) -> TokenPlace
        ensures { cursor self.entry result ≡ past kind (cursor self.entry place) }
    {
        if self.stands(place, kind) {
            self.behind(place)
        } else {
            place
        }
    }

    /// The place after the next token, a semicolon, which ends nothing.
    pub fn behind_semicolon(self, place: TokenPlace) -> TokenPlace
        ensures { cursor self.entry result ≡ behind_semicolon (cursor self.entry place) }
    {
        TokenPlace {
            at: self.behind(place).at,
            end: place.end,
        }
    }

    /// Whether a closing bracket or brace stands next.
    pub fn closes(self, place: TokenPlace) -> bool
        ensures { result ≡ is_next is_closing (cursor self.entry place) }
    {
        match self.tokens.get(place.at) {
            Some(first) => is_closing(first.kind),
            None => false,
        }
    }

    /// Whether a type can begin with the next token.
    pub fn begins_type(self, place: TokenPlace) -> bool
        ensures { result ≡ is_next can_begin_type (cursor self.entry place) }
    {
        match self.tokens.get(place.at) {
            Some(first) => can_begin_type(first.kind),
            None => false,
        }
    }

    /// Whether a string stands next.
    pub fn has_string(self, place: TokenPlace) -> bool
        ensures { result ≡ is_next is_string (cursor self.entry place) }
    {
        match self.tokens.get(place.at) {
            Some(first) => is_string(first.kind),
            None => false,
        }
    }

    /// Whether a statement that could go on with an expression ends before the next token.
    pub fn ends(self, place: TokenPlace) -> bool
        ensures { result ≡ is_next is_end (cursor self.entry place) }
    {
        match self.tokens.get(place.at) {
            Some(first) => is_end(first.kind),
            None => false,
        }
    }

    /// Whether the statements of a block or a clause end before the next token.
    pub fn ends_statements(self, place: TokenPlace) -> bool
        ensures { result ≡ is_next ends_statements (cursor self.entry place) }
    {
        match self.tokens.get(place.at) {
            Some(first) => ends_statements(first.kind),
            None => false,
        }
    }

    /// Whether the next token can follow the name of an embedded type.
    pub fn follows_embedded(self, place: TokenPlace) -> bool
        ensures { result ≡ is_next follows_embedded (cursor self.entry place) }
    {
        match self.tokens.get(place.at) {
            Some(first) => follows_embedded(first.kind),
            None => false,
        }
    }

    /// Whether the text is read by the second edition.
    pub fn is_second(self) -> bool
        ensures { result ≡ is_second self.entry.edition }
    {
        match self.edition {
            Edition::First => false,
            Edition::Second => true,
        }
    }

    /// Whether a name stands next.
    pub fn has_name(self, place: TokenPlace) -> bool
        ensures { result ≡ is_next is_identifier (cursor self.entry place) }
    {
        match self.tokens.get(place.at) {
            Some(first) => is_identifier(first.kind),
            None => false,
        }
    }

    /// Whether with the next token a bracket before it begins a type, and no index.
    fn begins_no_index(self, place: TokenPlace) -> bool
        ensures { result ≡ is_next is_no_index (cursor self.entry place) }
    {
        match self.tokens.get(place.at) {
            Some(first) => is_no_index(first.kind),
            None => false,
        }
    }

    /// Whether brackets open that can be an index, and no type's.
    pub fn opens_index(self, place: TokenPlace) -> bool
        ensures { result ≡ opens_index (cursor self.entry place) }
    {
        self.stands(place, TokenKind::LeftBracket) && !self.begins_no_index(self.behind(place))
    }

    /// Whether a constraint goes on with the next token behind a type's name.
    fn joins_terms(self, place: TokenPlace) -> bool
        ensures { result ≡ is_next joins_terms (cursor self.entry place) }
    {
        match self.tokens.get(place.at) {
            Some(first) => joins_terms(first.kind),
            None => false,
        }
    }

    /// The place after the type's name that stands next.
    fn behind_name(self, place: TokenPlace) -> TokenPlace
        ensures { cursor self.entry result ≡ behind_name (cursor self.entry place) }
    {
        let end = self.behind(place);
        if self.stands(end, TokenKind::Dot) {
            self.behind(self.behind(end))
        } else {
            end
        }
    }

    /// Whether more than the name of a type stands here, which an interface embeds.
    pub fn is_no_name(self, place: TokenPlace) -> bool
        ensures { result ≡ is_no_name (cursor self.entry place) }
    {
        !self.stands(place, TokenKind::Identifier) || self.joins_terms(self.behind_name(place))
    }

    /// The operator before an operand that stands next.
    pub fn next_unary_operator(self, place: TokenPlace) -> Option<UnaryOperator>
        ensures { result ≡ of_next unary_operator (cursor self.entry place) }
    {
        match self.tokens.get(place.at) {
            Some(first) => unary_operator(first.kind),
            None => None,
        }
    }

    /// The operator between two operands that stands next.
    pub fn next_binary_operator(self, place: TokenPlace) -> Option<BinaryOperator>
        ensures { result ≡ of_next binary_operator (cursor self.entry place) }
    {
        match self.tokens.get(place.at) {
            Some(first) => binary_operator(first.kind),
            None => None,
        }
    }

    /// The operator of an assignment such as `+=` that stands next.
    pub fn next_assigning_operator(self, place: TokenPlace) -> Option<BinaryOperator>
        ensures { result ≡ of_next assigning_operator (cursor self.entry place) }
    {
        match self.tokens.get(place.at) {
            Some(first) => assigning_operator(first.kind),
            None => None,
        }
    }

    /// The literal of one token that stands next.
    pub fn next_literal_kind(self, place: TokenPlace) -> Option<BasicLitKind>
        ensures { result ≡ of_next literal_kind (cursor self.entry place) }
    {
        match self.tokens.get(place.at) {
            Some(first) => literal_kind(first.kind),
            None => None,
        }
    }

    /// The word of a declaration that stands next.
    pub fn next_declaration_keyword(self, place: TokenPlace) -> Option<DeclKeyword>
        ensures { result ≡ of_next declaration_keyword (cursor self.entry place) }
    {
        match self.tokens.get(place.at) {
            Some(first) => declaration_keyword(first.kind),
            None => None,
        }
    }

    /// Whether at this dot a type switch asks for the type of what stands before it.
    pub fn is_guard(self, place: TokenPlace) -> bool
        ensures { result ≡ is_guard (cursor self.entry place) }
    {
        let inner = self.behind(place);
        self.stands(inner, TokenKind::LeftParenthesis)
            && self.stands(self.behind(inner), TokenKind::TypeKeyword)
    }

    /// The place after a semicolon, which may be missing before a closing bracket or brace.
    ///
    /// # Errors
    ///
    /// Where another token stands.
    #[tactic(auto, unfolding(tree_reader::specs::Reading::take_semicolon))]
    pub fn semicolon(self, place: TokenPlace) -> Result<TokenPlace, Stop>
        ensures { Gives (cursor self.entry) result (take_semicolon (cursor self.entry place)) }
    {
        if self.stands(place, TokenKind::Semicolon) {
            return Ok(self.behind_semicolon(place));
        }
        if self.closes(place) {
            Ok(place)
        } else {
            Err(self.unexpected(place))
        }
    }

    /// How many tokens are left, and one more.
    pub fn steps(self, place: TokenPlace) -> usize
        ensures { result ≡ steps (cursor self.entry place) }
    {
        self.tokens.len().saturating_sub(place.at) + 1
    }

    /// The place after all semicolons that stand next.
    pub fn skip_semicolons(self, place: TokenPlace) -> TokenPlace
        ensures { cursor self.entry result ≡ skip_semicolons (cursor self.entry place) }
    {
        let mut after = place;
        while self.stands(after, TokenKind::Semicolon) {
            after = self.behind_semicolon(after);
        }
        after
    }

    /// The offset at which the next token begins.
    pub fn start(self, place: TokenPlace) -> u32
        ensures { result ≡ start_at (cursor self.entry place) }
    {
        match self.tokens.get(place.at) {
            Some(first) => first.start,
            None => place.end,
        }
    }

    /// The bytes from the next token up to the end of the last one that was taken before `end`.
    pub fn span_to(self, place: TokenPlace, end: TokenPlace) -> Span
        ensures { result ≡ span_between (cursor self.entry place) (cursor self.entry end) }
    {
        Span {
            start: self.start(place),
            end: end.end,
        }
    }

    /// That the next token can't stand here, or is of a form that the edition leaves out. At the end of the tokens it
    /// is the text's end; a longer text than an offset can name has no tokens. Where the tokens go on as an expression
    /// that asks for a type as only a `switch` does, the word `type` is what can't stand here.
    pub fn unexpected(self, place: TokenPlace) -> Stop
        ensures { IsNoMemory result }
    {
        let wrong = if self.asks_for_type(place) {
            self.behind(self.behind(place))
        } else {
            place
        };
        match self.tokens.get(wrong.at) {
            None => Stop::Unexpected(self.text.len().min(u32::MAX as usize) as u32),
            Some(first) => match self.edition {
                Edition::First => left_out(first.kind, first.start),
                Edition::Second => Stop::Unexpected(first.start),
            },
        }
    }

    /// Whether `.(type` stands next, after what can be the end of an operand.
    fn asks_for_type(self, place: TokenPlace) -> bool {
        let before = TokenPlace {
            at: place.at.saturating_sub(1),
            end: place.end,
        };
        self.stands(place, TokenKind::Dot) && self.is_guard(place) && self.ends_operand(before)
    }

    /// Whether an operand can end with the next token.
    fn ends_operand(self, place: TokenPlace) -> bool {
        match self.peek(place) {
            Some(kind) => matches!(
                kind,
                TokenKind::Identifier
                    | TokenKind::Number
                    | TokenKind::Rune
                    | TokenKind::InterpretedString
                    | TokenKind::RawString
                    | TokenKind::RightParenthesis
                    | TokenKind::RightBracket
                    | TokenKind::RightBrace
            ),
            None => false,
        }
    }

    /// The place of the first token from here on that begins at this offset or after it.
    pub fn first_from(self, place: TokenPlace, offset: u32) -> TokenPlace {
        let mut at = place.at;
        for _ in 0..self.tokens.len() {
            match self.tokens.get(at) {
                Some(token) if token.start < offset => at += 1,
                _ => break,
            }
        }
        TokenPlace { at, end: place.end }
    }
}
