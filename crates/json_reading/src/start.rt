//! The start of a value.

ghost use Rattle.std.specs.Prelude.{IfErr, IfOk, OnOk, ◌<◌, length};
ghost use Rattle.json_reading.specs.Standing.{value_at, Stops};
ghost use Rattle.json_reading.specs.Starting.{Starts};

use crate::number::number;
use crate::stop::Stop;
use json::{Reader, Token};

/// The start of a value: all of it, but for a list or an object.
#[derive(Clone, Copy, Drop)]
pub enum Start<'a> {
    /// The bracket that opens a list.
    List,
    /// The brace that opens an object.
    Object,
    Text(&'a str),
    /// A number, where it is an unsigned one of 64 bits.
    Number(Option<u64>),
    Bool(bool),
    Null,
}

/// Takes the start of the next value. Lists and objects may nest `depth` deep.
///
/// # Errors
///
/// No value stands there.
pub fn take_start<'a>(reader: &mut Reader<'a>, depth: usize) -> Result<Start<'a>, Stop>
    ensures ok { IfOk result (λ begun. Starts depth reader.old begun reader.new) }
    ensures shorter { OnOk result (length reader.new < length reader.old) }
    ensures err { IfErr result (Stops (value_at depth reader.old)) }
{
    let Some(token) = reader.next() else {
        return Err(Stop::NotJson);
    };
    match token {
        Token::BeginArray => if depth == 0 {
            Err(Stop::NotJson)
        } else {
            Ok(Start::List)
        },
        Token::BeginObject => if depth == 0 {
            Err(Stop::NotJson)
        } else {
            Ok(Start::Object)
        },
        Token::String(text) => Ok(Start::Text(text)),
        Token::Number(text) => match number(text) {
            Some(number) => Ok(Start::Number(number)),
            None => Err(Stop::NotJson),
        },
        Token::Bool(is_true) => Ok(Start::Bool(is_true)),
        Token::Null => Ok(Start::Null),
        Token::EndObject | Token::EndArray | Token::Key(_) | Token::Bad => Err(Stop::NotJson),
    }
}
