//! Numbers as an operator writes them: decimal, as `31`, or hexadecimal between quotes, as `X'1F'`.
ghost use Rattle.std.specs.Prelude.{◌≡◌, ℕ, ◌^◌, ◌≤◌, min, MatchOption, MatchResult};
ghost use Rattle.script.specs.Faults.{IsMisread, Misreads, NoByte, NoWord};
ghost use Rattle.script.specs.Numbers.{Numeral, ReadsTo, value_of, Writes};

use crate::verb::Verb;
use crate::wrong::Wrong;
use std::error::Error;
use std::fmt;

/// Why a word is not the number that is wanted.
#[derive(Clone, Copy, Debug, PartialEq, Eq)]
pub enum NotNumber {
    /// It writes no number.
    Malformed,
    /// It writes a number that is over the largest one.
    TooLarge,
}

/// More than any number that can be wanted: a value stops here.
const BEYOND: u64 = 4_294_967_296;

impl fmt::Display for NotNumber {
    fn fmt<W: fmt::Write>(&self, f: &mut fmt::Formatter<W>) -> fmt::Result {
        match self {
            NotNumber::Malformed => f.write_str("a word is no number, as 31 or X'1F'"),
            NotNumber::TooLarge => f.write_str("a number is too large"),
        }
    }
}

impl Error for NotNumber {}

// The number that the digits of a base write, or what it stops at; none where the text is no numeral of the base.
fn numeral(base: u32, text: &[u8]) -> Option<u64>
    requires { (2 ≤ base) × (base ≤ 16) }
    ensures { MatchOption result (Numeral base text.now → ⊥) (λ v. Numeral base text.now × (v ≡ min (value_of base text.now) (2 ^ 32))) }
{
    // Not `try_fold`: its closure would want clauses of its own, so that the product fits, and be no shorter.
    let mut value: u64 = 0;
    for c in text {
        let digit = char::from(*c).to_digit(base)?;
        value = (value * u64::from(base) + u64::from(digit)).min(BEYOND);
    }
    if text.is_empty() { None } else { Some(value) }
}

/// The number that a text writes, where it is at most the largest one.
pub fn number(text: &[u8], largest: u32) -> Result<u32, NotNumber>
    ensures { ReadsTo text.now largest result }
{
    let value = match text {
        [b'X', b'\'', digits @ .., b'\''] => numeral(16, digits),
        _ => numeral(10, text),
    };
    let value = value.ok_or(NotNumber::Malformed)?;
    if value <= u64::from(largest) {
        Ok(value as u32)
    } else {
        Err(NotNumber::TooLarge)
    }
}

// A number up to a largest one among the words behind a verb.
pub(crate) fn limited(verb: Verb, word: &str, largest: u32) -> Result<u32, Wrong>
    ensures { MatchResult result (λ n. Writes word.now n × (n ≤ largest)) (IsMisread verb (Misreads word.now largest)) }
{
    number(word.as_bytes(), largest).map_err(|why| Wrong::Number(verb, why))
}

// A number of 32 bits among the words behind a verb. (One function for both widths would want a trait of its own, by which a
// clause says what number a `u32` or a `u8` is: that is no plainer than two lines.)
pub(crate) fn word_of(verb: Verb, word: &str) -> Result<u32, Wrong>
    ensures { MatchResult result (Writes word.now) (IsMisread verb (NoWord word.now)) }
{
    limited(verb, word, u32::MAX)
}

// A number of 8 bits among the words behind a verb.
pub(crate) fn byte_of(verb: Verb, word: &str) -> Result<u8, Wrong>
    ensures { MatchResult result (Writes word.now) (IsMisread verb (NoByte word.now)) }
{
    Ok(limited(verb, word, 255)? as u8)
}
