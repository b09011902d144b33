//! Lines of a script: a letter, and numbers one blank apart.

use crate::decade::Decade;
use calls::calls::Call;
use node::ends::Side;
use order::blend::BlendNumber;
use std::error::Error;
use std::fmt;
use std::str::FromStr;

/// A call on books of blends, each with a number.
pub type BlendCall = Call<BlendNumber, u32, BlendNumber, BlendNumber>;

/// The same, with a decade where a book is cut or its least entry is looked for.
pub type DecadeCall = Call<BlendNumber, u32, BlendNumber, Decade>;

/// What a line asks for.
#[derive(Clone, Copy, Debug, PartialEq, Eq)]
pub enum Line {
    Call(BlendCall),
    ByDecade(DecadeCall),
    /// The shape of what stands in a place.
    Shape { place: usize },
    /// How many nodes are out.
    Out,
}

/// What a line asks for where there are two callers.
#[derive(Clone, Copy, Debug, PartialEq, Eq)]
pub enum SharedLine {
    /// To serve the caller with a number.
    Turn { caller: u16 },
    /// What the caller that is served asks for.
    Served(Line),
}

/// A line that asks for nothing.
#[derive(Clone, Copy, Debug, PartialEq, Eq)]
pub struct NoLine;

impl fmt::Display for NoLine {
    fn fmt<W: fmt::Write>(&self, f: &mut fmt::Formatter<W>) -> fmt::Result {
        f.write_str("a line that is no call")
    }
}

impl Error for NoLine {}

impl FromStr for Line {
    type Err = NoLine;

    /// A letter, and up to three numbers, each behind a blank: 0 for those that are not there. Blanks may follow.
    fn from_str(line: &str) -> Result<Line, NoLine> {
        let [name, fields @ ..] = line.as_bytes() else {
            return Err(NoLine);
        };
        let [first, second, third] = numbers_in(fields)?;
        let place = first as usize;
        match *name {
            b's' => Ok(Line::Shape { place }),
            b'f' => Ok(Line::Out),
            b'C' => Ok(Line::ByDecade(Call::Cut {
                place,
                other: second as usize,
                query: Decade { tens: third },
            })),
            b'm' => Ok(Line::ByDecade(Call::Least {
                place,
                query: Decade { tens: second },
            })),
            name => call_named(name, place, second, third).map(Line::Call),
        }
    }
}

impl FromStr for SharedLine {
    type Err = NoLine;

    /// `t` and a number behind a blank, or another line.
    fn from_str(line: &str) -> Result<SharedLine, NoLine> {
        match line.strip_prefix("t ") {
            Some(digits) => Ok(SharedLine::Turn {
                caller: u16::try_from(number_in(digits.as_bytes())?).unwrap_or(u16::MAX),
            }),
            None => line.parse::<Line>().map(SharedLine::Served),
        }
    }
}

/// The call of a letter on a place, with two more numbers.
fn call_named(name: u8, place: usize, second: u32, third: u32) -> Result<BlendCall, NoLine> {
    match name {
        b'p' => Ok(Call::Insert {
            place,
            key: BlendNumber::from(second),
            value: third,
        }),
        b'g' => Ok(Call::Lookup {
            place,
            query: BlendNumber::from(second),
        }),
        b'c' => Ok(Call::Cut {
            place,
            other: second as usize,
            query: BlendNumber::from(third),
        }),
        b'w' => Ok(Call::Open { place }),
        b'n' => Ok(Call::Step {
            place,
            side: Side::First,
        }),
        b'b' => Ok(Call::Step {
            place,
            side: Side::Last,
        }),
        b'e' => Ok(Call::Close { place }),
        b'r' => Ok(Call::Release { place }),
        b'l' => Ok(Call::Count { place }),
        b'a' => Ok(Call::Audit),
        _ => Err(NoLine),
    }
}

/// The number that some digits spell: 0 for none, and the greatest where it is too great.
fn number_in(digits: &[u8]) -> Result<u32, NoLine> {
    digits
        .iter()
        .try_fold(0, |number, byte| with_digit(number, *byte))
}

/// A number with one more digit behind it.
fn with_digit(number: u32, byte: u8) -> Result<u32, NoLine> {
    let digit = char::from(byte).to_digit(10).ok_or(NoLine)?;
    Ok(number.saturating_mul(10).saturating_add(digit))
}

/// The numbers of up to three fields, each behind a blank.
fn numbers_in(fields: &[u8]) -> Result<[u32; 3], NoLine> {
    let mut numbers = [0; 3];
    let mut blanks = 0usize;
    for byte in fields {
        if *byte == b' ' {
            blanks = blanks.saturating_add(1);
            continue;
        }
        let field = blanks.checked_sub(1).ok_or(NoLine)?;
        let number = numbers.get_mut(field).ok_or(NoLine)?;
        *number = with_digit(*number, *byte)?;
    }
    Ok(numbers)
}
