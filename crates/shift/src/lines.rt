//! Calls on batch books and their answers, as they are printed.

use crate::works::{BatchAnswer, BatchCall};
use calls::calls::{Answer, Call};
use calls::refusals::Refusal;
use node::ends::Side;
use std::{fmt, io};

/// A call in writing.
#[derive(Clone, Copy, PartialEq, Eq, Debug)]
pub struct Asked<Q>(pub BatchCall<Q>);

/// An answer in writing.
#[derive(Clone, Copy, PartialEq, Eq, Debug)]
pub struct Told(pub BatchAnswer);

/// Prints what was asked, and what it was answered or that it was refused.
pub fn print_line<A: fmt::Display, T: fmt::Display>(
    rt: &impl Print,
    asked: &A,
    answer: &Result<T, Refusal>,
) -> io::Result<()> {
    match answer {
        Ok(told) => println!(rt; "  {asked}: {told}"),
        Err(refusal) => println!(rt; "  {asked}: {refusal}"),
    }
}

impl<Q: fmt::Display> fmt::Display for Asked<Q> {
    fn fmt<W: fmt::Write>(&self, f: &mut fmt::Formatter<W>) -> fmt::Result {
        match &self.0 {
            Call::Insert { place, key, value } => write!(f, "book {place}, enter {key}, {value}"),
            Call::Lookup { place, query } => write!(f, "book {place}, look up {query}"),
            Call::Least { place, query } => write!(f, "book {place}, least of {query}"),
            Call::Count { place } => write!(f, "book {place}, entries"),
            Call::Cut {
                place,
                other,
                query,
            } => write!(f, "book {place}, cut at {query} into book {other}"),
            Call::Open { place } => write!(f, "book {place}, open as an archive"),
            Call::Step {
                place,
                side: Side::First,
            } => write!(f, "book {place}, next"),
            Call::Step {
                place,
                side: Side::Last,
            } => write!(f, "book {place}, next from the back"),
            Call::Close { place } => write!(f, "book {place}, close the archive"),
            Call::Release { place } => write!(f, "book {place}, release"),
            Call::Audit => write!(f, "audit, in good form"),
        }
    }
}

impl fmt::Display for Told {
    fn fmt<W: fmt::Write>(&self, f: &mut fmt::Formatter<W>) -> fmt::Result {
        match self.0 {
            Answer::Inserted(None) => write!(f, "new"),
            Answer::Inserted(Some(old)) => write!(f, "in place of {old}"),
            Answer::Found(None, made) => write!(f, "comparisons {made}, not found"),
            Answer::Found(Some(value), made) => write!(f, "comparisons {made}, found {value}"),
            Answer::Least(None) => write!(f, "none"),
            Answer::Least(Some((key, value))) => write!(f, "{key}, {value}"),
            Answer::Counted(count) => write!(f, "{count}"),
            Answer::Parted(left, right, made) => write!(
                f,
                "comparisons {made}, {left} stay, {right} go"
            ),
            Answer::Opened => write!(f, "done"),
            Answer::Handed(None) => write!(f, "none left"),
            Answer::Handed(Some((key, value))) => write!(f, "{key}, {value}"),
            Answer::Dropped(dropped) => write!(f, "{dropped} dropped"),
            Answer::Audited(true) => write!(f, "yes"),
            Answer::Audited(false) => write!(f, "no"),
        }
    }
}
