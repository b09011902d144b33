//! The mark of a lot: up to twelve bytes.

ghost use Rattle.std.specs.Prelude.{◌≡◌, ◌≤◌, true, length, if◌then◌else◌, nat_le};
ghost use Rattle.std.specs.Cmp.Lexicographic.{slice_cmp, lists_total};
ghost use Rattle.order.specs.Marks.{used, padded, mark_of, empty_mark, Marked};
ghost use Rattle.std.specs.Ordering.{nat_cmp};
ghost use Rattle.std.specs.Cmp.{nat_cmp_total};
ghost use Rattle.order.specs.Among.{from_total, viewed, viewed_placed, viewed_pointed};

use crate::keys::{KeyOrder, Placing, PointQuery, Query};
use std::cmp::Ordering;
use std::error::Error;
use std::fmt;

/// The most bytes that a mark holds.
const MOST: usize = 12;

/// Any length and any cells make a mark: a length above twelve counts as twelve, and the cells past the length count as zero.
#[derive(Clone, Copy)]
pub struct LotMark {
    pub len: u8,
    pub cells: [u8; MOST],
}

impl LotMark {
    /// The mark of no bytes.
    pub fn empty() -> LotMark
        ensures { result ≡ empty_mark }
    {
        LotMark {
            len: 0,
            cells: [0; MOST],
        }
    }

    /// Makes it the mark of these bytes, or refuses more than twelve and keeps it.
    pub fn set(&mut self, bytes: &[u8]) -> bool
        ensures answers { result ≡ nat_le (length bytes.now) 12 }
        ensures after { self.new ≡ (if result then mark_of bytes.now else self.old) }
        ensures reads { result ≡ true → used self.new ≡ bytes.now }
    {
        match LotMark::try_from(bytes) {
            Ok(mark) => {
                *self = mark;
                true
            }
            Err(_) => false,
        }
    }

    /// The bytes that count.
    pub fn bytes(&self) -> &[u8]
        ensures { result.now ≡ used self.now }
    {
        let len = usize::from(self.len).min(MOST);
        &self.cells[..len]
    }

    /// The bytes that count, followed by zeros.
    pub fn cells(&self) -> [u8; MOST]
        ensures { result ≡ padded (used self.now) }
    {
        with_zeros(self.bytes())
    }
}

/// Bytes that are too many for a mark.
#[derive(Clone, Copy, PartialEq, Eq, Debug)]
pub struct TooLong {
    pub len: usize,
}

/// The mark of up to twelve bytes.
impl TryFrom<&[u8]> for LotMark {
    type Error = TooLong;

    ghost try_from_gives = { λ bytes r. Marked bytes.now r };

    fn try_from(bytes: &[u8]) -> Result<LotMark, TooLong> {
        let len = bytes.len();
        if len > MOST {
            return Err(TooLong { len });
        }
        Ok(LotMark {
            len: len as u8,
            cells: with_zeros(bytes),
        })
    }
}

impl fmt::Display for TooLong {
    fn fmt<W: fmt::Write>(&self, f: &mut fmt::Formatter<W>) -> fmt::Result {
        write!(f, "{} bytes, and a mark holds at most {MOST}", self.len)
    }
}

impl Error for TooLong {}

/// Up to twelve bytes, followed by zeros.
fn with_zeros(bytes: &[u8]) -> [u8; MOST]
    requires { length bytes.now ≤ 12 }
    ensures { result ≡ padded bytes.now }
{
    let mut cells = [0; MOST];
    cells[..bytes.len()].copy_from_slice(bytes);
    cells
}

/// Byte by byte, with a proper prefix first.
impl KeyOrder for LotMark {
    ghost compares = { λ a b. slice_cmp nat_cmp (used a) (used b) };

    ghost ordered = { viewed (from_total (lists_total nat_cmp_total)) used };

    fn compare(&self, other: &Self) -> Ordering {
        self.bytes().cmp(other.bytes())
    }
}

/// A part of a caller's bytes, of any length, that is looked for as a mark.
#[derive(Clone, Copy, PartialEq, Eq, Debug)]
pub struct MarkPart<'a> {
    pub bytes: &'a [u8],
}

impl<'a> From<&'a [u8]> for MarkPart<'a> {
    ghost from_gives = { λ bytes part. part.bytes.now ≡ bytes.now };

    fn from(bytes: &'a [u8]) -> MarkPart<'a> {
        MarkPart { bytes }
    }
}

impl Placing<LotMark> for MarkPart<'_> {
    ghost places = { λ q k. slice_cmp nat_cmp q.bytes.now (used k) };

    fn place(&self, key: &LotMark) -> Ordering {
        self.bytes.cmp(key.bytes())
    }
}

impl Query<LotMark> for MarkPart<'_> {
    ghost placed = { viewed_placed (from_total (lists_total nat_cmp_total)) (λ q. q.bytes.now) used };
}

impl PointQuery<LotMark> for MarkPart<'_> {
    ghost pointed = { viewed_pointed (from_total (lists_total nat_cmp_total)) (λ q. q.bytes.now) used };
}

impl fmt::Display for MarkPart<'_> {
    fn fmt<W: fmt::Write>(&self, f: &mut fmt::Formatter<W>) -> fmt::Result {
        write!(f, "\"{}\"", self.bytes.escape_ascii())
    }
}
