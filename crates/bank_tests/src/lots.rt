//! Books of doses under lot marks, asked by parts of a line.

use crate::desk::FREE;
use bank::bank::Bank;
use calls::calls::{Answer, Call};
use calls::refusals::Refusal;
use node::ends::Side;
use node::head::{CAPACITY, Head};
use order::mark::{LotMark, MarkPart};
use order::values::Dose;
use std::process::Abort;
use std::test::Fail;
use supply::Supply;
use supply::bits::Bitmap;
use supply::links::Chain;

const NODES: usize = 5;

const CELLS: usize = CAPACITY * NODES;

/// A lookup and a cut are by a part of a caller's bytes.
type LotCall<'a> = Call<LotMark, Dose, MarkPart<'a>, MarkPart<'a>>;

const LINE: &[u8; 40] = b"AS-0417 KE-22 NILGIRI-2026 NILGIRI-2026B";

/// The parts of a line that are marks, the least first, and behind them one that is too long for a mark.
fn parts(line: &[u8; 40]) -> [&[u8]; 13] {
    [
        &line[0..0],
        &line[0..2],
        &line[0..3],
        &line[0..4],
        &line[0..5],
        &line[0..6],
        &line[0..7],
        &line[8..9],
        &line[8..10],
        &line[8..13],
        &line[14..21],
        &line[14..26],
        &line[27..40],
    ]
}

/// Doses of each case, no two alike: zeros of either sign, what is no number, and what has no end.
const DOSES: [Dose; 12] = [
    Dose::Kilograms(12.5),
    Dose::Kilograms(0.0),
    Dose::Kilograms(-0.0),
    Dose::Kilograms(f64::NAN),
    Dose::Kilograms(f64::INFINITY),
    Dose::Share(0.25),
    Dose::Share(0.0),
    Dose::Share(-0.0),
    Dose::Share(f64::NAN),
    Dose::Chests(0),
    Dose::Chests(3),
    Dose::Chests(u64::MAX),
];

/// Whether floats are the same, with zeros told apart by their sign. What is no number has no bits of its own to be told by.
fn alike(a: f64, b: f64) -> bool {
    if a.is_nan() || b.is_nan() {
        return a.is_nan() && b.is_nan();
    }
    a.to_bits() == b.to_bits()
}

/// Whether doses are of one case, and alike.
fn same(a: Dose, b: Dose) -> bool {
    match (a, b) {
        (Dose::Kilograms(a), Dose::Kilograms(b)) | (Dose::Share(a), Dose::Share(b)) => alike(a, b),
        (Dose::Chests(a), Dose::Chests(b)) => a == b,
        (Dose::Kilograms(_) | Dose::Share(_) | Dose::Chests(_), _) => false,
    }
}

/// A bank with its tables.
#[derive(Drop)]
struct Lots<S> {
    heads: [Head; NODES],
    keys: [LotMark; CELLS],
    values: [Dose; CELLS],
    bank: Bank<S>,
}

impl<S: Supply + Drop> Lots<S> {
    /// A bank that is laid out, with the marks of the line in place 0, each with its dose. They make two leaves under a root.
    fn new(rt: &impl Abort, supply: S) -> Result<Lots<S>, Refusal> {
        let mut lots = Lots {
            heads: [FREE; NODES],
            keys: [LotMark::empty(); CELLS],
            values: [Dose::Chests(7); CELLS],
            bank: Bank::new(supply),
        };
        lots.bank.lay_out(&lots.heads, &lots.keys, &lots.values)?;
        for turn in 0..12usize {
            let at = turn * 5 % 12;
            let old = lots.enter(rt, parts(LINE)[at], DOSES[at])?;
            assert!(rt; old.is_none());
        }
        Ok(lots)
    }

    /// Performs a call, after which the bank is in good form.
    fn ask(
        &mut self,
        rt: &impl Abort,
        call: &LotCall<'_>,
    ) -> Result<Answer<LotMark, Dose>, Refusal> {
        let Lots {
            heads,
            keys,
            values,
            bank,
        } = self;
        let told = bank.perform(heads, keys, values, call);
        assert_eq!(rt; bank.audit(heads, keys, values), Ok(true));
        told
    }

    /// Puts a dose under the mark of these bytes, and answers the old one.
    fn enter(
        &mut self,
        rt: &impl Abort,
        bytes: &[u8],
        value: Dose,
    ) -> Result<Option<Dose>, Refusal> {
        let mut key = LotMark::empty();
        assert!(rt; key.set(bytes));
        let call = Call::Insert {
            place: 0,
            key,
            value,
        };
        let Answer::Inserted(old) = self.ask(rt, &call)? else {
            return Err(Refusal::Breach);
        };
        Ok(old)
    }

    /// The dose under a part of a line, and the comparisons made.
    fn find(&self, place: usize, part: &[u8]) -> Result<(Option<Dose>, usize), Refusal> {
        let part = MarkPart::from(part);
        self.bank
            .lookup(&self.heads, &self.keys, &self.values, place, &part)
    }

    /// Sees that a book has these marks and no other, each with its dose, by walking it to its end.
    fn holds(
        &mut self,
        rt: &impl Abort,
        place: usize,
        marks: &[&[u8]],
        doses: &[Dose],
    ) -> Result<(), Refusal> {
        let side = Side::First;
        assert!(rt; marks.len() == doses.len());
        self.ask(rt, &Call::Open { place })?;
        for (mark, dose) in marks.iter().zip(doses) {
            let told = self.ask(rt, &Call::Step { place, side })?;
            let Answer::Handed(Some((key, value))) = told else {
                return Err(Refusal::Breach);
            };
            assert_eq!(rt; key.bytes(), *mark);
            assert!(rt; same(value, *dose), "at {:?}", MarkPart::from(*mark));
        }
        let told = self.ask(rt, &Call::Step { place, side })?;
        assert!(rt; matches!(told, Answer::Handed(None)));
        self.ask(rt, &Call::Close { place })?;
        Ok(())
    }
}

/// Parts of the line, marks and others, each with how many marks are below it.
fn asked(line: &[u8; 40]) -> [(&[u8], usize); 11] {
    [
        (&line[0..0], 0),
        (&line[0..1], 1),
        (&line[0..2], 1),
        (&line[0..6], 5),
        (&line[0..7], 6),
        (&line[0..9], 7),
        (&line[9..10], 7),
        (&line[8..13], 9),
        (&line[8..28], 10),
        (&line[14..26], 11),
        (&line[27..40], 12),
    ]
}

/// A part of the line is found or not, and cuts a book between the marks, of which so many are below it.
fn by_part<S: Supply + Drop>(
    rt: &impl Abort,
    supply: S,
    part: &[u8],
    left: usize,
) -> Result<(), Refusal> {
    let marks = parts(LINE);
    let mut lots = Lots::new(rt, supply)?;
    let (there, made) = lots.find(0, part)?;
    let query = MarkPart::from(part);
    let told = lots.ask(rt, &Call::Lookup { place: 0, query })?;
    assert!(rt; matches!(told, Answer::Found(_, count) if count == made));
    let told = lots.ask(
        rt,
        &Call::Cut {
            place: 0,
            other: 1,
            query,
        },
    )?;
    assert!(rt; left <= 12);
    assert!(rt; matches!(told, Answer::Parted(stay, go, _) if stay == left && go == 12 - left));
    assert!(rt; there.is_some() == (left < 12 && marks[left] == part));
    for at in 0..13usize {
        let places = (lots.find(0, marks[at])?.0, lots.find(1, marks[at])?.0);
        let wanted = (at < left, left <= at && at < 12);
        assert_eq!(rt;
            (places.0.is_some(), places.1.is_some()),
            wanted,
            "{at} at {left}"
        );
    }
    lots.holds(rt, 0, &marks[..left], &DOSES[..left])?;
    lots.holds(rt, 1, &marks[left..12], &DOSES[left..])?;
    Ok(())
}

/// Doses are found, and given back for others, as they were put in. By their own equality the zeros of one case are the same,
/// and what is no number is not the same as itself.
fn doses<S: Supply + Drop>(rt: &impl Abort, supply: S) -> Result<(), Refusal> {
    let marks = parts(LINE);
    let mut lots = Lots::new(rt, supply)?;
    for at in 0..12usize {
        let (there, _) = lots.find(0, marks[at])?;
        for other in 0..12usize {
            let found = there.map(|dose| same(dose, DOSES[other]));
            assert_eq!(rt; found, Some(at == other), "{at} and {other}");
            let equal = there.map(|dose| dose == DOSES[other]);
            assert_eq!(rt; equal, Some(DOSES[at] == DOSES[other]), "{at} and {other}");
        }
    }
    assert!(rt; DOSES[1] == DOSES[2] && DOSES[6] == DOSES[7]);
    assert!(rt; DOSES[3] != DOSES[3] && DOSES[8] != DOSES[8]);
    assert!(rt; DOSES[1] != DOSES[6] && DOSES[6] != DOSES[9]);
    let mut turned = DOSES;
    turned.reverse();
    for at in 0..12usize {
        let old = lots.enter(rt, marks[at], turned[at])?;
        assert!(rt; old.is_some_and(|old| same(old, DOSES[at])), "at {at}");
    }
    lots.holds(rt, 0, &marks[..12], &turned)
}

#[test]
fn parts_of_a_line_are_looked_up_and_cut_at(rt: HostRuntime) -> Result<(), Fail> {
    for (part, left) in asked(LINE) {
        by_part(&rt, Chain::new(5), part, left)?;
        by_part(&rt, Bitmap::new(5), part, left)?;
    }
    Ok(())
}

#[test]
fn doses_come_back_as_they_were(rt: HostRuntime) -> Result<(), Fail> {
    doses(&rt, Chain::new(5))?;
    doses(&rt, Bitmap::new(5))?;
    Ok(())
}
