//! Books of batches that are asked by days: a day is the same as each of its batches.

use crate::desk::FREE;
use bank::bank::Bank;
use calls::calls::{Answer, Call};
use calls::refusals::Refusal;
use node::ends::Side;
use node::head::{CAPACITY, Head};
use order::blend::BlendNumber;
use order::day::Day;
use order::stamp::BatchStamp;
use order::values::BatchRecord;
use std::process::Abort;
use std::test::Fail;
use supply::Supply;
use supply::bits::Bitmap;
use supply::links::Chain;

const NODES: usize = 16;

const CELLS: usize = CAPACITY * NODES;

type Entry = (BatchStamp, BatchRecord);

/// A lookup is by a stamp, and all else by a day.
type DayCall = Call<BatchStamp, BatchRecord, BatchStamp, Day>;

type DayAnswer = Result<Answer<BatchStamp, BatchRecord>, Refusal>;

/// Five days, with gaps between some of them.
const DAYS: [u32; 5] = [0, 3, 4, 7, u32::MAX];

/// The eight batches of each day.
const NUMBERS: [u16; 8] = [0, 1, 5, 9, 40, 700, 65534, 65535];

fn stamp(day: u32, number: u16) -> BatchStamp {
    BatchStamp { day, number }
}

/// A batch that tells its stamp.
fn entry(day: u32, number: u16) -> Entry {
    let batch = BatchRecord {
        blend: BlendNumber::from(day),
        grams: number as u32,
        hopper: 1,
    };
    (stamp(day, number), batch)
}

fn enter(place: usize, day: u32, number: u16) -> DayCall {
    let (key, value) = entry(day, number);
    Call::Insert { place, key, value }
}

fn look_up(place: usize, day: u32, number: u16) -> DayCall {
    Call::Lookup {
        place,
        query: stamp(day, number),
    }
}

fn least(place: usize, day: u32) -> DayCall {
    Call::Least {
        place,
        query: Day::from(day),
    }
}

fn cut(place: usize, other: usize, day: u32) -> DayCall {
    Call::Cut {
        place,
        other,
        query: Day::from(day),
    }
}

/// A bank with its tables.
#[derive(Drop)]
struct Ledger<S> {
    heads: [Head; NODES],
    keys: [BatchStamp; CELLS],
    values: [BatchRecord; CELLS],
    bank: Bank<S>,
}

impl<S: Supply + Drop> Ledger<S> {
    fn new(supply: S) -> Result<Ledger<S>, Refusal> {
        let (key, value) = entry(9, 9);
        let mut ledger = Ledger {
            heads: [FREE; NODES],
            keys: [key; CELLS],
            values: [value; CELLS],
            bank: Bank::new(supply),
        };
        ledger
            .bank
            .lay_out(&ledger.heads, &ledger.keys, &ledger.values)?;
        Ok(ledger)
    }

    fn ask(&mut self, call: &DayCall) -> DayAnswer {
        let Ledger {
            heads,
            keys,
            values,
            bank,
        } = self;
        bank.perform(heads, keys, values, call)
    }

    /// Asks for calls, each with its answer, after which the bank is in good form.
    fn plays(&mut self, rt: &impl Abort, script: &[(DayCall, DayAnswer)]) {
        for (call, told) in script {
            assert_eq!(rt; self.ask(call), *told, "of {call:?}");
            let audited = self.ask(&Call::Audit);
            assert_eq!(rt; audited, Ok(Answer::Audited(true)), "after {call:?}");
        }
    }

    /// The least entry of a day, by the method of the bank.
    fn least(&self, place: usize, day: u32) -> Result<Option<Entry>, Refusal> {
        self.bank.least(
            &self.heads,
            &self.keys,
            &self.values,
            place,
            &Day::from(day),
        )
    }

    /// Enters all batches in an order that jumps about.
    fn fill(&mut self, rt: &impl Abort, place: usize) {
        for turn in 0..40usize {
            let at = turn * 7 % 40;
            let (day, number) = (DAYS[at / 8], NUMBERS[at % 8]);
            self.plays(
                rt,
                &[(enter(place, day, number), Ok(Answer::Inserted(None)))],
            );
        }
    }

    /// Sees that a book has the batches of some days, first to last, by walking it to its end.
    fn holds(&mut self, rt: &impl Abort, place: usize, days: &[u32]) {
        self.plays(rt, &[(Call::Open { place }, Ok(Answer::Opened))]);
        let next = Call::Step {
            place,
            side: Side::First,
        };
        for day in days {
            for number in NUMBERS {
                self.plays(rt, &[(next, Ok(Answer::Handed(Some(entry(*day, number)))))]);
            }
        }
        self.plays(
            rt,
            &[
                (next, Ok(Answer::Handed(None))),
                (Call::Close { place }, Ok(Answer::Dropped(0))),
            ],
        );
    }
}

/// The least batch of each day, and none of a day without batches.
fn leasts<S: Supply + Drop>(rt: &impl Abort, ledger: &mut Ledger<S>) {
    ledger.plays(rt, &[(least(0, 3), Ok(Answer::Least(None)))]);
    ledger.fill(rt, 0);
    for day in DAYS {
        let first = Some(entry(day, 0));
        ledger.plays(rt, &[(least(0, day), Ok(Answer::Least(first)))]);
        assert_eq!(rt; ledger.least(0, day), Ok(first), "of {day}");
    }
    for day in [1, 2, 5, 6, 8, u32::MAX - 1] {
        ledger.plays(rt, &[(least(0, day), Ok(Answer::Least(None)))]);
        assert_eq!(rt; ledger.least(0, day), Ok(None), "of {day}");
    }
    ledger.holds(rt, 0, &DAYS);
}

/// A cut at a day sends all its batches right. The comparisons are those of the search that stops at its least batch.
fn cuts<S: Supply + Drop>(rt: &impl Abort, ledger: &mut Ledger<S>) {
    for (day, left) in [
        (0u32, 0usize),
        (1, 1),
        (2, 1),
        (3, 1),
        (4, 2),
        (5, 3),
        (7, 3),
        (8, 4),
        (u32::MAX - 1, 4),
        (u32::MAX, 4),
    ] {
        ledger.fill(rt, 0);
        let there = ledger.least(0, day);
        let told = ledger.ask(&cut(0, 1, day));
        assert!(rt; matches!(told, Ok(Answer::Parted(..))), "at {day}");
        assert_eq!(rt; ledger.least(0, day), Ok(None), "left of {day}");
        assert_eq!(rt; ledger.least(1, day), there, "right of {day}");
        assert!(rt; left < 5);
        ledger.holds(rt, 0, &DAYS[..left]);
        ledger.holds(rt, 1, &DAYS[left..]);
    }
}

#[test]
fn the_least_of_a_day(rt: HostRuntime) -> Result<(), Fail> {
    leasts(&rt, &mut Ledger::new(Chain::new(16))?);
    leasts(&rt, &mut Ledger::new(Bitmap::new(16))?);
    Ok(())
}

#[test]
fn a_cut_at_a_day(rt: HostRuntime) -> Result<(), Fail> {
    cuts(&rt, &mut Ledger::new(Chain::new(16))?);
    cuts(&rt, &mut Ledger::new(Bitmap::new(16))?);
    Ok(())
}

#[test]
fn the_least_is_refused_as_a_lookup_is(rt: HostRuntime) -> Result<(), Fail> {
    let mut ledger = Ledger::new(Chain::new(16))?;
    ledger.plays(
        &rt,
        &[
            (enter(1, 4, 0), Ok(Answer::Inserted(None))),
            (enter(2, 4, 0), Ok(Answer::Inserted(None))),
            (Call::Open { place: 2 }, Ok(Answer::Opened)),
            (Call::Open { place: 3 }, Ok(Answer::Opened)),
            (least(0, 4), Ok(Answer::Least(None))),
            (least(1, 4), Ok(Answer::Least(Some(entry(4, 0))))),
            (least(2, 4), Err(Refusal::Kind)),
            (least(3, 4), Err(Refusal::Kind)),
            (least(15, 4), Ok(Answer::Least(None))),
            (least(16, 4), Err(Refusal::Place)),
            (least(usize::MAX, 4), Err(Refusal::Place)),
        ],
    );
    let day = Day::from(4);
    let short = ledger
        .bank
        .least(&ledger.heads[1..], &ledger.keys, &ledger.values, 16, &day);
    assert_eq!(rt; short, Err(Refusal::Tables));
    let cells = ledger
        .bank
        .least(&ledger.heads, &ledger.keys[1..], &ledger.values, 1, &day);
    assert_eq!(rt; cells, Err(Refusal::Tables));
    Ok(())
}

/// A cut at a day, and least batches, beside lookups by stamps.
#[test]
fn a_list_may_ask_by_stamps_and_by_days(rt: HostRuntime) -> Result<(), Fail> {
    let mut ledger = Ledger::new(Chain::new(16))?;
    let batch = |day, number| Some(entry(day, number).1);
    let script = [
        (enter(0, 7, 2), Ok(Answer::Inserted(None))),
        (enter(0, 8, 65535), Ok(Answer::Inserted(None))),
        (enter(0, 7, 1), Ok(Answer::Inserted(None))),
        (enter(0, 6, 9), Ok(Answer::Inserted(None))),
        (look_up(0, 7, 2), Ok(Answer::Found(batch(7, 2), 3))),
        (least(0, 7), Ok(Answer::Least(Some(entry(7, 1))))),
        (cut(0, 5, 7), Ok(Answer::Parted(1, 3, 2))),
        (look_up(0, 7, 2), Ok(Answer::Found(None, 1))),
        (look_up(5, 7, 2), Ok(Answer::Found(batch(7, 2), 2))),
        (least(0, 7), Ok(Answer::Least(None))),
        (least(5, 8), Ok(Answer::Least(Some(entry(8, 65535))))),
        (cut(5, 0, 8), Err(Refusal::Kind)),
    ];
    let calls = script.map(|(call, _)| call);
    let mut answers = [Err(Refusal::Breach); 12];
    let Ledger {
        heads,
        keys,
        values,
        bank,
    } = &mut ledger;
    let performed = bank.perform_all(heads, keys, values, &calls, &mut answers);
    assert_eq!(rt; performed, 12);
    for (answer, (call, told)) in answers.iter().zip(&script) {
        assert_eq!(rt; *answer, *told, "of {call:?}");
    }
    Ok(())
}
