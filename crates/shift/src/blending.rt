//! A day at the blending works: its batch books over a small supply of nodes.

use crate::card::print_nodes;
use crate::day::batch;
use crate::lines::{Asked, Told, print_line};
use crate::works::{BatchCall, Works};
use calls::calls::Call;
use calls::refusals::Refusal;
use node::ends::Side;
use order::keys::{KeyOrder, Placing, Query};
use order::stamp::BatchStamp;
use std::{fmt, io};
use supply::Supply;

/// The batch book that the day begins with.
pub const BATCHES: usize = 0;

/// Where the next day's batches go.
pub const NEXT_DAY: usize = 1;

/// The book of the trials.
pub const TRIALS: usize = 2;

/// The most calls that are performed as one list.
const MOST_CALLS: usize = 15;

/// A place that no bank has.
const NO_BOOK: usize = 16;

/// A batch is entered: the book, day and number of its stamp, its blend, grams and hopper.
pub fn enter(
    place: usize,
    (day, number): (u32, u16),
    (blend, grams, hopper): (u32, u32, u8),
) -> BatchCall {
    Call::Insert {
        place,
        key: BatchStamp { day, number },
        value: batch(blend, grams, hopper),
    }
}

/// A batch is looked up in a book.
pub fn look_up(place: usize, (day, number): (u32, u16)) -> BatchCall {
    Call::Lookup {
        place,
        query: BatchStamp { day, number },
    }
}

/// Two days' batches. The twelfth is a late one, and splits the leaf; the last one but one corrects the second.
pub fn bookings() -> [BatchCall; 15] {
    [
        enter(BATCHES, (20774, 1), (17, 240000, 2)),
        enter(BATCHES, (20774, 2), (9, 85500, 1)),
        enter(BATCHES, (20774, 3), (17, 240000, 3)),
        enter(BATCHES, (20774, 5), (4, 120750, 2)),
        enter(BATCHES, (20774, 6), (9, 85500, 1)),
        enter(BATCHES, (20774, 7), (17, 240000, 2)),
        enter(BATCHES, (20774, 8), (22, 60250, 3)),
        enter(BATCHES, (20774, 9), (9, 85500, 1)),
        enter(BATCHES, (20775, 1), (4, 120750, 2)),
        enter(BATCHES, (20775, 2), (17, 240000, 3)),
        enter(BATCHES, (20775, 3), (9, 85500, 1)),
        enter(BATCHES, (20774, 4), (22, 60250, 3)),
        enter(BATCHES, (20775, 4), (17, 240000, 2)),
        enter(BATCHES, (20774, 2), (9, 84900, 1)),
        enter(TRIALS, (20775, 1), (31, 250, 0)),
    ]
}

/// Batches looked up: in both leaves and the root, where there is none, in a bare book, and where there is no book.
fn questions() -> [BatchCall; 7] {
    [
        look_up(BATCHES, (20774, 4)),
        look_up(BATCHES, (20774, 8)),
        look_up(BATCHES, (20774, 2)),
        look_up(BATCHES, (20774, 10)),
        look_up(BATCHES, (20775, 5)),
        look_up(NEXT_DAY, (20774, 1)),
        look_up(NO_BOOK, (20774, 1)),
    ]
}

/// The second day goes into a book of its own, once the trials have made room.
fn change_of_day() -> [BatchCall; 5] {
    let cut = Call::Cut {
        place: BATCHES,
        other: NEXT_DAY,
        query: BatchStamp {
            day: 20775,
            number: 1,
        },
    };
    [
        cut,
        Call::Release { place: TRIALS },
        cut,
        Call::Count { place: BATCHES },
        Call::Count { place: NEXT_DAY },
    ]
}

/// The first day is opened as an archive, and no batch can be entered any more.
fn opening() -> [BatchCall; 2] {
    [
        Call::Open { place: BATCHES },
        enter(BATCHES, (20774, 10), (9, 85500, 1)),
    ]
}

/// All but the last batch of the archive, from the front.
fn archive() -> [BatchCall; 8] {
    [Call::Step {
        place: BATCHES,
        side: Side::First,
    }; 8]
}

/// Both books are put away, a trial is begun for the next shift, and the bank is audited.
fn closing() -> [BatchCall; 4] {
    [
        Call::Close { place: BATCHES },
        Call::Release { place: NEXT_DAY },
        enter(TRIALS, (20776, 1), (31, 500, 0)),
        Call::Audit,
    ]
}

/// The books of the day, counted.
pub fn counts() -> [BatchCall; 3] {
    [BATCHES, NEXT_DAY, TRIALS].map(|place| Call::Count { place })
}

/// Performs the calls in turn, and prints what each answers.
pub fn print_calls<S: Supply, Q: Query<BatchStamp> + Copy + fmt::Display>(
    rt: &impl Print,
    works: &mut Works<S>,
    calls: &[BatchCall<Q>],
) -> io::Result<()> {
    for call in calls {
        print_line(rt, &Asked(*call), &works.perform(call).map(Told))?;
    }
    Ok(())
}

/// Performs the calls in turn, whatever they answer.
fn perform_all<S: Supply>(works: &mut Works<S>, calls: &[BatchCall]) {
    let mut answers = [Err(Refusal::Breach); MOST_CALLS];
    let _ = works.perform_all(calls, &mut answers);
}

/// Performs the calls of a day, and prints what each answers.
fn print_day<S: Supply>(rt: &impl Print, works: &mut Works<S>) -> io::Result<()> {
    println!(rt; "Batches booked")?;
    print_calls(rt, works, &bookings())?;
    println!(rt; "Batches looked up")?;
    print_calls(rt, works, &questions())?;
    println!(rt; "The day cut off")?;
    print_calls(rt, works, &change_of_day())?;
    println!(rt; "The archive")?;
    print_calls(rt, works, &opening())?;
    print_calls(rt, works, &archive())?;
    println!(rt; "The books put away")?;
    print_calls(rt, works, &closing())
}

/// Performs the calls of a day.
fn perform_day<S: Supply>(works: &mut Works<S>) {
    perform_all(works, &bookings());
    perform_all(works, &questions());
    perform_all(works, &change_of_day());
    perform_all(works, &opening());
    perform_all(works, &archive());
    perform_all(works, &closing());
}

/// Prints the entries of the books and the counts of the supply.
fn print_card<S: Supply>(rt: &impl Print, kind: &str, works: &mut Works<S>) -> io::Result<()> {
    println!(rt; "Shift card, over a {kind}")?;
    print_calls(rt, works, &counts())?;
    print_nodes(rt, works.bank.supply())
}

/// A day over the supply: what each call answers, and the card of the shift.
pub fn print_shift<S: Supply + Drop>(rt: &impl Print, kind: &str, supply: S) -> anyhow::Result<()> {
    let mut works = Works::new(supply);
    works.lay_out()?;
    print_day(rt, &mut works)?;
    print_card(rt, kind, &mut works)?;
    Ok(())
}

/// A day over the supply: the card of the shift alone.
pub fn print_shift_card<S: Supply + Drop>(
    rt: &impl Print,
    kind: &str,
    supply: S,
) -> anyhow::Result<()> {
    let mut works = Works::new(supply);
    works.lay_out()?;
    perform_day(&mut works);
    print_card(rt, kind, &mut works)?;
    Ok(())
}
