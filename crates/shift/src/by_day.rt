//! Batch books that are asked by days.

use crate::blending::print_calls;
use crate::day::batch;
use crate::works::{BatchCall, Works};
use calls::calls::Call;
use order::day::Day;
use order::stamp::BatchStamp;
use supply::links::Chain;

/// Four days' batches, out of order, with the first and the last stamp that there is.
fn bookings() -> [BatchCall<Day>; 8] {
    [
        (20775, 3),
        (4294967295, 65535),
        (20774, 2),
        (20775, 65535),
        (0, 0),
        (20777, 1),
        (20774, 1),
        (20775, 0),
    ]
    .map(|(day, number)| Call::Insert {
        place: 0,
        key: BatchStamp { day, number },
        value: batch(17, 240000, 2),
    })
}

/// The least batch of a day is looked for in a book.
fn least(place: usize, day: u32) -> BatchCall<Day> {
    Call::Least {
        place,
        query: Day::from(day),
    }
}

/// A book is cut at a day.
fn cut(place: usize, other: usize, day: u32) -> BatchCall<Day> {
    Call::Cut {
        place,
        other,
        query: Day::from(day),
    }
}

/// The least batches of days, on one of which there was none.
fn questions() -> [BatchCall<Day>; 6] {
    [0, 20774, 20775, 20776, 20777, 4294967295].map(|day| least(0, day))
}

/// A day with batches and one without are cut off, and a batch is looked up by its stamp.
fn change_of_day() -> [BatchCall<Day>; 9] {
    [
        cut(0, 1, 20775),
        least(0, 20775),
        least(1, 20775),
        Call::Lookup {
            place: 1,
            query: BatchStamp {
                day: 20775,
                number: 3,
            },
        },
        cut(1, 2, 20776),
        Call::Count { place: 0 },
        Call::Count { place: 1 },
        Call::Count { place: 2 },
        Call::Audit,
    ]
}

/// Books over a chain: what is answered of days, and what a cut at a day makes.
pub fn print_days(rt: &impl Print) -> anyhow::Result<()> {
    let mut works = Works::new(Chain::new(5));
    works.lay_out()?;
    println!(rt; "Batches by day")?;
    print_calls(rt, &mut works, &bookings())?;
    print_calls(rt, &mut works, &questions())?;
    print_calls(rt, &mut works, &change_of_day())?;
    Ok(())
}
