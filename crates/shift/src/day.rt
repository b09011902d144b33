//! What happens on the day.

ghost use Rattle.std.specs.Prelude.{◌≡◌, length, if◌then◌else◌, nat_le};
ghost use Rattle.order.specs.Marks.{mark_of, empty_mark};

use crate::batches::{Row, print_lookups};
use crate::card::{Errand, print_errands, print_laid_in};
use order::blend::BlendNumber;
use order::mark::{LotMark, MarkPart};
use order::stamp::BatchStamp;
use order::values::{BatchRecord, Dose};
use std::io;
use supply::bits::Bitmap;
use supply::links::Chain;

/// The morning's errands to a supply of five.
const MORNING: [Errand; 12] = [
    Errand::TakeTwo,
    Errand::Take,
    Errand::Take,
    Errand::GiveBack(0),
    Errand::GiveBack(2),
    Errand::GiveBack(2),
    Errand::Take,
    Errand::Take,
    Errand::TakeTwo,
    Errand::Take,
    Errand::Take,
    Errand::GiveBack(5),
];

/// Lays in both supplies at some sizes, and runs the morning's errands on each.
pub fn supplies(rt: &impl Print) -> io::Result<()> {
    println!(rt; "Node supplies laid in")?;
    for size in [1, 65, 4096, 4097] {
        print_laid_in(rt, "chain", size, &Chain::new(size))?;
        print_laid_in(rt, "bitmap", size, &Bitmap::new(size))?;
    }
    print_errands(rt, "chain", &mut Chain::new(5), &MORNING)?;
    print_errands(rt, "bitmap", &mut Bitmap::new(5), &MORNING)
}

pub fn batch(number: u32, grams: u32, hopper: u8) -> BatchRecord
    ensures { (result.blend.number ≡ number) × (result.grams ≡ grams) × (result.hopper ≡ hopper) }
{
    BatchRecord {
        blend: BlendNumber::from(number),
        grams,
        hopper,
    }
}

/// The mark of up to twelve bytes; more make the empty mark.
fn mark(bytes: &[u8]) -> LotMark
    ensures { result ≡ (if nat_le (length bytes.now) 12 then mark_of bytes.now else empty_mark) }
{
    LotMark::try_from(bytes).unwrap_or(LotMark::empty())
}

/// The day's batches, looked up by stamp.
pub fn batches_by_stamp(rt: &impl Print) -> io::Result<()> {
    let row = Row {
        keys: [(20774, 1), (20774, 2), (20774, 4), (20775, 1)].map(BatchStamp::from),
        values: [
            batch(17, 240000, 2),
            batch(9, 85500, 1),
            batch(17, 240000, 3),
            batch(4, 120750, 2),
        ],
    };
    let queries = [
        (20773, 65535),
        (20774, 2),
        (20774, 3),
        (20775, 1),
        (20775, 2),
    ]
    .map(BatchStamp::from);
    print_lookups(rt, "Batches by stamp", &row, &queries)
}

/// The doses of lots, looked up by parts of a line.
pub fn doses_by_mark(rt: &impl Print) -> io::Result<()> {
    let row = Row {
        keys: [
            mark(b"AS-04"),
            mark(b"AS-0417"),
            mark(b"KE-22"),
            mark(b"NILGIRI-2026"),
        ],
        values: [
            Dose::Kilograms(12.5),
            Dose::Chests(3),
            Dose::Share(0.25),
            Dose::Kilograms(0.75),
        ],
    };
    let line: &[u8] = b"AS-0417 KE-22 NILGIRI-2026 NILGIRI-2026B";
    let queries = [
        &line[0..7],
        &line[0..6],
        &line[8..13],
        &line[14..26],
        &line[27..40],
        &line[7..7],
    ]
    .map(MarkPart::from);
    print_lookups(rt, "Doses by lot mark", &row, &queries)
}

/// The last batch of each blend, looked up by the blend's number.
pub fn last_batches_by_blend(rt: &impl Print) -> io::Result<()> {
    let row = Row {
        keys: [4, 9, 17].map(BlendNumber::from),
        values: [
            batch(4, 120750, 2),
            batch(9, 85500, 1),
            batch(17, 240000, 3),
        ],
    };
    let queries = [3, 9, 10, 17, 4294967295].map(BlendNumber::from);
    print_lookups(rt, "Last batches by blend", &row, &queries)
}
