//! The works and its tasting room: two callers of one bank, with a limit of nodes each.

use crate::blending::{BATCHES, NEXT_DAY, TRIALS, bookings, counts, enter, look_up};
use crate::card::print_nodes;
use crate::lines::{Asked, Told, print_line};
use crate::works::{BatchCall, CELLS, NO_BATCH, NO_NODE, NO_STAMP, NODES};
use calls::calls::Call;
use calls::refusals::Refusal;
use node::head::Head;
use order::keys::{KeyOrder, Placing};
use order::stamp::BatchStamp;
use order::values::BatchRecord;
use shared::moves::{Move, Reply};
use shared::sharing::SharedBank;
use std::{fmt, io};
use supply::Supply;
use supply::links::Chain;

/// The works, as a caller.
const WORKS: u16 = 0;

/// Its tasting room.
const ROOM: u16 = 1;

/// How many nodes each of them may have.
const LIMITS: [u16; 2] = [4, 2];

/// What a caller may ask for.
type BatchMove = Move<BatchStamp, BatchRecord, BatchStamp, BatchStamp>;

/// What it is answered.
type BatchReply = Reply<BatchStamp, BatchRecord>;

/// The bank of both, and its tables.
#[derive(Drop)]
struct SharedWorks<S: Supply> {
    heads: [Head; NODES],
    keys: [BatchStamp; CELLS],
    values: [BatchRecord; CELLS],
    bank: SharedBank<S>,
}

impl<S: Supply> SharedWorks<S> {
    ghost use Rattle.std.specs.Prelude.{◌≡◌};
    ghost use Rattle.supply.specs.declared.callers.Caller.TheVariants as Caller;
    ghost use Rattle.shared.specs.MoveLists.{asked_move, told_reply, MakesMove};
    ghost use Rattle.shift.specs.Books.{shared_books_of};

    /// A bank over a supply, of which caller 0 is served. Each caller is to lay out first.
    fn new(supply: S, limits: [u16; 2]) -> SharedWorks<S>
        ensures { result.bank.bank.supply.caller ≡ Caller.First }
    {
        let [first, second] = limits;
        SharedWorks {
            heads: [NO_NODE; NODES],
            keys: [NO_STAMP; CELLS],
            values: [NO_BATCH; CELLS],
            bank: SharedBank::new(supply, first, second),
        }
    }

    /// Makes a move, and answers what it answers.
    fn make(&mut self, request: &BatchMove) -> Result<BatchReply, Refusal>
        ensures { MakesMove ⟦<BatchStamp as KeyOrder>⟧.compares (asked_move ⟦<BatchStamp as Placing<BatchStamp>>⟧.places ⟦<BatchStamp as Placing<BatchStamp>>⟧.places request.now) (told_reply result) (shared_books_of S.Supply self.old) (shared_books_of S.Supply self.new) }
    {
        let SharedWorks {
            heads,
            keys,
            values,
            bank,
        } = self;
        bank.make(heads, keys, values, request)
    }
}

/// A move in writing.
#[derive(Clone, Copy, PartialEq, Eq, Debug)]
struct AskedMove(BatchMove);

/// A reply in writing.
#[derive(Clone, Copy, PartialEq, Eq, Debug)]
struct ToldReply(BatchReply);

impl fmt::Display for AskedMove {
    fn fmt<W: fmt::Write>(&self, f: &mut fmt::Formatter<W>) -> fmt::Result {
        match self.0 {
            Move::LayOut => write!(f, "lay out the tables"),
            Move::Turn { caller } => write!(f, "turn to caller {caller}"),
            Move::Call(call) => write!(f, "{}", Asked(call)),
        }
    }
}

impl fmt::Display for ToldReply {
    fn fmt<W: fmt::Write>(&self, f: &mut fmt::Formatter<W>) -> fmt::Result {
        match self.0 {
            Reply::LaidOut | Reply::Turned => write!(f, "done"),
            Reply::Answered(answer) => write!(f, "{}", Told(answer)),
        }
    }
}

/// Makes a move, and prints what it answers.
fn print_move<S: Supply>(
    rt: &impl Print,
    works: &mut SharedWorks<S>,
    request: BatchMove,
) -> io::Result<()> {
    print_line(
        rt,
        &AskedMove(request),
        &works.make(&request).map(ToldReply),
    )
}

/// Performs calls of the caller that is served, and prints what each answers.
fn print_calls<S: Supply>(
    rt: &impl Print,
    works: &mut SharedWorks<S>,
    calls: &[BatchCall],
) -> io::Result<()> {
    for call in calls {
        print_move(rt, works, Move::Call(*call))?;
    }
    Ok(())
}

/// Turns to a caller and performs its calls, and prints what each answers.
fn print_turn<S: Supply>(
    rt: &impl Print,
    works: &mut SharedWorks<S>,
    caller: u16,
    calls: &[BatchCall],
) -> io::Result<()> {
    print_move(rt, works, Move::Turn { caller })?;
    print_calls(rt, works, calls)
}

/// Prints the card of a caller's shift: the entries of its books, and the counts of the supply as it means it.
fn print_caller_card<S: Supply>(
    rt: &impl Print,
    works: &mut SharedWorks<S>,
    caller: u16,
) -> anyhow::Result<()> {
    works.make(&Move::Turn { caller })?;
    println!(rt; "Shift card of caller {caller}, over a shared chain")?;
    print_calls(rt, works, &counts())?;
    print_nodes(rt, works.bank.bank().supply())?;
    Ok(())
}

/// What the tasting room enters: the third book is one more than its limit allows.
fn tastings() -> [BatchCall; 3] {
    [
        enter(BATCHES, (20774, 1), (9, 20, 0)),
        enter(NEXT_DAY, (20775, 1), (31, 15, 0)),
        enter(TRIALS, (20775, 2), (31, 10, 0)),
    ]
}

/// Both lay out, which the tasting room cannot do first; and the works fills a leaf.
fn print_layouts<S: Supply>(rt: &impl Print, works: &mut SharedWorks<S>) -> io::Result<()> {
    print_move(rt, works, Move::Turn { caller: ROOM })?;
    print_move(rt, works, Move::LayOut)?;
    print_calls(rt, works, &bookings()[..11])?;
    print_move(rt, works, Move::Turn { caller: ROOM })?;
    print_move(rt, works, Move::LayOut)
}

/// The works and its tasting room by turns, on one bank: what each move answers, and the card of either.
pub fn print_two_callers(rt: &impl Print) -> anyhow::Result<()> {
    let [first, second] = LIMITS;
    let mut works = SharedWorks::new(Chain::new(5), LIMITS);
    let booked = bookings();
    println!(rt; "The works and its tasting room, over a chain of 5: limits {first} and {second}")?;
    print_layouts(rt, &mut works)?;
    print_calls(rt, &mut works, &tastings())?;
    print_turn(rt, &mut works, WORKS, &[booked[11], booked[14]])?;
    print_turn(
        rt,
        &mut works,
        ROOM,
        &[
            Call::Release { place: NEXT_DAY },
            look_up(BATCHES, (20774, 1)),
            Call::Audit,
        ],
    )?;
    print_move(rt, &mut works, Move::Turn { caller: 2 })?;
    print_turn(
        rt,
        &mut works,
        WORKS,
        &[booked[14], look_up(BATCHES, (20774, 1)), Call::Audit],
    )?;
    print_caller_card(rt, &mut works, WORKS)?;
    print_caller_card(rt, &mut works, ROOM)
}
