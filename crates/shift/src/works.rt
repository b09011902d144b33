//! A blending works: the bank of its batch books, with the tables that they stand in.

use bank::bank::Bank;
use calls::calls::{Answer, Call};
use calls::refusals::Refusal;
use node::head::{CAPACITY, Head, NULL};
use order::blend::BlendNumber;
use order::keys::{KeyOrder, Placing, Query};
use order::stamp::BatchStamp;
use order::values::BatchRecord;
use supply::Supply;

/// How many nodes the tables have.
pub const NODES: usize = 5;

/// How many keys and how many values the tables have.
pub const CELLS: usize = CAPACITY * NODES;

/// A call on a batch book, which is cut at a stamp, or else at what `Q` says.
pub type BatchCall<Q = BatchStamp> = Call<BatchStamp, BatchRecord, BatchStamp, Q>;

/// What a call on a batch book answers.
pub type BatchAnswer = Answer<BatchStamp, BatchRecord>;

/// What stands in a table before it is used.
pub const NO_NODE: Head = Head {
    parent: NULL,
    place: 0,
    len: 0,
    edges: [NULL; 12],
};

pub const NO_STAMP: BatchStamp = BatchStamp { day: 0, number: 0 };

pub const NO_BATCH: BatchRecord = BatchRecord {
    blend: BlendNumber { number: 0 },
    grams: 0,
    hopper: 0,
};

/// The bank and its tables.
#[derive(Drop)]
pub struct Works<S> {
    pub heads: [Head; NODES],
    pub keys: [BatchStamp; CELLS],
    pub values: [BatchRecord; CELLS],
    pub bank: Bank<S>,
}

impl<S: Supply> Works<S> {
    ghost use Rattle.std.specs.Prelude.{◌≡◌};
    ghost use Rattle.calls.specs.Asking.{asked};
    ghost use Rattle.bank.specs.Calls.{told, itself, Performs};
    ghost use Rattle.bank.specs.Fitting.{coded};
    ghost use Rattle.bank.specs.Layout.{LaysOut};
    ghost use Rattle.bank.specs.Lists.{PerformsAll, first_calls, first_answers};
    ghost use Rattle.shift.specs.Books.{books_of};

    /// A works over a supply, whose tables are to be laid out first.
    pub fn new(supply: S) -> Works<S>
        ensures { S.stock result.bank.supply ≡ S.stock supply }
    {
        Works {
            heads: [NO_NODE; NODES],
            keys: [NO_STAMP; CELLS],
            values: [NO_BATCH; CELLS],
            bank: Bank::new(supply),
        }
    }

    /// Lays out the tables, with sixteen bare books.
    pub fn lay_out(&mut self) -> Result<(), Refusal>
        ensures { LaysOut ⟦<BatchStamp as KeyOrder>⟧.compares (books_of S.stock self.old) (books_of S.stock self.new) (coded result) }
    {
        self.bank.lay_out(&self.heads, &self.keys, &self.values)
    }

    /// Performs a call on the books.
    pub fn perform<Q: Query<BatchStamp>>(
        &mut self,
        call: &BatchCall<Q>,
    ) -> Result<BatchAnswer, Refusal>
        ensures { Performs ⟦<BatchStamp as KeyOrder>⟧.compares (asked ⟦<BatchStamp as Placing<BatchStamp>>⟧.places Q.Placing.places call.now) (books_of S.stock self.old) (books_of S.stock self.new) (told itself result) }
    {
        let Works {
            heads,
            keys,
            values,
            bank,
        } = self;
        bank.perform(heads, keys, values, call)
    }

    /// Performs calls in turn, and puts down what each answers, as many as there is room for. Answers how many were performed.
    pub fn perform_all(
        &mut self,
        calls: &[BatchCall],
        answers: &mut [Result<BatchAnswer, Refusal>],
    ) -> usize
        ensures { PerformsAll ⟦<BatchStamp as KeyOrder>⟧.compares (first_calls ⟦<BatchStamp as Placing<BatchStamp>>⟧.places ⟦<BatchStamp as Placing<BatchStamp>>⟧.places result calls.now) (books_of S.stock self.old) (books_of S.stock self.new) (first_answers result answers.new) }
    {
        let Works {
            heads,
            keys,
            values,
            bank,
        } = self;
        bank.perform_all(heads, keys, values, calls, answers)
    }
}
