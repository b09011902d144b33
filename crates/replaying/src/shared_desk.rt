//! A bank for two callers, with tables of its own.

use crate::reply::{BlendAnswer, Reply};
use crate::script::{Line, SharedLine};
use crate::tables::DeskTables;
use calls::calls::Call;
use calls::refusals::Refusal;
use order::blend::BlendNumber;
use order::keys::{KeyOrder, Placing, Query};
use shared::sharing::SharedBank;
use std::alloc::Global;
use supply::Supply;
use supply::links::Chain;

/// Tables and bank.
#[derive(Drop)]
pub struct SharedDesk {
    pub tables: DeskTables,
    pub bank: SharedBank<Chain>,
}

impl SharedDesk {
    ghost use Rattle.std.specs.Prelude.{◌≡◌};
    ghost use Rattle.supply.specs.Callers.{caller_number};
    ghost use Rattle.calls.specs.Asking.{asked};
    ghost use Rattle.calls.specs.Runs.{event};
    ghost use Rattle.bank.specs.Calls.{told, itself};
    ghost use Rattle.bank.specs.Fitting.{coded};
    ghost use Rattle.shared.specs.Moves.{Called, LaidOut, TurnsTo};
    ghost use Rattle.replaying.specs.Desks.{shared_books_of};

    /// Sixteen bare places for each of two callers, over `size` nodes of which they may have `first` and `second`. Caller 0 is served.
    pub fn new(heap: Global, size: u16, first: u16, second: u16) -> anyhow::Result<SharedDesk> {
        let mut desk = SharedDesk {
            tables: DeskTables::new(heap, size)?,
            bank: SharedBank::new(Chain::new(size), first, second),
        };
        desk.lay_out()?;
        desk.turn(1)?;
        desk.lay_out()?;
        desk.turn(0)?;
        Ok(desk)
    }

    /// Lays out the tables for the caller that is served.
    fn lay_out(&mut self) -> Result<(), Refusal>
        ensures { LaidOut ⟦<BlendNumber as KeyOrder>⟧.compares (caller_number self.old.bank.bank.supply.caller) (coded result) (shared_books_of self.old) (shared_books_of self.new) }
    {
        let heads = self.tables.heads.as_slice();
        let keys = self.tables.keys.as_slice();
        let values = self.tables.values.as_slice();
        self.bank.lay_out(heads, keys, values)
    }

    /// Serves the caller with this number.
    fn turn(&mut self, caller: u16) -> Result<(), Refusal>
        ensures { TurnsTo caller (shared_books_of self.old) (shared_books_of self.new) (coded result) }
    {
        let heads = self.tables.heads.as_slice();
        let keys = self.tables.keys.as_slice();
        let values = self.tables.values.as_slice();
        self.bank.turn(heads, keys, values, caller)
    }

    /// Performs a call of the caller that is served.
    fn call<Q: Query<BlendNumber>>(
        &mut self,
        call: &Call<BlendNumber, u32, BlendNumber, Q>,
    ) -> Result<BlendAnswer, Refusal>
        ensures { Called ⟦<BlendNumber as KeyOrder>⟧.compares (caller_number self.old.bank.bank.supply.caller) (event (asked ⟦<BlendNumber as Placing<BlendNumber>>⟧.places Q.Placing.places call.now) (told itself result)) (shared_books_of self.old) (shared_books_of self.new) }
    {
        let heads = self.tables.heads.as_mut_slice();
        let keys = self.tables.keys.as_mut_slice();
        let values = self.tables.values.as_mut_slice();
        self.bank.perform(heads, keys, values, call)
    }

    /// Does what a line asks for, or says why it was refused.
    pub fn perform(&mut self, line: &SharedLine) -> Result<Reply<'_>, Refusal> {
        match line {
            SharedLine::Turn { caller } => {
                self.turn(*caller)?;
                Ok(Reply::Turned)
            }
            SharedLine::Served(Line::Call(call)) => Ok(Reply::Answer(self.call(call)?)),
            SharedLine::Served(Line::ByDecade(call)) => Ok(Reply::Answer(self.call(call)?)),
            SharedLine::Served(Line::Shape { place }) => self
                .tables
                .shape(self.bank.bank(), *place),
            SharedLine::Served(Line::Out) => Ok(Reply::Out(self.bank.bank().supply().out_count())),
        }
    }
}
