//! A bank of sixteen books, with tables of its own.

use crate::reply::{BlendAnswer, Reply};
use crate::script::Line;
use crate::tables::DeskTables;
use bank::bank::Bank;
use calls::calls::Call;
use calls::refusals::Refusal;
use order::blend::BlendNumber;
use order::keys::{KeyOrder, Placing, Query};
use std::alloc::Global;
use supply::Supply;
use supply::links::Chain;

/// Tables and bank.
#[derive(Drop)]
pub struct Desk {
    pub tables: DeskTables,
    pub bank: Bank<Chain>,
}

impl Desk {
    ghost use Rattle.std.specs.Prelude.{◌≡◌};
    ghost use Rattle.calls.specs.Asking.{asked};
    ghost use Rattle.bank.specs.Calls.{told, itself, Performs};
    ghost use Rattle.replaying.specs.Desks.{books_of};

    /// Sixteen bare places over `size` nodes.
    pub fn new(heap: Global, size: u16) -> anyhow::Result<Desk> {
        let tables = DeskTables::new(heap, size)?;
        let mut bank = Bank::new(Chain::new(size));
        bank.lay_out(
            tables.heads.as_slice(),
            tables.keys.as_slice(),
            tables.values.as_slice(),
        )?;
        Ok(Desk { tables, bank })
    }

    /// Performs a call of the bank.
    fn call<Q: Query<BlendNumber>>(
        &mut self,
        call: &Call<BlendNumber, u32, BlendNumber, Q>,
    ) -> Result<BlendAnswer, Refusal>
        ensures { Performs ⟦<BlendNumber as KeyOrder>⟧.compares (asked ⟦<BlendNumber as Placing<BlendNumber>>⟧.places Q.Placing.places call.now) (books_of ⟦<Chain as Supply>⟧.stock self.old) (books_of ⟦<Chain as Supply>⟧.stock self.new) (told itself result) }
    {
        let heads = self.tables.heads.as_mut_slice();
        let keys = self.tables.keys.as_mut_slice();
        let values = self.tables.values.as_mut_slice();
        self.bank.perform(heads, keys, values, call)
    }

    /// Does what a line asks for, or says why it was refused.
    pub fn perform(&mut self, line: &Line) -> Result<Reply<'_>, Refusal> {
        match line {
            Line::Call(call) => Ok(Reply::Answer(self.call(call)?)),
            Line::ByDecade(call) => Ok(Reply::Answer(self.call(call)?)),
            Line::Shape { place } => self.tables.shape(&self.bank, *place),
            Line::Out => Ok(Reply::Out(self.bank.supply().out_count())),
        }
    }
}
