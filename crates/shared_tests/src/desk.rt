//! A bank for two callers with its tables, asked by calls that are given as values.

use calls::calls::{Answer, Call};
use calls::refusals::Refusal;
use node::ends::Side;
use node::head::Head;
use order::blend::BlendNumber;
use shared::moves::{Move, Reply};
use shared::sharing::SharedBank;
use std::alloc::Global;
use std::process::Abort;
use std::test::Fail;
use supply::Supply;

pub type Ask = Call<BlendNumber, u32, BlendNumber, BlendNumber>;

pub type Told = Result<Answer<BlendNumber, u32>, Refusal>;

pub type Asked = Move<BlendNumber, u32, BlendNumber, BlendNumber>;

pub type Replied = Result<Reply<BlendNumber, u32>, Refusal>;

pub const FREE: Head = Head {
    parent: 7,
    place: 7,
    len: 7,
    edges: [7; 12],
};

/// No node is to be had.
pub const NONE: Refusal = Refusal::Short {
    needed: 1,
    allowance: 0,
};

/// Puts a key with ten times the key as value.
pub fn insert(place: usize, key: u32) -> Ask {
    Call::Insert {
        place,
        key: BlendNumber::from(key),
        value: key.saturating_mul(10),
    }
}

pub fn lookup(place: usize, key: u32) -> Ask {
    Call::Lookup {
        place,
        query: BlendNumber::from(key),
    }
}

pub fn cut(place: usize, other: usize, key: u32) -> Ask {
    Call::Cut {
        place,
        other,
        query: BlendNumber::from(key),
    }
}

pub fn next(place: usize) -> Ask {
    Call::Step {
        place,
        side: Side::First,
    }
}

pub fn next_back(place: usize) -> Ask {
    Call::Step {
        place,
        side: Side::Last,
    }
}

/// The entry of a key, as a step hands it out.
pub fn handed(key: u32) -> Told {
    Ok(Answer::Handed(Some((BlendNumber::from(key), key.saturating_mul(10)))))
}

/// No entry, as a step says it.
pub fn none_left() -> Told {
    Ok(Answer::Handed(None))
}

/// A bank for two callers, with its tables.
#[derive(Drop)]
pub struct Desk<S: Supply> {
    pub heads: Vec<Head>,
    pub keys: Vec<BlendNumber>,
    pub values: Vec<u32>,
    pub bank: SharedBank<S>,
}

impl<S: Supply + Drop> Desk<S> {
    /// A desk of as many nodes as the supply has, with these limits. It is not laid out.
    pub fn new(heap: Global, supply: S, first: u16, second: u16) -> Result<Desk<S>, Fail> {
        let size = supply.size() as usize;
        let heads = vec![in heap; FREE; size]?;
        let keys = vec![in heap; BlendNumber::from(7); size * 11]?;
        let values = vec![in heap; 7; size * 11]?;
        Ok(Desk {
            heads,
            keys,
            values,
            bank: SharedBank::new(supply, first, second),
        })
    }

    /// A desk that is laid out for both callers. Caller 0 is served.
    pub fn laid_out(heap: Global, supply: S, first: u16, second: u16) -> Result<Desk<S>, Fail> {
        let mut desk = Desk::new(heap, supply, first, second)?;
        desk.lay_out()?;
        desk.turn(1)?;
        desk.lay_out()?;
        desk.turn(0)?;
        Ok(desk)
    }

    pub fn lay_out(&mut self) -> Result<(), Refusal> {
        self.bank.lay_out(&self.heads, &self.keys, &self.values)
    }

    pub fn turn(&mut self, caller: u16) -> Result<(), Refusal> {
        self.bank
            .turn(&self.heads, &self.keys, &self.values, caller)
    }

    /// Asks for a call.
    pub fn ask(&mut self, call: Ask) -> Told {
        let heads = self.heads.as_mut_slice();
        let keys = self.keys.as_mut_slice();
        let values = self.values.as_mut_slice();
        self.bank.perform(heads, keys, values, &call)
    }

    /// Makes a move.
    pub fn make(&mut self, asked: &Asked) -> Replied {
        let heads = self.heads.as_mut_slice();
        let keys = self.keys.as_mut_slice();
        let values = self.values.as_mut_slice();
        self.bank.make(heads, keys, values, asked)
    }

    /// Makes moves, and puts down what they answer.
    pub fn make_all(&mut self, asked: &[Asked], replies: &mut [Replied]) -> usize {
        let heads = self.heads.as_mut_slice();
        let keys = self.keys.as_mut_slice();
        let values = self.values.as_mut_slice();
        self.bank.make_all(heads, keys, values, asked, replies)
    }

    /// How many nodes are out and may be taken, of the caller that is served.
    pub fn nodes(&self) -> (u16, u16) {
        let supply = self.bank.bank().supply();
        (supply.out_count(), supply.allowance())
    }

    /// Sees that the bank is in good form for both callers. The same caller is served afterwards.
    pub fn audited(&mut self, rt: &impl Abort) -> Result<(), Fail> {
        let served = self.bank.caller();
        for caller in [1 - served.min(1), served] {
            self.turn(caller)?;
            let told = self.ask(Call::Audit);
            assert_eq!(rt; told, Ok(Answer::Audited(true)), "of {caller}");
        }
        Ok(())
    }

    /// Puts keys into a place, none of which is there.
    pub fn fill(&mut self, rt: &impl Abort, place: usize, keys: &[u32]) {
        for key in keys {
            let told = self.ask(insert(place, *key));
            assert_eq!(rt; told, Ok(Answer::Inserted(None)), "of {key}");
        }
    }

    /// Asks one call after the other. Each comes with its answer.
    pub fn plays(&mut self, rt: &impl Abort, script: &[(Ask, Told)]) {
        for (call, told) in script {
            let answer = self.ask(*call);
            assert_eq!(rt; answer, *told, "of {call:?}");
        }
    }
}
