//! A bank with its tables, asked by calls that are given as values and audited after each.

use bank::bank::Bank;
use calls::calls::{Answer, Call};
use calls::refusals::Refusal;
use node::ends::Side;
use node::head::Head;
use order::blend::BlendNumber;
use std::alloc::Global;
use std::process::Abort;
use std::test::Fail;
use supply::Supply;

pub type Ask = Call<BlendNumber, u32, BlendNumber, BlendNumber>;

pub type Told = Result<Answer<BlendNumber, u32>, Refusal>;

const FREE: Head = Head {
    parent: 7,
    place: 7,
    len: 7,
    edges: [7; 12],
};

/// Puts a key with ten times the key as value.
pub fn insert(place: usize, key: u32) -> Ask {
    Call::Insert {
        place,
        key: BlendNumber::from(key),
        value: key.saturating_mul(10),
    }
}

pub fn lookup(place: usize, key: u32) -> Ask {
    Call::Lookup {
        place,
        query: BlendNumber::from(key),
    }
}

pub fn cut(place: usize, other: usize, key: u32) -> Ask {
    Call::Cut {
        place,
        other,
        query: BlendNumber::from(key),
    }
}

pub fn open(place: usize) -> Ask {
    Call::Open { place }
}

pub fn next(place: usize) -> Ask {
    Call::Step {
        place,
        side: Side::First,
    }
}

pub fn next_back(place: usize) -> Ask {
    Call::Step {
        place,
        side: Side::Last,
    }
}

pub fn close(place: usize) -> Ask {
    Call::Close { place }
}

pub fn release(place: usize) -> Ask {
    Call::Release { place }
}

pub fn count(place: usize) -> Ask {
    Call::Count { place }
}

pub fn inserted() -> Told {
    Ok(Answer::Inserted(None))
}

/// The value of a key that is found, and the comparisons made.
pub fn found(key: u32, made: usize) -> Told {
    Ok(Answer::Found(Some(key.saturating_mul(10)), made))
}

pub fn not_found(made: usize) -> Told {
    Ok(Answer::Found(None, made))
}

pub fn counted(entries: usize) -> Told {
    Ok(Answer::Counted(entries))
}

/// Entries left, entries right, and comparisons made.
pub fn parted(left: usize, right: usize, made: usize) -> Told {
    Ok(Answer::Parted(left, right, made))
}

pub fn opened() -> Told {
    Ok(Answer::Opened)
}

/// The entry of a key, as a step hands it out.
pub fn handed(key: u32) -> Told {
    Ok(Answer::Handed(Some((BlendNumber::from(key), key.saturating_mul(10)))))
}

pub fn none_left() -> Told {
    Ok(Answer::Handed(None))
}

pub fn dropped(entries: usize) -> Told {
    Ok(Answer::Dropped(entries))
}

pub fn short(needed: u16, allowance: u16) -> Told {
    Err(Refusal::Short { needed, allowance })
}

/// A bank that is laid out, with its tables.
#[derive(Drop)]
pub struct Desk<S> {
    pub heads: Vec<Head>,
    pub keys: Vec<BlendNumber>,
    pub values: Vec<u32>,
    pub bank: Bank<S>,
}

impl<S: Supply + Drop> Desk<S> {
    /// A desk of as many nodes as the supply has.
    pub fn new(heap: Global, supply: S) -> Result<Desk<S>, Fail> {
        let size = supply.size() as usize;
        let heads = vec![in heap; FREE; size]?;
        let keys = vec![in heap; BlendNumber::from(7); size * 11]?;
        let values = vec![in heap; 7; size * 11]?;
        let mut bank = Bank::new(supply);
        bank.lay_out(&heads, &keys, &values)?;
        Ok(Desk {
            heads,
            keys,
            values,
            bank,
        })
    }

    fn perform(&mut self, call: Ask) -> Told {
        let heads = self.heads.as_mut_slice();
        let keys = self.keys.as_mut_slice();
        let values = self.values.as_mut_slice();
        self.bank.perform(heads, keys, values, &call)
    }

    /// Asks for a call, after which the bank is in good form.
    pub fn ask(&mut self, rt: &impl Abort, call: Ask) -> Told {
        let told = self.perform(call);
        let audited = self.perform(Call::Audit);
        assert_eq!(rt; audited, Ok(Answer::Audited(true)), "after {call:?}");
        told
    }

    /// Asks one call after the other. Each comes with its answer, and how many nodes are out then.
    pub fn plays(&mut self, rt: &impl Abort, script: &[(Ask, Told, u16)]) {
        for (call, told, out) in script {
            let answer = (self.ask(rt, *call), self.bank.supply().out_count());
            assert_eq!(rt; answer, (*told, *out), "of {call:?}");
        }
    }

    /// Puts keys into a place, none of which is there.
    pub fn fill(&mut self, rt: &impl Abort, place: usize, keys: &[u32]) {
        for key in keys {
            let told = self.ask(rt, insert(place, *key));
            assert_eq!(rt; told, inserted(), "of {key}");
        }
    }

    /// Looks keys up. Each comes with the comparisons wanted, and whether it is there.
    pub fn finds(&mut self, rt: &impl Abort, place: usize, wanted: &[(u32, bool, usize)]) {
        for (key, there, made) in wanted {
            let told = self.ask(rt, lookup(place, *key));
            let answer = if *there {
                found(*key, *made)
            } else {
                not_found(*made)
            };
            assert_eq!(rt; told, answer, "at {key}");
        }
    }

    /// A node holds just these keys.
    pub fn holds(&self, rt: &impl Abort, node: u16, wanted: &[u32]) {
        let node = node as usize;
        assert!(rt; node < self.heads.len());
        assert_eq!(rt; self.heads[node].len as usize, wanted.len(), "in {node}");
        for (idx, key) in wanted.iter().enumerate() {
            let cell = node.saturating_mul(11).saturating_add(idx);
            assert!(rt; cell < self.keys.len());
            assert_eq!(rt; self.keys[cell], BlendNumber::from(*key), "in {node}");
        }
    }
}
