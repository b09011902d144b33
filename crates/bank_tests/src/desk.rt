//! A bank with its tables, asked by calls that are given as values.

use bank::bank::Bank;
use books::places::{PLACES, Place};
use calls::calls::{Answer, Call};
use calls::refusals::Refusal;
use node::ends::Side;
use node::head::Head;
use order::blend::BlendNumber;
use std::alloc::Global;
use std::process::Abort;
use std::test::Fail;
use supply::Supply;

pub type Ask = Call<BlendNumber, u32, BlendNumber, BlendNumber>;

pub type Told = Result<Answer<BlendNumber, u32>, Refusal>;

pub const FREE: Head = Head {
    parent: 7,
    place: 7,
    len: 7,
    edges: [7; 12],
};

/// Puts a key with ten times the key as value.
pub fn insert(place: usize, key: u32) -> Ask {
    Call::Insert {
        place,
        key: BlendNumber::from(key),
        value: key.saturating_mul(10),
    }
}

pub fn lookup(place: usize, key: u32) -> Ask {
    Call::Lookup {
        place,
        query: BlendNumber::from(key),
    }
}

pub fn least(place: usize, key: u32) -> Ask {
    Call::Least {
        place,
        query: BlendNumber::from(key),
    }
}

pub fn cut(place: usize, other: usize, key: u32) -> Ask {
    Call::Cut {
        place,
        other,
        query: BlendNumber::from(key),
    }
}

pub fn open(place: usize) -> Ask {
    Call::Open { place }
}

pub fn next(place: usize) -> Ask {
    Call::Step {
        place,
        side: Side::First,
    }
}

pub fn next_back(place: usize) -> Ask {
    Call::Step {
        place,
        side: Side::Last,
    }
}

pub fn close(place: usize) -> Ask {
    Call::Close { place }
}

pub fn release(place: usize) -> Ask {
    Call::Release { place }
}

pub fn count(place: usize) -> Ask {
    Call::Count { place }
}

/// Each call on a place: six that a map allows, three that a walk allows, and the count. A cut is into place 9.
pub fn calls(place: usize) -> [Ask; 10] {
    [
        insert(place, 50),
        lookup(place, 50),
        least(place, 50),
        cut(place, 9, 50),
        open(place),
        release(place),
        next(place),
        next_back(place),
        close(place),
        count(place),
    ]
}

/// The entry of a key, as a step hands it out.
pub fn handed(key: u32) -> Told {
    Ok(Answer::Handed(Some((BlendNumber::from(key), key.saturating_mul(10)))))
}

/// No entry, as a step says it.
pub fn none_left() -> Told {
    Ok(Answer::Handed(None))
}

pub fn counted(entries: usize) -> Told {
    Ok(Answer::Counted(entries))
}

pub fn dropped(entries: usize) -> Told {
    Ok(Answer::Dropped(entries))
}

/// Entries left, entries right, and comparisons made.
pub fn parted(left: usize, right: usize, made: usize) -> Told {
    Ok(Answer::Parted(left, right, made))
}

/// Asks by the methods of the bank, each of which is called here.
pub fn by_methods<S: Supply + Drop>(
    bank: &mut Bank<S>,
    heads: &mut [Head],
    keys: &mut [BlendNumber],
    values: &mut [u32],
    call: &Ask,
) -> Told {
    match *call {
        Call::Insert { place, key, value } => Ok(Answer::Inserted(bank.insert(
            heads, keys, values, place, key, value,
        )?)),
        Call::Lookup { place, query } => {
            let (value, made) = bank.lookup(heads, keys, values, place, &query)?;
            Ok(Answer::Found(value, made))
        }
        Call::Least { place, query } => Ok(Answer::Least(bank.least(
            heads, keys, values, place, &query,
        )?)),
        Call::Count { place } => Ok(Answer::Counted(bank.count(heads, keys, values, place)?)),
        Call::Cut {
            place,
            other,
            query,
        } => {
            let (left, right, made) = bank.cut(heads, keys, values, place, other, &query)?;
            Ok(Answer::Parted(left, right, made))
        }
        Call::Open { place } => {
            bank.open(heads, keys, values, place)?;
            Ok(Answer::Opened)
        }
        Call::Step {
            place,
            side: Side::First,
        } => Ok(Answer::Handed(bank.next(heads, keys, values, place)?)),
        Call::Step {
            place,
            side: Side::Last,
        } => Ok(Answer::Handed(bank.next_back(heads, keys, values, place)?)),
        Call::Close { place } => Ok(Answer::Dropped(bank.close(heads, keys, values, place)?)),
        Call::Release { place } => Ok(Answer::Dropped(bank.release(heads, keys, values, place)?)),
        Call::Audit => Ok(Answer::Audited(bank.audit(heads, keys, values)?)),
    }
}

/// The most nodes that a bank may have whose content is compared.
const MOST: usize = 16;

/// What a bank keeps: what stands in each place, which numbers are out, and how many more may be taken.
#[derive(Clone, Copy, PartialEq, Eq, Debug)]
pub struct Kept {
    places: [Option<Place>; PLACES],
    out: [bool; MOST],
    allowance: u16,
}

impl Kept {
    pub fn of<S: Supply>(rt: &impl Abort, bank: &Bank<S>) -> Kept {
        let supply = bank.supply();
        assert!(rt; supply.size() as usize <= MOST);
        let mut kept = Kept {
            places: [None; PLACES],
            out: [false; MOST],
            allowance: supply.allowance(),
        };
        for at in 0..PLACES {
            kept.places[at] = bank.place(at);
        }
        for node in 0..MOST {
            kept.out[node] = supply.is_out(node as u16);
        }
        kept
    }
}

/// What a bank keeps, and its tables.
#[derive(Clone, Copy, PartialEq, Eq, Debug)]
pub struct Content {
    kept: Kept,
    heads: [Head; MOST],
    keys: [BlendNumber; MOST * 11],
    values: [u32; MOST * 11],
}

/// A bank that is laid out, with its tables.
#[derive(Drop)]
pub struct Desk<S> {
    pub heads: Vec<Head>,
    pub keys: Vec<BlendNumber>,
    pub values: Vec<u32>,
    pub bank: Bank<S>,
    methods: bool,
}

impl<S: Supply + Drop> Desk<S> {
    /// A desk of as many nodes as the supply has, which is asked by methods or by `perform`.
    pub fn new(heap: Global, supply: S, methods: bool) -> Result<Desk<S>, Fail> {
        let size = supply.size() as usize;
        let heads = vec![in heap; FREE; size]?;
        let keys = vec![in heap; BlendNumber::from(7); size * 11]?;
        let values = vec![in heap; 7; size * 11]?;
        let mut bank = Bank::new(supply);
        bank.lay_out(&heads, &keys, &values)?;
        Ok(Desk {
            heads,
            keys,
            values,
            bank,
            methods,
        })
    }

    /// Asks for a call.
    pub fn ask(&mut self, call: Ask) -> Told {
        let heads = self.heads.as_mut_slice();
        let keys = self.keys.as_mut_slice();
        let values = self.values.as_mut_slice();
        if self.methods {
            return by_methods(&mut self.bank, heads, keys, values, &call);
        }
        self.bank.perform(heads, keys, values, &call)
    }

    /// Asks for a call, after which the bank is in good form.
    pub fn good(&mut self, rt: &impl Abort, call: Ask) -> Told {
        let told = self.ask(call);
        let audited = self.ask(Call::Audit);
        assert_eq!(rt; audited, Ok(Answer::Audited(true)), "after {call:?}");
        told
    }

    /// Asks one call after the other. Each comes with its answer, and how many nodes are out then.
    pub fn plays(&mut self, rt: &impl Abort, script: &[(Ask, Told, u16)]) {
        for (call, told, out) in script {
            let answer = (self.good(rt, *call), self.bank.supply().out_count());
            assert_eq!(rt; answer, (*told, *out), "of {call:?}");
        }
    }

    /// All that the desk has.
    pub fn content(&self, rt: &impl Abort) -> Content {
        let mut content = Content {
            kept: Kept::of(rt, &self.bank),
            heads: [FREE; MOST],
            keys: [BlendNumber::from(7); MOST * 11],
            values: [7; MOST * 11],
        };
        assert!(rt; self.heads.len() <= MOST && self.keys.len() == self.values.len());
        for (copy, head) in content.heads.iter_mut().zip(&self.heads) {
            *copy = *head;
        }
        for (copy, key) in content.keys.iter_mut().zip(&self.keys) {
            *copy = *key;
        }
        for (copy, value) in content.values.iter_mut().zip(&self.values) {
            *copy = *value;
        }
        content
    }

    /// Asks for calls that are refused, and sees that nothing changed.
    pub fn refuses(&mut self, rt: &impl Abort, calls: &[Ask], refusal: Refusal) {
        let content = self.content(rt);
        for call in calls {
            let told = self.good(rt, *call);
            assert_eq!(rt; told, Err(refusal), "of {call:?}");
            assert_eq!(rt; self.content(rt), content, "after {call:?}");
        }
    }

    /// Puts keys into a place, none of which is there.
    pub fn fill(&mut self, rt: &impl Abort, place: usize, keys: &[u32]) {
        for key in keys {
            let told = self.good(rt, insert(place, *key));
            assert_eq!(rt; told, Ok(Answer::Inserted(None)), "of {key}");
        }
    }

    /// Looks keys up. Each comes with the comparisons wanted, and whether it is there.
    pub fn finds(&mut self, rt: &impl Abort, place: usize, wanted: &[(u32, bool, usize)]) {
        for (key, there, made) in wanted {
            let value = there.then_some(key.saturating_mul(10));
            let told = self.ask(lookup(place, *key));
            assert_eq!(rt; told, Ok(Answer::Found(value, *made)), "at {key}");
        }
    }
}
