//! One round of calls on a book of 20,000 entries.

use bank::bank::Bank;
use node::head::{CAPACITY, Head};
use order::blend::BlendNumber;
use std::alloc::Global;
use std::fmt;
use std::time::{Duration, Instant};
use supply::links::Chain;

/// How many entries are put in.
const ENTRIES: u32 = 20_000;

/// How many cuts follow on each other, each of the first of the parts.
const CUTS: u32 = 15;

const NODES: u16 = 4096;

const FREE: Head = Head {
    parent: 0,
    place: 0,
    len: 0,
    edges: [0; 12],
};

/// The order in which keys are put in and looked up.
#[derive(Clone, Copy, PartialEq, Eq, Debug)]
pub enum Order {
    Mixed,
    Rising,
}

impl Order {
    /// The key that comes at `idx`; no key comes twice.
    fn key(self, idx: u32) -> u32 {
        match self {
            Order::Mixed => idx.wrapping_mul(2_654_435_761),
            Order::Rising => idx,
        }
    }

    /// A key that leaves `part` of `CUTS` and one more parts below it.
    fn cut_key(self, part: u32) -> u32 {
        let whole = match self {
            Order::Mixed => u32::MAX,
            Order::Rising => ENTRIES,
        };
        (whole / (CUTS + 1)).wrapping_mul(part)
    }
}

impl fmt::Display for Order {
    fn fmt<W: fmt::Write>(&self, f: &mut fmt::Formatter<W>) -> fmt::Result {
        match self {
            Order::Mixed => write!(f, "mixed"),
            Order::Rising => write!(f, "rising"),
        }
    }
}

/// Nanoseconds of the calls of a round.
#[derive(Clone, Copy, PartialEq, Eq, Debug)]
pub struct Times {
    pub insert: u64,
    pub lookup: u64,
    pub cut: u64,
    pub walk: u64,
    pub release: u64,
}

impl Times {
    pub const MOST: Times = Times {
        insert: u64::MAX,
        lookup: u64::MAX,
        cut: u64::MAX,
        walk: u64::MAX,
        release: u64::MAX,
    };

    /// The lesser of each.
    pub fn least(self, other: Times) -> Times {
        Times {
            insert: self.insert.min(other.insert),
            lookup: self.lookup.min(other.lookup),
            cut: self.cut.min(other.cut),
            walk: self.walk.min(other.walk),
            release: self.release.min(other.release),
        }
    }
}

/// The nanoseconds of a time, up to the most that 64 bits hold.
fn nanos(time: Duration) -> u64 {
    u64::try_from(time.as_nanos()).unwrap_or(u64::MAX)
}

/// A bank with its tables.
#[derive(Drop)]
pub struct Rounds {
    order: Order,
    heads: Vec<Head>,
    keys: Vec<BlendNumber>,
    values: Vec<u32>,
    bank: Bank<Chain>,
}

impl Rounds {
    pub fn new(heap: Global, order: Order) -> anyhow::Result<Rounds> {
        let cells = CAPACITY * NODES as usize;
        let heads = vec![in heap; FREE; NODES as usize]?;
        let keys = vec![in heap; BlendNumber::from(0); cells]?;
        let values = vec![in heap; 0; cells]?;
        let mut bank = Bank::new(Chain::new(NODES));
        bank.lay_out(heads.as_slice(), keys.as_slice(), values.as_slice())?;
        Ok(Rounds {
            order,
            heads,
            keys,
            values,
            bank,
        })
    }

    /// Puts all entries into the first place.
    fn insert_all(&mut self) -> anyhow::Result<()> {
        let Rounds {
            order,
            heads,
            keys,
            values,
            bank,
        } = self;
        let heads = heads.as_mut_slice();
        let keys = keys.as_mut_slice();
        let values = values.as_mut_slice();
        for idx in 0..ENTRIES {
            bank.insert(
                heads,
                keys,
                values,
                0,
                BlendNumber::from(order.key(idx)),
                idx,
            )?;
        }
        Ok(())
    }

    /// Looks all keys up, and sums what is found.
    fn lookup_all(&self) -> anyhow::Result<u64> {
        let mut sum = 0u64;
        for idx in 0..ENTRIES {
            let key = BlendNumber::from(self.order.key(idx));
            let (value, _) = self.bank.lookup(
                self.heads.as_slice(),
                self.keys.as_slice(),
                self.values.as_slice(),
                0,
                &key,
            )?;
            sum = sum.wrapping_add(value.unwrap_or(0) as u64);
        }
        Ok(sum)
    }

    /// Cuts the first place again and again, into each other place.
    fn cut_all(&mut self) -> anyhow::Result<()> {
        let Rounds {
            order,
            heads,
            keys,
            values,
            bank,
        } = self;
        let heads = heads.as_mut_slice();
        let keys = keys.as_mut_slice();
        let values = values.as_mut_slice();
        for part in 1..CUTS + 1 {
            let key = BlendNumber::from(order.cut_key(CUTS + 1 - part));
            bank.cut(heads, keys, values, 0, part as usize, &key)?;
        }
        Ok(())
    }

    /// Walks over all entries, and sums them.
    fn walk_all(&mut self) -> anyhow::Result<u64> {
        let Rounds {
            heads,
            keys,
            values,
            bank,
            ..
        } = self;
        let heads = heads.as_slice();
        let keys = keys.as_slice();
        let values = values.as_slice();
        bank.open(heads, keys, values, 0)?;
        let mut sum = 0u64;
        for _ in 0..ENTRIES {
            if let Some((_, value)) = bank.next(heads, keys, values, 0)? {
                sum = sum.wrapping_add(value as u64);
            }
        }
        bank.close(heads, keys, values, 0)?;
        Ok(sum)
    }

    fn release(&mut self, place: usize) -> anyhow::Result<usize> {
        let Rounds {
            heads,
            keys,
            values,
            bank,
            ..
        } = self;
        Ok(bank.release(heads.as_slice(), keys.as_slice(), values.as_slice(), place)?)
    }

    /// One round, with its times.
    pub fn round(&mut self, rt: &HostRuntime) -> anyhow::Result<Times> {
        let start = Instant::now(rt)?;
        self.insert_all()?;
        let insert = nanos(start.elapsed(rt)?);
        let start = Instant::now(rt)?;
        let found = self.lookup_all()?;
        let lookup = nanos(start.elapsed(rt)?);
        let start = Instant::now(rt)?;
        self.cut_all()?;
        let cut = nanos(start.elapsed(rt)?);
        for place in 0..16usize {
            self.release(place)?;
        }
        self.insert_all()?;
        let start = Instant::now(rt)?;
        let walked = self.walk_all()?;
        let walk = nanos(start.elapsed(rt)?);
        self.insert_all()?;
        let start = Instant::now(rt)?;
        self.release(0)?;
        let release = nanos(start.elapsed(rt)?);
        if found != walked {
            anyhow::bail!("the walk and the lookups differ");
        }
        Ok(Times {
            insert,
            lookup,
            cut,
            walk,
            release,
        })
    }
}
