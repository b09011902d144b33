//! A bank with its tables, and what its calls have to leave as it was.

ghost use Rattle.std.specs.Prelude.{◌≤◌};

use crate::dice::Dice;
use acts::cutting::cut_in;
use acts::inserting::insert_in;
use acts::looking::{least_in, lookup_in};
use acts::walking::{close_in, open_in, release_in, step_in};
use audit::audits::audit_place;
use audit::marks::Met;
use bank::bank::Bank;
use books::places::{PLACES, Place};
use calls::refusals::Refusal;
use node::head::{CAPACITY, Head};
use node::tables::Tables;
use order::blend::BlendNumber;
use supply::Supply;
use supply::links::Chain;

const MOST: u16 = 24;

const CELLS: usize = CAPACITY * MOST as usize;

/// The tables before anything is written to them.
const CLEAR_HEAD: Head = Head {
    parent: 771,
    place: 772,
    len: 773,
    edges: [774; 12],
};

const CLEAR_KEY: BlendNumber = BlendNumber { number: 775 };

const CLEAR_VALUE: u32 = 776;

/// What the bank keeps and its tables: places, which numbers are out, how many more may be taken, heads and cells.
#[derive(Clone, Copy, PartialEq, Eq)]
struct Content {
    places: [Option<Place>; PLACES],
    out: [bool; MOST as usize],
    allowance: u16,
    heads: [Head; MOST as usize],
    keys: [BlendNumber; CELLS],
    values: [u32; CELLS],
}

/// How often the calls of a bank kept what they have to keep, and how often they did not.
#[derive(Clone, Copy)]
pub struct Tally {
    /// In good form before and afterwards, and no breach was found.
    pub good: usize,
    /// In good form before, and not afterwards, or a breach was found.
    pub lost: usize,
    /// Refused, and something had changed.
    pub changed: usize,
}

impl Tally {
    pub fn new() -> Tally {
        Tally {
            good: 0,
            lost: 0,
            changed: 0,
        }
    }
}

/// The tables and the bank over them.
#[derive(Drop)]
pub struct Ground {
    nodes: u16,
    heads: [Head; MOST as usize],
    keys: [BlendNumber; CELLS],
    values: [u32; CELLS],
    supply: Chain,
    bank: Bank<Chain>,
    ghost some: { nodes ≤ 24 },
}

impl Ground {
    /// The most nodes in the tables.
    pub const MOST: u16 = MOST;

    /// A bank of so many nodes, at most `MOST`, laid out with bare places.
    pub fn new(nodes: u16) -> Ground {
        let nodes = if nodes <= MOST { nodes } else { MOST };
        let heads = [CLEAR_HEAD; MOST as usize];
        let keys = [CLEAR_KEY; CELLS];
        let values = [CLEAR_VALUE; CELLS];
        let mut bank = Bank::new(Chain::new(nodes));
        let count = nodes as usize;
        let cells = CAPACITY * count;
        let _ = bank.lay_out(&heads[..count], &keys[..cells], &values[..cells]);
        Ground {
            nodes,
            heads,
            keys,
            values,
            supply: Chain::new(nodes),
            bank,
        }
    }

    /// Fills the tables with anything.
    pub fn litter(&mut self, dice: &mut Dice) {
        for node in 0..self.nodes {
            self.heads[node as usize] = dice.head(self.nodes);
        }
        for cell in 0..CAPACITY * self.nodes as usize {
            self.keys[cell] = dice.key();
            self.values[cell] = dice.word();
        }
    }

    /// Puts entries into the first places.
    pub fn sow(&mut self, dice: &mut Dice) {
        for _ in 0..80 {
            let place = dice.below(3) as usize;
            let key = dice.key();
            let count = self.nodes as usize;
            let cells = CAPACITY * count;
            let heads = &mut self.heads[..];
            let keys = &mut self.keys[..];
            let values = &mut self.values[..];
            let _ = self.bank.insert(
                &mut heads[..count],
                &mut keys[..cells],
                &mut values[..cells],
                place,
                key,
                7,
            );
        }
    }

    /// Puts entries into the first places, and then writes anything into a few heads and keys.
    pub fn spoil(&mut self, dice: &mut Dice) {
        self.sow(dice);
        for _ in 0..1 + dice.below(4) {
            let node = dice.below(self.nodes);
            if node < self.nodes {
                let node = node as usize;
                self.heads[node] = dice.head(self.nodes);
                self.keys[CAPACITY * node] = dice.key();
            }
        }
    }

    /// Whether the bank is in good form.
    fn good(&self) -> bool {
        let count = self.nodes as usize;
        let cells = CAPACITY * count;
        let audited = self.bank.audit(
            &self.heads[..count],
            &self.keys[..cells],
            &self.values[..cells],
        );
        audited == Ok(true)
    }

    fn content(&self) -> Content {
        let supply = self.bank.supply();
        let mut content = Content {
            places: [None; PLACES],
            out: [false; MOST as usize],
            allowance: supply.allowance(),
            heads: self.heads,
            keys: self.keys,
            values: self.values,
        };
        for at in 0..PLACES {
            content.places[at] = self.bank.place(at);
        }
        for node in 0..MOST {
            content.out[node as usize] = supply.is_out(node);
        }
        content
    }

    /// Performs any call of the bank, and puts down whether it kept what it has to keep: good form, and, where it is refused, all. Of what
    /// is not in good form a breach or a refusal for want of nodes may leave anything.
    pub fn call(&mut self, dice: &mut Dice, tally: &mut Tally) {
        let call = dice.call();
        let before = self.content();
        let good = self.good();
        let count = self.nodes as usize;
        let cells = CAPACITY * count;
        let heads = &mut self.heads[..];
        let keys = &mut self.keys[..];
        let values = &mut self.values[..];
        let told = self.bank.perform(
            &mut heads[..count],
            &mut keys[..cells],
            &mut values[..cells],
            &call,
        );
        let breach = told == Err(Refusal::Breach);
        let keeps_all = match told {
            Ok(_) => false,
            Err(Refusal::Breach | Refusal::Short { .. }) => good,
            Err(
                Refusal::Tables
                | Refusal::Supply
                | Refusal::Place
                | Refusal::Kind
                | Refusal::Caller,
            ) => true,
        };
        if good && self.good() && !breach {
            tally.good = tally.good.saturating_add(1);
        } else if good {
            tally.lost = tally.lost.saturating_add(1);
        }
        if keeps_all && self.content() != before {
            tally.changed = tally.changed.saturating_add(1);
        }
    }

    /// Performs any call on what stands in a place, whatever that is, over a supply of its own.
    pub fn call_at_place(&mut self, dice: &mut Dice) {
        let here = dice.place(self.nodes);
        let walk = dice.walk(self.nodes);
        let key = dice.key();
        let count = self.nodes as usize;
        let cells = CAPACITY * count;
        if dice.once_in(3) {
            let _ = self.supply.take();
        }
        let Ground {
            heads,
            keys,
            values,
            supply,
            ..
        } = self;
        let heads = &mut heads[..count];
        let keys = &mut keys[..cells];
        let values = &mut values[..cells];
        match dice.below(9) {
            0 => {
                let _ = insert_in(heads, keys, values, supply, here, key, 8u32);
            }
            1 => {
                let _ = cut_in(heads, keys, values, supply, here, &key);
            }
            2 => {
                let _ = lookup_in(
                    &Tables {
                        heads,
                        keys,
                        values,
                    },
                    here,
                    &key,
                );
            }
            3 => {
                let _ = open_in(
                    &Tables {
                        heads,
                        keys,
                        values,
                    },
                    &*supply,
                    here,
                );
            }
            4 => {
                let _ = step_in(
                    &Tables {
                        heads,
                        keys,
                        values,
                    },
                    supply,
                    walk,
                    dice.side(),
                );
            }
            5 => {
                let _ = close_in(
                    &Tables {
                        heads,
                        keys,
                        values,
                    },
                    supply,
                    walk,
                );
            }
            6 => {
                let _ = least_in(
                    &Tables {
                        heads,
                        keys,
                        values,
                    },
                    here,
                    &key,
                );
            }
            7 => {
                let _ = release_in(
                    &Tables {
                        heads,
                        keys,
                        values,
                    },
                    supply,
                    here,
                );
            }
            _ => {
                let _ = audit_place(
                    &Tables {
                        heads,
                        keys,
                        values,
                    },
                    &mut Met::new(),
                    here,
                );
            }
        }
    }
}
