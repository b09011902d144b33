//! A thousand calls of two callers, whose order and content a generator gives.

use crate::desk::{Ask, Desk, FREE, Told, cut, insert, lookup, next, next_back};
use calls::calls::{Answer, Call};
use calls::refusals::Refusal;
use node::head::Head;
use order::blend::BlendNumber;
use std::alloc::Global;
use std::process::Abort;
use std::test::Fail;
use supply::Supply;
use supply::bits::Bitmap;
use supply::links::Chain;
use supply::shares::Shares;

const NODES: usize = 11;

/// What the caller that is not served has in the tables: which nodes, and the tables as it left them.
#[derive(Drop)]
struct Resting {
    nodes: [bool; NODES],
    heads: [Head; NODES],
    keys: [BlendNumber; NODES * 11],
    values: [u32; NODES * 11],
}

impl Resting {
    /// The nodes of the caller that is served.
    fn of<S: Supply + Drop>(desk: &Desk<S>) -> Resting {
        let mut resting = Resting {
            nodes: [false; NODES],
            heads: [FREE; NODES],
            keys: [BlendNumber { number: 7 }; NODES * 11],
            values: [7; NODES * 11],
        };
        for node in 0..NODES {
            resting.nodes[node] = desk.bank.bank().supply().is_out(node as u16);
            if let Some(head) = desk.heads.get(node) {
                resting.heads[node] = *head;
            }
        }
        for cell in 0..NODES * 11 {
            if let (Some(key), Some(value)) = (desk.keys.get(cell), desk.values.get(cell)) {
                resting.keys[cell] = *key;
                resting.values[cell] = *value;
            }
        }
        resting
    }

    /// Sees that each of these nodes is as it was: its head with all edges, and all its keys and values.
    fn stands<S: Supply + Drop>(&self, rt: &impl Abort, desk: &Desk<S>) {
        for node in 0..NODES {
            if self.nodes[node] {
                assert_eq!(rt; desk.heads.get(node), self.heads.get(node), "node {node}");
                for cell in node * 11..node * 11 + 11 {
                    assert_eq!(rt; desk.keys.get(cell), self.keys.get(cell), "cell {cell}");
                    assert_eq!(rt; desk.values.get(cell), self.values.get(cell), "cell {cell}");
                }
            }
        }
    }
}

/// Numbers by a rule, the same in each run.
#[derive(Drop)]
struct Dice {
    state: u32,
}

impl Dice {
    /// A number below `sides`, or 0 where there is none.
    fn below(&mut self, sides: u32) -> u32 {
        self.state = self.state.wrapping_mul(1664525).wrapping_add(1013904223);
        (self.state >> 8) % sides.max(1)
    }

    /// Mostly insertions into four places, so that both limits are met.
    fn call(&mut self) -> Ask {
        let place = self.below(4) as usize;
        let key = self.below(400);
        match self.below(60) {
            0 | 1 => cut(place, self.below(4) as usize, key),
            2 => Call::Open { place },
            3 | 4 => next(place),
            5 | 6 => next_back(place),
            7 => Call::Close { place },
            8 => Call::Release { place },
            9 => lookup(place, key),
            _ => insert(place, key),
        }
    }
}

/// How many entries one caller put in and lost, and how often it was short of nodes.
#[derive(Clone, Copy)]
struct Tally {
    entered: usize,
    gone: usize,
    short: usize,
}

impl Tally {
    fn add(&mut self, told: Told) {
        match told {
            Ok(Answer::Inserted(None)) => self.entered = self.entered.saturating_add(1),
            Ok(Answer::Handed(Some(_))) => self.gone = self.gone.saturating_add(1),
            Ok(Answer::Dropped(entries)) => self.gone = self.gone.saturating_add(entries),
            Err(Refusal::Short { .. }) => self.short = self.short.saturating_add(1),
            _ => {}
        }
    }
}

/// A thousand calls, with a turn after one in five. After each the nodes of the other are as they were, both are in good form
/// at the end, and what was put in less what is gone is there, for each caller by itself.
fn thousand<S: Supply + Drop>(
    rt: &impl Abort,
    heap: Global,
    supply: S,
    state: u32,
) -> Result<(), Fail> {
    let mut desk = Desk::laid_out(heap, supply, 8, 4)?;
    let mut dice = Dice { state };
    let mut tallies = [Tally {
        entered: 0,
        gone: 0,
        short: 0,
    }; 2];
    let mut second = false;
    let mut resting = Resting::of(&desk);
    for _ in 0..1000u32 {
        let told = desk.ask(dice.call());
        tallies[second as usize].add(told);
        resting.stands(rt, &desk);
        if dice.below(5) == 0 {
            resting = Resting::of(&desk);
            second = !second;
            desk.turn(second as u16)?;
        }
    }
    desk.audited(rt)?;
    for caller in [0usize, 1] {
        desk.turn(caller as u16)?;
        let mut there = 0usize;
        for place in 0..16usize {
            if let Ok(Answer::Counted(entries)) = desk.ask(Call::Count { place }) {
                there = there.saturating_add(entries);
            }
        }
        let tally = tallies[caller];
        assert_eq!(rt; tally.entered, tally.gone.saturating_add(there));
        assert!(rt; there > 0 && tally.gone > 0 && tally.short > 0);
    }
    Ok(())
}

#[test]
fn both_callers_come_out_even(rt: HostRuntime) -> Result<(), Fail> {
    for state in [1u32, 2, 3] {
        thousand(&rt, rt.alloc(), Chain::new(11), state)?;
        thousand(&rt, rt.alloc(), Bitmap::new(11), state)?;
        thousand(&rt, rt.alloc(), Shares::new(Bitmap::new(11), 10, 1), state)?;
    }
    Ok(())
}
