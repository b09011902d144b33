//! Performs calls on tables, places and arguments filled at random. Each has to end. A call of a bank in good form has to leave it so and to find no breach, and a refused one has to change nothing.
#![tactic(auto)]

mod dice;
mod ground;
mod litter;

use dice::Dice;
use ground::{Ground, Tally};
use std::io;

/// How often the tables are filled anew.
const ROUNDS: usize = 400;

/// How many calls follow on each.
const CALLS: usize = 100;

/// Every fourth bank is left to its own calls, so it is in good form before and after each of them. To the others something else writes.
fn main(rt: HostRuntime) -> io::Result<()> {
    let mut dice = Dice::new();
    let mut alone = Tally::new();
    let mut beside = Tally::new();
    for round in 0..ROUNDS {
        let nodes = 1 + dice.below(Ground::MOST);
        let mut ground = Ground::new(nodes);
        match round % 4 {
            0 => ground.litter(&mut dice),
            1 => ground.spoil(&mut dice),
            _ => ground.sow(&mut dice),
        }
        for call in 0..CALLS {
            if round % 4 == 3 {
                ground.call(&mut dice, &mut alone);
            } else if call % 2 == 0 {
                ground.call(&mut dice, &mut beside);
            } else {
                ground.call_at_place(&mut dice);
            }
        }
    }
    let lost = alone.lost.saturating_add(beside.lost);
    let changed = alone.changed.saturating_add(beside.changed);
    println!(rt; "calls performed: {}", ROUNDS * CALLS)?;
    println!(rt;
        "in good form before and after, of banks left alone: {}",
        alone.good
    )?;
    println!(rt; "in good form before, and not after: {lost}")?;
    println!(rt; "refused, with something changed: {changed}")?;
    Ok(())
}
