//! Times the bank, for comparison with the original map and with std's. Given a number of rounds it prints a line for each order of keys and each
//! call, with the nanoseconds of the shortest round; without one it makes a round of each order and prints no times.
#![tactic(auto)]

mod rounds;

use rounds::{Order, Rounds, Times};
use std::alloc::Global;
use std::env;

/// The shortest times of so many rounds.
fn least_times(rt: &HostRuntime, heap: Global, order: Order, rounds: u16) -> anyhow::Result<Times> {
    let mut least = Times::MOST;
    for _ in 0..rounds {
        least = least.least(Rounds::new(heap, order)?.round(rt)?);
    }
    Ok(least)
}

fn print_times(rt: &HostRuntime, order: Order, times: Times) -> anyhow::Result<()> {
    println!(rt; "{order} insert {}", times.insert)?;
    println!(rt; "{order} lookup {}", times.lookup)?;
    println!(rt; "{order} cut {}", times.cut)?;
    println!(rt; "{order} walk {}", times.walk)?;
    println!(rt; "{order} release {}", times.release)?;
    Ok(())
}

fn main(rt: HostRuntime) -> anyhow::Result<()> {
    let heap = rt.alloc();
    let asked = match env::args(&rt)?.nth(1) {
        Some(word) => Some(word.parse::<u16>()?),
        None => None,
    };
    for order in [Order::Mixed, Order::Rising] {
        match asked {
            Some(rounds) => {
                print_times(&rt, order, least_times(&rt, heap, order, rounds)?)?;
            }
            None => {
                least_times(&rt, heap, order, 1)?;
                println!(rt; "{order} keys: one round made")?;
            }
        }
    }
    Ok(())
}
