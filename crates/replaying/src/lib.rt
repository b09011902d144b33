//! Performs a script of calls on a bank, of one caller or of two, and prints an answer a line: for comparison with the original map, and with a model of the books.
#![tactic(auto)]

mod asked;
pub mod decade;
mod desk;
mod path;
mod reply;
mod script;
mod shape;
mod shared_desk;
mod tables;

use asked::AskedDesk;
use std::env::Env;
use std::io::{BufRead, BufReader, Input};

/// Performs the lines of the program's input, on the bank that its arguments ask for: as many nodes as the first says, and for two
/// callers, by turns, where the limits of both follow. Ends with an error at a line that asks for nothing. All lines are read into one
/// buffer.
pub fn replay<R: Env + AllocGlobal + Input + Print>(rt: &R) -> anyhow::Result<()> {
    let mut desk = AskedDesk::asked(rt)?;
    let mut reader = BufReader::new(rt.alloc(), rt.reader())?;
    let mut text = String::new(rt.alloc());
    for _ in 0..u64::MAX {
        text.clear();
        if reader.read_line(&mut text)? == 0 {
            break;
        }
        match desk.perform(without_end(text.as_str()))? {
            Ok(reply) => println!(rt; "{reply}")?,
            Err(refusal) => println!(rt; "{refusal}")?,
        }
    }
    Ok(())
}

/// A line without what ends it: a line feed, or a carriage return and a line feed.
fn without_end(text: &str) -> &str {
    match text.strip_suffix('\n') {
        Some(line) => line.strip_suffix('\r').unwrap_or(line),
        None => text,
    }
}
