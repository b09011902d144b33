//! The desk that the arguments of a program ask for.

use crate::desk::Desk;
use crate::reply::Reply;
use crate::script::SharedLine;
use crate::shared_desk::SharedDesk;
use anyhow::Context;
use calls::refusals::Refusal;
use std::alloc::Global;
use std::env::{self, Env};
use supply::MOST;

/// A bank with tables of its own.
#[derive(Drop)]
pub enum AskedDesk {
    /// For one caller.
    Single(Desk),
    /// For one caller who may take no node.
    WithoutNodes(SharedDesk),
    /// For two callers.
    Shared(SharedDesk),
}

impl AskedDesk {
    /// A bank of as many nodes as the first argument says, or 64: for two callers, with the limits that the second and the third say, where they
    /// are there, and else for one. No bank has 0 nodes or more than 4096: where so many are asked for, one caller has none at all.
    pub fn asked<R: Env + AllocGlobal>(rt: &R) -> anyhow::Result<AskedDesk> {
        let heap = rt.alloc();
        let mut words = env::args(rt)?.skip(1);
        let size = match words.next() {
            Some(word) => word.parse::<u16>()?,
            None => 64,
        };
        let Some(first) = words.next() else {
            return if size == 0 || size > MOST {
                Ok(AskedDesk::WithoutNodes(SharedDesk::new(heap, 1, 0, 0)?))
            } else {
                Ok(AskedDesk::Single(Desk::new(heap, size)?))
            };
        };
        let second = words
            .next()
            .context("the limit of the second caller is missing")?;
        let desk = SharedDesk::new(heap, size, first.parse::<u16>()?, second.parse::<u16>()?)?;
        Ok(AskedDesk::Shared(desk))
    }

    /// Does what a line asks for, or says why it was refused: an error where it asks for nothing.
    pub fn perform(&mut self, text: &str) -> anyhow::Result<Result<Reply<'_>, Refusal>> {
        match self {
            AskedDesk::Single(desk) => Ok(desk.perform(&text.parse()?)),
            AskedDesk::WithoutNodes(desk) => Ok(desk.perform(&SharedLine::Served(text.parse()?))),
            AskedDesk::Shared(desk) => Ok(desk.perform(&text.parse()?)),
        }
    }
}
