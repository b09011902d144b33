//! A shift on paper: the batch books of a day, the card of the node supplies, and the day's batches looked up.
#![tactic(auto)]

mod batches;
mod before;
mod blending;
mod by_day;
mod card;
mod day;
mod lines;
mod tasting;
mod works;

use supply::bits::Bitmap;
use supply::links::Chain;

fn main(rt: HostRuntime) -> anyhow::Result<()> {
    before::print_spare_nodes(&rt)?;
    blending::print_shift(&rt, "chain", Chain::new(5))?;
    blending::print_shift_card(&rt, "bitmap", Bitmap::new(5))?;
    by_day::print_days(&rt)?;
    day::supplies(&rt)?;
    day::batches_by_stamp(&rt)?;
    day::doses_by_mark(&rt)?;
    day::last_batches_by_blend(&rt)?;
    tasting::print_two_callers(&rt)?;
    Ok(())
}
