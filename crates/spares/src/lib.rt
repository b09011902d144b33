//! Whether nodes can be had from a supply.
#![tactic(auto)]

ghost use Rattle.std.specs.Prelude.{◌≡◌, ◌≤◌, length};
ghost use Rattle.supply.specs.Stocks.{Stock};
ghost use Rattle.spares.specs.Spares.{Took, TakesInto, Checked};

use supply::Supply;

/// What a spare check answers.
#[derive(Clone, Copy, PartialEq, Eq, Debug)]
pub enum Spare {
    /// So many can be had.
    Yes,
    /// Fewer can be had.
    No,
    /// The list has no room for so many, and nothing was taken.
    NoList,
}

/// Takes `count` numbers into the list, or as many as can be had, and says how many those were.
fn take_into<S: Supply>(supply: &mut S, count: usize, list: &mut [u16]) -> usize
    requires { count ≤ length list.old }
    ensures { TakesInto (S.stock supply.old) (S.stock supply.new) list.old list.new count result }
{
    for taken in 0..count {
        match supply.take() {
            Ok(node) => list[taken] = node,
            Err(_) => return taken,
        }
    }
    count
}

/// Gives the first `count` numbers of the list back, the last one first.
fn give_all_back<S: Supply>(supply: &mut S, count: usize, list: &[u16])
    requires { count ≤ length list.now }
    ensures { (s : Stock) → Took s (S.stock supply.old) list.now count → S.stock supply.new ≡ s }
{
    let mut left = count;
    while left > 0 {
        left -= 1;
        let _ = supply.give_back(list[left]);
    }
}

/// Takes `count` numbers into the list, as far as they can be had, and gives all of them back.
pub fn spare_check<S: Supply>(supply: &mut S, count: usize, list: &mut [u16]) -> Spare
    ensures { Checked supply.old supply.new (S.stock supply.old) (S.stock supply.new) count list.old list.new result }
{
    if list.len() < count {
        return Spare::NoList;
    }
    let taken = take_into(supply, count, list);
    give_all_back(supply, taken, list);
    if taken == count {
        Spare::Yes
    } else {
        Spare::No
    }
}
