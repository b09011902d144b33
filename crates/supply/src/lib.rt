//! Node numbers, handed out and taken back.
#![tactic(auto)]

ghost use Rattle.std.specs.Prelude.{◌≡◌};
ghost use Rattle.supply.specs.Stocks.{Stock, size_of, is_out, outs_of, kept_size, Sound, Taken, GivenBack, Spared, TakenTwo, Drained};

pub mod bits;
pub mod callers;
pub mod faults;
pub mod links;
pub mod shares;

pub use faults::Fault;

/// The most numbers that a supply can have.
pub const MOST: u16 = 4096;

/// The size of a new supply: 0 where more than `MOST` is asked for.
fn kept_size(size: u16) -> u16
    ensures { result ≡ kept_size size }
{
    if size <= MOST { size } else { 0 }
}

/// A stock of numbers below a size. Its meaning, `stock`, has one mark for each number, `true` where the number is out,
/// and the allowance: how many more may be taken.
pub trait Supply {
    ghost stock: { Self → Stock };

    /// A number that was not out. Refuses exactly where the allowance is 0.
    fn take(&mut self) -> Result<u16, Fault>
        ensures taken { Taken (stock self.old) (stock self.new) result };

    /// Takes `node` back. Refuses exactly where it is not out.
    fn give_back(&mut self, node: u16) -> Result<(), Fault>
        ensures given { GivenBack (stock self.old) (stock self.new) node result };

    /// How many numbers there are.
    fn size(&self) -> u16
        ensures { result ≡ size_of (stock self.now) };

    /// How many more may be taken.
    fn allowance(&self) -> u16
        ensures { result ≡ (stock self.now).allowance };

    /// Whether `node` is out.
    fn is_out(&self, node: u16) -> bool
        ensures { result ≡ is_out (stock self.now) node };

    /// How many are out.
    fn out_count(&self) -> u16
        ensures { result ≡ outs_of (stock self.now) };

    ghost sound: { (s : Self) → Sound (stock s) };
}

/// Refuses exactly where the allowance is below `needed`.
pub fn spare<S: Supply>(supply: &S, needed: u16) -> Result<(), Fault>
    ensures { Spared (S.stock supply.now) needed result }
{
    let allowance = supply.allowance();
    if allowance < needed {
        return Err(Fault::Short { needed, allowance });
    }
    Ok(())
}

/// Two numbers, or none where fewer than two may be taken.
pub fn take_two<S: Supply>(supply: &mut S) -> Result<(u16, u16), Fault>
    ensures { TakenTwo (S.stock supply.old) (S.stock supply.new) result }
{
    spare(supply, 2)?;
    Ok((supply.take()?, supply.take()?))
}

/// Takes all that may be taken, and says how many those were.
pub fn drain<S: Supply>(supply: &mut S) -> u16
    ensures { Drained (S.stock supply.old) (S.stock supply.new) result }
{
    let count = supply.allowance();
    while let Ok(_) = supply.take() {}
    count
}
