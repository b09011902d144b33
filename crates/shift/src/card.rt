//! The card of a node supply: what is asked of it, what it hands over, and its counts.

ghost use Rattle.std.specs.Prelude.{◌≡◌};
ghost use Rattle.shift.specs.Errands.{Ran, tally_of};

use std::{fmt, io};
use supply::{Fault, Supply, take_two};

/// What is asked of a supply.
#[derive(Clone, Copy, PartialEq, Eq, Debug)]
pub enum Errand {
    Take,
    TakeTwo,
    GiveBack(u16),
}

/// What a supply hands over.
#[derive(Clone, Copy, PartialEq, Eq, Debug)]
pub enum Handed {
    Nothing,
    One(u16),
    Two(u16, u16),
}

/// The counts of a supply. `free` is how many more may be taken.
#[derive(Clone, Copy, PartialEq, Eq, Debug)]
pub struct Tally {
    pub size: u16,
    pub free: u16,
    pub out: u16,
}

impl Tally {
    /// The counts of `supply` as they are.
    pub fn of<S: Supply>(supply: &S) -> Tally
        ensures { result ≡ tally_of (S.stock supply.now) }
    {
        Tally {
            size: supply.size(),
            free: supply.allowance(),
            out: supply.out_count(),
        }
    }
}

/// Carries out one errand, or passes on the fault of the supply, which is then as it was.
pub fn run<S: Supply>(supply: &mut S, errand: Errand) -> Result<Handed, Fault>
    ensures { Ran errand (S.stock supply.old) (S.stock supply.new) result }
{
    match errand {
        Errand::Take => Ok(Handed::One(supply.take()?)),
        Errand::TakeTwo => {
            let (first, second) = take_two(supply)?;
            Ok(Handed::Two(first, second))
        }
        Errand::GiveBack(node) => {
            supply.give_back(node)?;
            Ok(Handed::Nothing)
        }
    }
}

/// Prints the counts of a supply that was made for `asked` numbers.
pub fn print_laid_in<S: Supply>(
    rt: &impl Print,
    kind: &str,
    asked: u16,
    supply: &S,
) -> io::Result<()> {
    let tally = Tally::of(supply);
    println!(rt; "  {kind} of {asked}: size {}, {tally}", tally.size)
}

/// Prints the counts of a supply, as the card of a shift has them.
pub fn print_nodes<S: Supply>(rt: &impl Print, supply: &S) -> io::Result<()> {
    let tally = Tally::of(supply);
    println!(rt; "  nodes: size {}, {tally}", tally.size)
}

/// Runs the errands in turn, and prints what came of each and the counts after it.
pub fn print_errands<S: Supply>(
    rt: &impl Print,
    kind: &str,
    supply: &mut S,
    errands: &[Errand],
) -> io::Result<()> {
    println!(rt; "The morning, from a {kind} of {}", supply.size())?;
    for errand in errands {
        let came = run(supply, *errand);
        let tally = Tally::of(supply);
        match came {
            Ok(handed) => println!(rt; "  {errand}: {handed}; {tally}")?,
            Err(fault) => println!(rt; "  {errand}: refused, {fault}; {tally}")?,
        }
    }
    Ok(())
}

impl fmt::Display for Errand {
    fn fmt<W: fmt::Write>(&self, f: &mut fmt::Formatter<W>) -> fmt::Result {
        match self {
            Errand::Take => write!(f, "take"),
            Errand::TakeTwo => write!(f, "take two"),
            Errand::GiveBack(node) => write!(f, "give back {node}"),
        }
    }
}

impl fmt::Display for Handed {
    fn fmt<W: fmt::Write>(&self, f: &mut fmt::Formatter<W>) -> fmt::Result {
        match self {
            Handed::Nothing => write!(f, "done"),
            Handed::One(node) => write!(f, "{node}"),
            Handed::Two(first, second) => write!(f, "{first} and {second}"),
        }
    }
}

impl fmt::Display for Tally {
    fn fmt<W: fmt::Write>(&self, f: &mut fmt::Formatter<W>) -> fmt::Result {
        write!(f, "{} free, {} out", self.free, self.out)
    }
}
