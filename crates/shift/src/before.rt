//! Before the shift: whether as many nodes as are wanted can be had.

ghost use Rattle.std.specs.Prelude.{◌≡◌, replicate};
ghost use Rattle.spares.specs.Spares.{Checked};

use crate::card::{Errand, Tally, run};
use spares::{Spare, spare_check};
use std::{fmt, io};
use supply::Supply;
use supply::bits::Bitmap;
use supply::callers::Caller;
use supply::links::Chain;
use supply::shares::Shares;
use trial::Trial;

/// How many numbers the blender's list has room for.
const ROOM: usize = 6;

/// What a check for so many nodes answers, and the list then.
#[derive(Clone, Copy, PartialEq, Eq, Debug)]
struct Offer {
    wanted: usize,
    spare: Spare,
    list: [u16; ROOM],
}

impl Offer {
    /// Asks a supply whether so many nodes can be had, with an empty list.
    fn of<S: Supply>(supply: &mut S, wanted: usize) -> Offer
        ensures wanted { result.wanted ≡ wanted }
        ensures checked { Checked supply.old supply.new (S.stock supply.old) (S.stock supply.new) wanted (replicate 6 0) result.list result.spare }
    {
        let mut list = [0; ROOM];
        let spare = spare_check(supply, wanted, &mut list);
        Offer {
            wanted,
            spare,
            list,
        }
    }
}

/// Prints what the supply answers to each number of nodes, and its counts before and after.
fn print_offers<S: Supply>(
    rt: &impl Print,
    kind: &str,
    supply: &mut S,
    wanted: [usize; 3],
) -> io::Result<()> {
    println!(rt; "  {kind}: {}", Tally::of(supply))?;
    for count in wanted {
        println!(rt; "    {}", Offer::of(supply, count))?;
    }
    println!(rt; "    afterwards {}", Tally::of(supply))
}

/// Runs errands on a supply, whatever comes of them.
fn prepare<S: Supply>(supply: &mut S, errands: &[Errand]) {
    for errand in errands {
        let _ = run(supply, *errand);
    }
}

/// Asks a chain, a bitmap, a supply of two callers and one for trials, each of six numbers of which one or two are out.
pub fn print_spare_nodes(rt: &impl Print) -> anyhow::Result<()> {
    let early = [
        Errand::TakeTwo,
        Errand::Take,
        Errand::GiveBack(0),
        Errand::GiveBack(2),
    ];
    println!(rt; "Spare nodes before the shift")?;
    let mut chain = Chain::new(6);
    prepare(&mut chain, &early);
    print_offers(rt, "chain", &mut chain, [5, 6, 7])?;
    let mut bitmap = Bitmap::new(6);
    prepare(&mut bitmap, &early);
    print_offers(rt, "bitmap", &mut bitmap, [5, 6, 7])?;
    let mut shares = Shares::new(Chain::new(6), 4, 2);
    prepare(&mut shares, &early);
    print_offers(rt, "limit 4 of a chain", &mut shares, [3, 4, 7])?;
    shares.turn(Caller::Second);
    print_offers(rt, "limit 2 of the same", &mut shares, [2, 3, 7])?;
    let mut trial = Trial::new();
    trial.write(&[5, 0, 3, 1, 4, 2])?;
    prepare(&mut trial, &early);
    print_offers(rt, "list 5 0 3 1 4 2", &mut trial, [4, 5, 7])?;
    Ok(())
}

impl fmt::Display for Offer {
    fn fmt<W: fmt::Write>(&self, f: &mut fmt::Formatter<W>) -> fmt::Result {
        write!(f, "{} wanted: ", self.wanted)?;
        match self.spare {
            Spare::No => write!(f, "no"),
            Spare::NoList => write!(f, "no list"),
            Spare::Yes => {
                write!(f, "yes,")?;
                for node in self.list.iter().take(self.wanted) {
                    write!(f, " {node}")?;
                }
                Ok(())
            }
        }
    }
}
