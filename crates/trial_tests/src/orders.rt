//! Lists that place nodes where chance hardly does.

use std::array;
use std::test::Fail;
use trial::Trial;

/// How many nodes the longer lists have.
pub const NODES: usize = 16;

/// A supply that gives numbers in the order of a list.
pub fn in_order(list: &[u16]) -> Result<Trial, Fail> {
    let mut supply = Trial::new();
    supply.write(list)?;
    Ok(supply)
}

/// From the highest number down.
pub fn downward() -> [u16; NODES] {
    array::from_fn(|i| NODES as u16 - 1 - i as u16)
}

/// By turns from the lower and from the upper half.
pub fn interleaved() -> [u16; NODES] {
    array::from_fn(|i| (i / 2 + (i % 2) * (NODES / 2)) as u16)
}

/// By turns from both ends, so that the middle comes last.
pub fn from_both_ends() -> [u16; NODES] {
    array::from_fn(|i| {
        if i % 2 == 0 {
            (i / 2) as u16
        } else {
            (NODES - 1 - i / 2) as u16
        }
    })
}

/// Seven numbers on, and around again at the end.
pub fn by_sevens() -> [u16; NODES] {
    array::from_fn(|i| (i * 7 % NODES) as u16)
}
