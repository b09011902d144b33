//! What is seen of a check from outside.

use spares::{Spare, spare_check};
use std::process::Abort;
use supply::Supply;

/// How many numbers the list has room for.
pub const ROOM: usize = 8;

/// What stands in the list before a check. No supply has it.
const NOTHING: u16 = 9999;

/// Size, allowance, how many are out, and whether each of the first numbers is.
fn seen<S: Supply>(supply: &S) -> (u16, u16, u16, [bool; 16]) {
    let mut out = [false; 16];
    for node in 0..16usize {
        out[node] = supply.is_out(node as u16);
    }
    (supply.size(), supply.allowance(), supply.out_count(), out)
}

/// Asks for so many numbers with a list of `room` places, at most `ROOM`. What is seen of the supply stays.
fn asked<S: Supply>(
    rt: &impl Abort,
    supply: &mut S,
    count: usize,
    room: usize,
) -> (Spare, [u16; ROOM]) {
    let before = seen(supply);
    let mut list = [NOTHING; ROOM];
    let room = room.min(ROOM);
    let spare = spare_check(supply, count, &mut list[..room]);
    assert!(rt; seen(supply) == before, "after {count}");
    (spare, list)
}

/// The list begins with so many numbers of the supply, all different, that are not out.
fn spare_ones<S: Supply>(rt: &impl Abort, supply: &S, list: &[u16], count: usize) {
    for (i, node) in list.iter().enumerate() {
        if i < count {
            assert!(rt; *node < supply.size() && !supply.is_out(*node), "{node}");
            assert_eq!(rt; list.iter().position(|other| other == node), Some(i));
        }
    }
}

/// Asks for any number, with lists of any length up to `ROOM`, of a supply that allows `most`.
pub fn answers<S: Supply>(rt: &impl Abort, supply: &mut S, most: usize) {
    assert_eq!(rt; supply.allowance() as usize, most);
    for room in 0..ROOM + 1 {
        for count in [0usize, 1, 2, 3, 4, 5, 6, 7, 8, 9, 4096, usize::MAX] {
            let (spare, list) = asked(rt, supply, count, room);
            if count > room {
                assert_eq!(rt; (spare, list), (Spare::NoList, [NOTHING; ROOM]));
            } else if count > most {
                assert_eq!(rt; spare, Spare::No, "{count} of {most}");
            } else {
                assert_eq!(rt; spare, Spare::Yes, "{count} of {most}");
                spare_ones(rt, supply, &list, count);
            }
        }
    }
}

/// Asks for as many numbers as `wanted` has, and gets just these.
pub fn offers<S: Supply>(rt: &impl Abort, supply: &mut S, wanted: &[u16]) {
    let (spare, list) = asked(rt, supply, wanted.len(), ROOM);
    assert_eq!(rt; spare, Spare::Yes);
    for (i, node) in wanted.iter().enumerate() {
        assert!(rt; i < ROOM);
        assert_eq!(rt; list[i], *node);
    }
}
