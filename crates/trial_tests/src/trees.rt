//! The worked trees of the rules, over lists of seven numbers. Comparisons tell the shape: a key that stops a search in a node was compared
//! with those before it and itself.

use crate::desk::{
    Desk, close, count, counted, cut, dropped, found, handed, insert, inserted, lookup, next,
    next_back, none_left, not_found, open, opened, parted, release, short,
};
use crate::orders::in_order;
use calls::calls::Answer;
use std::process::Abort;
use std::test::Fail;
use supply::Supply;

const T: [u32; 12] = [1, 2, 3, 4, 5, 6, 7, 8, 9, 10, 11, 12];

const EVEN: [u32; 11] = [2, 4, 6, 8, 10, 12, 14, 16, 18, 20, 22];

/// Upward, downward, from both halves by turns, from both ends by turns.
const LISTS: [[u16; 7]; 4] = [
    [0, 1, 2, 3, 4, 5, 6],
    [6, 5, 4, 3, 2, 1, 0],
    [3, 0, 4, 1, 5, 2, 6],
    [0, 6, 1, 5, 2, 4, 3],
];

/// Root 7, leaves 1 to 6 and 8 to 12.
const SHAPED_AS_T: [(u32, bool, usize); 6] = [
    (1, true, 2),
    (6, true, 7),
    (7, true, 1),
    (8, true, 2),
    (12, true, 6),
    (13, false, 6),
];

/// 1 to 11 in one leaf; 12 makes a root 7. Leaves of eleven even keys, split by 13 and by 15.
fn insertions<S: Supply + Drop>(rt: &impl Abort, desk: &mut Desk<S>) {
    desk.fill(rt, 0, &T[..11]);
    desk.finds(rt, 0, &[(1, true, 1), (11, true, 11), (12, false, 11)]);
    desk.plays(rt, &[(insert(0, 12), inserted(), 3)]);
    desk.finds(rt, 0, &SHAPED_AS_T);
    desk.plays(
        rt,
        &[
            (insert(0, 7), Ok(Answer::Inserted(Some(70))), 3),
            (count(0), counted(12), 3),
            (release(0), dropped(12), 0),
        ],
    );
    for key in [13u32, 15] {
        desk.fill(rt, 0, &EVEN);
        desk.plays(rt, &[(insert(0, key), inserted(), 3)]);
        desk.finds(rt, 0, &[(14, true, 1), (12, true, 7)]);
        let (thirteen, twenty_two) = if key == 13 {
            (found(13, 8), found(22, 5))
        } else {
            (not_found(7), found(22, 6))
        };
        desk.plays(
            rt,
            &[
                (lookup(0, 13), thirteen, 3),
                (lookup(0, 22), twenty_two, 3),
                (release(0), dropped(12), 0),
            ],
        );
    }
}

/// T cut at 7, at 13, at 1, and declined with one node left.
fn cuts<S: Supply + Drop>(rt: &impl Abort, desk: &mut Desk<S>) {
    desk.fill(rt, 0, &T);
    desk.plays(rt, &[(cut(0, 1, 7), parted(6, 6, 7), 2)]);
    desk.finds(rt, 0, &[(1, true, 1), (6, true, 6), (7, false, 6)]);
    desk.finds(rt, 1, &[(6, false, 1), (7, true, 1), (12, true, 6)]);
    desk.plays(
        rt,
        &[(release(0), dropped(6), 1), (release(1), dropped(6), 0)],
    );
    desk.fill(rt, 0, &T);
    desk.plays(rt, &[(cut(0, 1, 13), parted(12, 0, 6), 4)]);
    desk.finds(
        rt,
        0,
        &[(1, true, 2), (5, true, 6), (6, true, 1), (12, true, 7)],
    );
    desk.finds(rt, 1, &[(13, false, 0)]);
    desk.plays(
        rt,
        &[(release(1), dropped(0), 3), (release(0), dropped(12), 0)],
    );
    desk.fill(rt, 0, &T);
    desk.plays(rt, &[(cut(0, 1, 1), parted(0, 12, 2), 4)]);
    desk.finds(rt, 1, &SHAPED_AS_T);
    desk.plays(
        rt,
        &[
            (release(0), dropped(0), 3),
            (insert(2, 1), inserted(), 4),
            (insert(3, 1), inserted(), 5),
            (insert(4, 1), inserted(), 6),
            (cut(1, 0, 7), short(2, 1), 6),
        ],
    );
    desk.finds(rt, 1, &SHAPED_AS_T);
    desk.plays(
        rt,
        &[
            (release(1), dropped(12), 3),
            (release(2), dropped(1), 2),
            (release(3), dropped(1), 1),
            (release(4), dropped(1), 0),
        ],
    );
}

/// Children at the border of 11 and 0 entries become 5 and 6; 5 and 6 stay; 5 and 5 are merged.
fn borders<S: Supply + Drop>(rt: &impl Abort, desk: &mut Desk<S>) {
    let five_and_six = [(14, true, 6), (15, true, 1), (20, true, 2), (70, true, 7)];
    desk.fill(rt, 0, &[10, 20, 30, 40, 50, 60, 70, 80, 90, 100, 110, 120]);
    desk.fill(rt, 0, &[11, 12, 13, 14, 15]);
    desk.plays(rt, &[(cut(0, 1, 80), parted(12, 5, 2), 4)]);
    desk.finds(rt, 0, &five_and_six);
    desk.plays(
        rt,
        &[
            (cut(0, 2, 75), parted(12, 0, 7), 5),
            (release(2), dropped(0), 4),
        ],
    );
    desk.finds(rt, 0, &five_and_six);
    desk.plays(rt, &[(cut(0, 2, 70), parted(11, 1, 7), 3)]);
    desk.finds(rt, 0, &[(10, true, 1), (60, true, 11)]);
    desk.plays(
        rt,
        &[
            (release(0), dropped(11), 2),
            (release(1), dropped(5), 1),
            (release(2), dropped(1), 0),
        ],
    );
}

/// T walked 7 from the front, which gives back one node, and closed, which gives back two; then T walked from both ends.
fn walks<S: Supply + Drop>(rt: &impl Abort, desk: &mut Desk<S>) {
    desk.fill(rt, 0, &T);
    desk.plays(rt, &[(open(0), opened(), 3)]);
    for key in &T[..6] {
        desk.plays(rt, &[(next(0), handed(*key), 3)]);
    }
    desk.plays(
        rt,
        &[
            (next(0), handed(7), 2),
            (count(0), counted(5), 2),
            (close(0), dropped(5), 0),
        ],
    );
    desk.fill(rt, 0, &T);
    desk.plays(rt, &[(open(0), opened(), 3)]);
    for key in 1..6u32 {
        desk.plays(
            rt,
            &[
                (next_back(0), handed(13 - key), 3),
                (next(0), handed(key), 3),
            ],
        );
    }
    desk.plays(
        rt,
        &[
            (next_back(0), handed(7), 2),
            (next(0), handed(6), 2),
            (next(0), none_left(), 2),
            (close(0), dropped(0), 0),
        ],
    );
}

#[test]
fn worked_trees_over_lists(rt: HostRuntime) -> Result<(), Fail> {
    for list in LISTS {
        let mut desk = Desk::new(rt.alloc(), in_order(&list)?)?;
        insertions(&rt, &mut desk);
        cuts(&rt, &mut desk);
        borders(&rt, &mut desk);
        walks(&rt, &mut desk);
        assert_eq!(rt; desk.bank.supply().allowance(), 7);
    }
    Ok(())
}
