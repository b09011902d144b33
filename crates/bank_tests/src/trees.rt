//! The worked trees of the rules. Comparisons tell the shape: a key that stops a search in a node was compared with those before it and itself.

use crate::desk::{
    Desk, close, count, counted, cut, dropped, handed, insert, lookup, next, next_back, none_left,
    open, parted, release,
};
use calls::calls::Answer;
use calls::refusals::Refusal;
use std::process::Abort;
use std::test::Fail;
use supply::Supply;
use supply::bits::Bitmap;
use supply::links::Chain;

const T: [u32; 12] = [1, 2, 3, 4, 5, 6, 7, 8, 9, 10, 11, 12];

/// Root 7, leaves 1 to 6 and 8 to 12.
const SHAPED_AS_T: [(u32, bool, usize); 6] = [
    (1, true, 2),
    (6, true, 7),
    (7, true, 1),
    (8, true, 2),
    (12, true, 6),
    (13, false, 6),
];

/// Eleven keys make one leaf; the twelfth makes a root 7 over 1 to 6 and 8 to 12, and takes two nodes.
fn insertions<S: Supply + Drop>(rt: &impl Abort, desk: &mut Desk<S>) {
    desk.fill(rt, 0, &T[..11]);
    desk.finds(rt, 0, &[(1, true, 1), (11, true, 11), (12, false, 11)]);
    desk.plays(
        rt,
        &[
            (count(0), counted(11), 1),
            (insert(0, 12), Ok(Answer::Inserted(None)), 3),
        ],
    );
    desk.finds(rt, 0, &SHAPED_AS_T);
    desk.plays(
        rt,
        &[
            (insert(0, 7), Ok(Answer::Inserted(Some(70))), 3),
            (count(0), counted(12), 3),
            (release(0), dropped(12), 0),
        ],
    );
}

/// A leaf 2, 4, .. 22: 13 goes left of the split, 15 right of it.
fn splits<S: Supply + Drop>(rt: &impl Abort, desk: &mut Desk<S>) {
    for place in [0usize, 1] {
        desk.fill(rt, place, &[2, 4, 6, 8, 10, 12, 14, 16, 18, 20, 22]);
    }
    desk.fill(rt, 0, &[13]);
    desk.fill(rt, 1, &[15]);
    desk.finds(
        rt,
        0,
        &[
            (2, true, 2),
            (12, true, 7),
            (13, true, 8),
            (14, true, 1),
            (15, false, 2),
            (16, true, 2),
            (22, true, 5),
        ],
    );
    desk.finds(
        rt,
        1,
        &[
            (2, true, 2),
            (12, true, 7),
            (13, false, 7),
            (14, true, 1),
            (15, true, 2),
            (16, true, 3),
            (22, true, 6),
        ],
    );
    desk.plays(
        rt,
        &[(release(1), dropped(12), 3), (release(0), dropped(12), 0)],
    );
}

/// T cut at 7, at 13, at 1, and at 12, where the children at the border are merged.
fn cuts<S: Supply + Drop>(rt: &impl Abort, desk: &mut Desk<S>) {
    desk.fill(rt, 0, &T);
    desk.plays(rt, &[(cut(0, 1, 7), parted(6, 6, 7), 2)]);
    desk.finds(rt, 0, &[(1, true, 1), (6, true, 6), (7, false, 6)]);
    desk.finds(rt, 1, &[(6, false, 1), (7, true, 1), (12, true, 6)]);
    desk.plays(
        rt,
        &[(release(0), dropped(6), 1), (release(1), dropped(6), 0)],
    );

    desk.fill(rt, 0, &T);
    desk.plays(rt, &[(cut(0, 1, 13), parted(12, 0, 6), 4)]);
    desk.finds(
        rt,
        0,
        &[
            (1, true, 2),
            (5, true, 6),
            (6, true, 1),
            (7, true, 2),
            (12, true, 7),
        ],
    );
    desk.finds(rt, 1, &[(13, false, 0)]);
    desk.plays(
        rt,
        &[(release(1), dropped(0), 3), (release(0), dropped(12), 0)],
    );

    desk.fill(rt, 0, &T);
    desk.plays(rt, &[(cut(0, 1, 1), parted(0, 12, 2), 4)]);
    desk.finds(rt, 0, &[(1, false, 0)]);
    desk.finds(rt, 1, &SHAPED_AS_T);
    desk.plays(
        rt,
        &[
            (cut(0, 2, 1), parted(0, 0, 0), 4),
            (release(0), dropped(0), 3),
            (release(1), dropped(12), 0),
        ],
    );

    desk.fill(rt, 0, &T);
    desk.plays(rt, &[(cut(0, 1, 12), parted(11, 1, 6), 2)]);
    desk.finds(rt, 0, &[(1, true, 1), (11, true, 11)]);
    desk.plays(
        rt,
        &[(release(0), dropped(11), 1), (release(1), dropped(1), 0)],
    );
}

/// Children at the border of 11 and 0 entries do not fit in one node, and become 5 and 6; 5 and 6 stay; 5 and 5 are merged.
fn borders<S: Supply + Drop>(rt: &impl Abort, desk: &mut Desk<S>) {
    let five_and_six = [(14, true, 6), (15, true, 1), (20, true, 2), (70, true, 7)];
    desk.fill(rt, 0, &[10, 20, 30, 40, 50, 60, 70, 80, 90, 100, 110, 120]);
    desk.fill(rt, 0, &[11, 12, 13, 14, 15]);
    desk.finds(rt, 0, &[(60, true, 12), (70, true, 1), (80, true, 2)]);
    desk.plays(rt, &[(cut(0, 1, 80), parted(12, 5, 2), 4)]);
    desk.finds(rt, 0, &five_and_six);
    desk.plays(
        rt,
        &[
            (cut(0, 2, 75), parted(12, 0, 7), 5),
            (release(2), dropped(0), 4),
        ],
    );
    desk.finds(rt, 0, &five_and_six);
    desk.plays(rt, &[(cut(0, 2, 70), parted(11, 1, 7), 3)]);
    desk.finds(rt, 0, &[(10, true, 1), (60, true, 11)]);
    desk.plays(
        rt,
        &[
            (release(0), dropped(11), 2),
            (release(1), dropped(5), 1),
            (release(2), dropped(1), 0),
        ],
    );
}

/// T walked 7 from the front, then closed: the steps give back one node, closing two. Then T walked from both ends.
fn walks<S: Supply + Drop>(rt: &impl Abort, desk: &mut Desk<S>) {
    desk.fill(rt, 0, &T);
    desk.plays(
        rt,
        &[
            (open(0), Ok(Answer::Opened), 3),
            (next(0), handed(1), 3),
            (next(0), handed(2), 3),
            (next(0), handed(3), 3),
            (next(0), handed(4), 3),
            (next(0), handed(5), 3),
            (next(0), handed(6), 3),
            (next(0), handed(7), 2),
            (count(0), counted(5), 2),
            (close(0), dropped(5), 0),
            (count(0), counted(0), 0),
        ],
    );
    desk.fill(rt, 0, &T);
    desk.plays(rt, &[(open(0), Ok(Answer::Opened), 3)]);
    for key in 1..6u32 {
        desk.plays(
            rt,
            &[
                (next_back(0), handed(13 - key), 3),
                (next(0), handed(key), 3),
            ],
        );
    }
    desk.plays(
        rt,
        &[
            (next_back(0), handed(7), 2),
            (next(0), handed(6), 2),
            (next(0), none_left(), 2),
            (next_back(0), none_left(), 2),
            (close(0), dropped(0), 0),
            (lookup(0, 7), Ok(Answer::Found(None, 0)), 0),
        ],
    );
}

/// Each worked tree, over a desk of seven nodes without an entry.
fn worked<S: Supply + Drop>(rt: &impl Abort, desk: &mut Desk<S>) {
    insertions(rt, desk);
    splits(rt, desk);
    cuts(rt, desk);
    borders(rt, desk);
    walks(rt, desk);
}

#[test]
fn worked_trees_over_a_chain(rt: HostRuntime) -> Result<(), Fail> {
    for methods in [true, false] {
        let mut desk = Desk::new(rt.alloc(), Chain::new(7), methods)?;
        worked(&rt, &mut desk);
    }
    Ok(())
}

#[test]
fn worked_trees_over_a_bitmap(rt: HostRuntime) -> Result<(), Fail> {
    for methods in [true, false] {
        let mut desk = Desk::new(rt.alloc(), Bitmap::new(7), methods)?;
        worked(&rt, &mut desk);
    }
    Ok(())
}

#[test]
fn too_few_nodes_are_said_beforehand(rt: HostRuntime) -> Result<(), Fail> {
    for methods in [true, false] {
        let mut one = Desk::new(rt.alloc(), Chain::new(1), methods)?;
        one.fill(&rt, 0, &T[..11]);
        one.refuses(
            &rt,
            &[insert(0, 12)],
            Refusal::Short {
                needed: 2,
                allowance: 0,
            },
        );
        one.refuses(
            &rt,
            &[insert(1, 1), cut(0, 1, 5)],
            Refusal::Short {
                needed: 1,
                allowance: 0,
            },
        );
        one.plays(&rt, &[(insert(0, 11), Ok(Answer::Inserted(Some(110))), 1)]);
        let mut two = Desk::new(rt.alloc(), Bitmap::new(2), methods)?;
        two.fill(&rt, 0, &T[..11]);
        two.refuses(
            &rt,
            &[insert(0, 12)],
            Refusal::Short {
                needed: 2,
                allowance: 1,
            },
        );
        let mut four = Desk::new(rt.alloc(), Chain::new(4), methods)?;
        four.fill(&rt, 0, &T);
        four.refuses(
            &rt,
            &[cut(0, 1, 7), cut(0, 1, 13), cut(0, 1, 1)],
            Refusal::Short {
                needed: 2,
                allowance: 1,
            },
        );
        four.finds(&rt, 0, &SHAPED_AS_T);
    }
    Ok(())
}

#[test]
fn a_third_level_takes_three_nodes(rt: HostRuntime) -> Result<(), Fail> {
    for size in [15u16, 16] {
        let mut desk = Desk::new(rt.alloc(), Bitmap::new(size), size == 15)?;
        for key in 1..89u32 {
            desk.fill(&rt, 0, &[key]);
        }
        desk.plays(&rt, &[(count(0), counted(88), 13)]);
        if size == 15 {
            desk.refuses(
                &rt,
                &[insert(0, 89)],
                Refusal::Short {
                    needed: 3,
                    allowance: 2,
                },
            );
        } else {
            desk.plays(&rt, &[(insert(0, 89), Ok(Answer::Inserted(None)), 16)]);
        }
    }
    Ok(())
}

/// Insertions into one book, while the other is cut and its part is walked.
#[test]
fn two_books_stay_apart(rt: HostRuntime) -> Result<(), Fail> {
    for methods in [true, false] {
        let mut desk = Desk::new(rt.alloc(), Chain::new(20), methods)?;
        for half in 0..20u32 {
            desk.fill(&rt, 0, &[half * 2]);
            desk.fill(&rt, 15, &[half * 2 + 1]);
        }
        assert!(rt; desk.good(&rt, cut(0, 7, 20)).is_ok());
        desk.fill(&rt, 15, &[101, 103, 105]);
        assert!(rt; desk.good(&rt, open(7)).is_ok());
        for half in 10..20u32 {
            desk.fill(&rt, 15, &[half * 2 + 101]);
            let told = desk.good(&rt, next(7));
            assert_eq!(rt; told, handed(half * 2));
        }
        let out = desk.bank.supply().out_count();
        desk.plays(
            &rt,
            &[
                (next(7), none_left(), out),
                (count(0), counted(10), out),
                (open(15), Ok(Answer::Opened), out),
            ],
        );
        for half in 0..20u32 {
            let told = desk.good(&rt, next(15));
            assert_eq!(rt; told, handed(half * 2 + 1));
        }
        assert!(rt; desk.good(&rt, open(0)).is_ok());
        for half in 0..10u32 {
            let told = desk.good(&rt, next(0));
            assert_eq!(rt; told, handed(half * 2));
        }
        assert!(rt; desk.good(&rt, close(7)).is_ok() && desk.good(&rt, close(0)).is_ok());
        desk.plays(&rt, &[(close(15), dropped(13), 0)]);
    }
    Ok(())
}

/// Calls in a list are performed in turn, refused ones too, until the list of answers is full: here one call before the last.
#[test]
fn lists_of_calls_are_performed_in_turn(rt: HostRuntime) -> Result<(), Fail> {
    let mut desk = Desk::new(rt.alloc(), Chain::new(3), false)?;
    let calls = [
        insert(0, 1),
        insert(0, 1),
        lookup(0, 1),
        release(16),
        open(0),
        next(0),
        close(0),
    ];
    let mut answers = [Err(Refusal::Breach); 6];
    let performed = desk.bank.perform_all(
        desk.heads.as_mut_slice(),
        desk.keys.as_mut_slice(),
        desk.values.as_mut_slice(),
        &calls,
        &mut answers,
    );
    assert_eq!(rt; performed, 6);
    assert_eq!(rt; answers[0], Ok(Answer::Inserted(None)));
    assert_eq!(rt; answers[1], Ok(Answer::Inserted(Some(10))));
    assert_eq!(rt; answers[2], Ok(Answer::Found(Some(10), 1)));
    assert_eq!(rt; answers[3], Err(Refusal::Place));
    assert_eq!(rt; answers[4], Ok(Answer::Opened));
    assert_eq!(rt; answers[5], handed(1));
    desk.plays(&rt, &[(count(0), counted(0), 1), (close(0), dropped(0), 0)]);
    Ok(())
}
