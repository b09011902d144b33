//! Which node holds what, where a list has placed it, and any calls over such lists.

use crate::desk::{
    Desk, close, count, counted, cut, dropped, handed, insert, inserted, next, next_back, open,
    opened, parted, release,
};
use crate::dice::Dice;
use crate::orders::{NODES, by_sevens, downward, from_both_ends, in_order, interleaved};
use calls::refusals::Refusal;
use std::test::Fail;
use supply::Supply;
use supply::links::Chain;

const T: [u32; 12] = [1, 2, 3, 4, 5, 6, 7, 8, 9, 10, 11, 12];

/// The leaf takes a first number. The twelfth key splits it: the right leaf takes a second one, and the new root a third. A cut takes two more,
/// one of which is left; what was given back comes again, the nearest to the head first.
#[test]
fn nodes_stand_where_the_list_says(rt: HostRuntime) -> Result<(), Fail> {
    let lists: [[u16; 6]; 4] = [
        [5, 0, 3, 1, 4, 2],
        [5, 4, 3, 2, 1, 0],
        [0, 5, 1, 4, 2, 3],
        [3, 0, 4, 1, 5, 2],
    ];
    for list in lists {
        let [leaf, right, root, fourth, fifth, _] = list;
        let mut desk = Desk::new(rt.alloc(), in_order(&list)?)?;
        desk.fill(&rt, 0, &T[..11]);
        desk.holds(&rt, leaf, &T[..11]);
        desk.fill(&rt, 0, &T[11..]);
        desk.holds(&rt, leaf, &T[..6]);
        desk.holds(&rt, root, &T[6..7]);
        desk.holds(&rt, right, &T[7..]);
        desk.plays(&rt, &[(insert(1, 20), inserted(), 4)]);
        desk.holds(&rt, fourth, &[20]);
        desk.plays(&rt, &[(release(0), dropped(12), 1)]);
        desk.plays(&rt, &[(insert(2, 30), inserted(), 2)]);
        desk.holds(&rt, leaf, &[30]);
        desk.plays(&rt, &[(insert(3, 40), inserted(), 3)]);
        desk.holds(&rt, right, &[40]);
        desk.holds(&rt, fourth, &[20]);
        desk.plays(
            &rt,
            &[
                (insert(0, 50), inserted(), 4),
                (insert(4, 60), inserted(), 5),
            ],
        );
        desk.holds(&rt, root, &[50]);
        desk.holds(&rt, fifth, &[60]);
        let mut desk = Desk::new(rt.alloc(), in_order(&list)?)?;
        desk.fill(&rt, 0, &T);
        desk.plays(&rt, &[(cut(0, 1, 7), parted(6, 6, 7), 2)]);
        desk.holds(&rt, leaf, &T[..6]);
        desk.holds(&rt, fourth, &T[6..]);
        desk.plays(
            &rt,
            &[
                (insert(2, 70), inserted(), 3),
                (insert(3, 80), inserted(), 4),
            ],
        );
        desk.holds(&rt, right, &[70]);
        desk.holds(&rt, root, &[80]);
    }
    Ok(())
}

/// The same calls, over a list and over a chain: the answers are the same, and as many nodes are out.
#[test]
fn any_calls_are_answered_as_over_a_chain(rt: HostRuntime) -> Result<(), Fail> {
    let mut dice = Dice::new();
    let mut declined = 0u32;
    for list in [downward(), interleaved(), from_both_ends(), by_sevens()] {
        let mut trial = Desk::new(rt.alloc(), in_order(&list)?)?;
        let mut chain = Desk::new(rt.alloc(), Chain::new(NODES as u16))?;
        for _ in 0..500 {
            let call = dice.call();
            let told = trial.ask(&rt, call);
            assert_eq!(rt; told, chain.ask(&rt, call), "of {call:?}");
            let (here, there) = (trial.bank.supply(), chain.bank.supply());
            assert_eq!(rt; here.out_count(), there.out_count(), "after {call:?}");
            if let Err(Refusal::Short { .. }) = told {
                declined = declined.saturating_add(1);
            }
        }
    }
    assert!(rt; declined >= 40, "{declined}");
    Ok(())
}

/// Two books grow in turn, so that each has every other node of the list; then one is cut, and both are walked from both ends.
#[test]
fn two_books_share_the_nodes_of_a_list(rt: HostRuntime) -> Result<(), Fail> {
    for list in [downward(), interleaved(), from_both_ends(), by_sevens()] {
        let mut desk = Desk::new(rt.alloc(), in_order(&list)?)?;
        for half in 0..30u32 {
            desk.fill(&rt, 0, &[half * 2]);
            desk.fill(&rt, 1, &[99 - half * 3]);
        }
        desk.plays(
            &rt,
            &[
                (count(0), counted(30), 11),
                (count(1), counted(30), 11),
                (cut(0, 2, 30), parted(15, 15, 5), 12),
            ],
        );
        for place in [0usize, 1, 2] {
            assert_eq!(rt; desk.ask(&rt, open(place)), opened());
        }
        for half in 0..15u32 {
            assert_eq!(rt; desk.ask(&rt, next(0)), handed(half * 2));
            assert_eq!(rt; desk.ask(&rt, next_back(2)), handed(58 - half * 2));
            assert_eq!(rt; desk.ask(&rt, next(1)), handed(12 + half * 3));
            assert_eq!(rt; desk.ask(&rt, next_back(1)), handed(99 - half * 3));
        }
        for place in [0usize, 1, 2] {
            assert_eq!(rt; desk.ask(&rt, close(place)), dropped(0));
        }
        assert_eq!(rt; desk.bank.supply().allowance(), NODES as u16);
    }
    Ok(())
}
