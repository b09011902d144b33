//! What is chosen for two neighbours at a border, for all lengths that nodes have, and what then becomes of them.

use node::choice::Choice;
use node::ends::Side;
use std::process::Abort;

/// In the table: merge.
const M: usize = 12;

/// What is chosen where the left neighbour stands at the border: a row for each of its lengths, and in it a column for each length of the
/// right one. 0 says leave, and other numbers say how many entries go over.
const AT_FIRST: [[usize; 12]; 12] = [
    [M, M, M, M, M, M, M, M, M, M, M, 6],
    [M, M, M, M, M, M, M, M, M, M, 5, 5],
    [M, M, M, M, M, M, M, M, M, 4, 4, 4],
    [M, M, M, M, M, M, M, M, 3, 3, 3, 3],
    [M, M, M, M, M, M, M, 2, 2, 2, 2, 2],
    [M, M, M, M, M, M, 1, 1, 1, 1, 1, 1],
    [M, M, M, M, M, 0, 0, 0, 0, 0, 0, 0],
    [M, M, M, M, 0, 0, 0, 0, 0, 0, 0, 0],
    [M, M, M, 0, 0, 0, 0, 0, 0, 0, 0, 0],
    [M, M, 0, 0, 0, 0, 0, 0, 0, 0, 0, 0],
    [M, 0, 0, 0, 0, 0, 0, 0, 0, 0, 0, 0],
    [0, 0, 0, 0, 0, 0, 0, 0, 0, 0, 0, 0],
];

/// A choice as the table has it.
fn number(choice: Choice) -> usize {
    match choice {
        Choice::Merge => M,
        Choice::Move(count) => count,
        Choice::Leave => 0,
    }
}

#[test]
fn all_lengths_at_both_borders(rt: HostRuntime) {
    for left in 0..12usize {
        for right in 0..12usize {
            assert_eq!(rt;
                number(Choice::of(Side::First, left, right)),
                AT_FIRST[left][right]
            );
            assert_eq!(rt;
                number(Choice::of(Side::Last, left, right)),
                AT_FIRST[right][left]
            );
        }
    }
}

/// The choice at the last border, and that at the first.
fn both(left: usize, right: usize) -> (Choice, Choice) {
    (
        Choice::of(Side::Last, left, right),
        Choice::of(Side::First, left, right),
    )
}

fn is_leave(rt: &impl Abort, left: usize, right: usize) {
    assert_eq!(rt; both(left, right), (Choice::Leave, Choice::Leave));
}

#[test]
fn lengths_at_the_bounds(rt: HostRuntime) {
    assert_eq!(rt; both(11, 0), (Choice::Move(6), Choice::Leave));
    assert_eq!(rt; both(0, 11), (Choice::Leave, Choice::Move(6)));
    assert_eq!(rt; both(5, 5), (Choice::Merge, Choice::Merge));
    assert_eq!(rt; both(10, 0), (Choice::Merge, Choice::Merge));
    assert_eq!(rt; both(5, 6), (Choice::Leave, Choice::Move(1)));
    assert_eq!(rt; both(6, 5), (Choice::Move(1), Choice::Leave));
    assert_eq!(rt; both(4, 7), (Choice::Leave, Choice::Move(2)));
    assert_eq!(rt; both(7, 4), (Choice::Move(2), Choice::Leave));
    assert_eq!(rt; both(10, 1), (Choice::Move(5), Choice::Leave));
    is_leave(&rt, 6, 6);
    is_leave(&rt, 11, 11);
}

/// Numbers that no node has as its length: their sum does not wrap.
#[test]
fn lengths_beyond_all_nodes(rt: HostRuntime) {
    is_leave(&rt, usize::MAX, usize::MAX);
    assert_eq!(rt; both(usize::MAX, 0), (Choice::Move(6), Choice::Leave));
    assert_eq!(rt; both(1, usize::MAX), (Choice::Leave, Choice::Move(5)));
}
