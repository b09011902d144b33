//! Which places there are, and which calls each kind of place allows.

use crate::desk::{Ask, Desk, calls, count, counted, cut, handed, next, open, parted};
use calls::calls::{Answer, Call};
use calls::refusals::Refusal;
use std::process::Abort;
use std::test::Fail;
use supply::Supply;
use supply::bits::Bitmap;
use supply::links::Chain;

/// Puts a tree into place 1, a walk into place 2 and a walk without nodes into place 3: place 0 is bare.
fn lay<S: Supply + Drop>(rt: &impl Abort, desk: &mut Desk<S>) {
    desk.fill(rt, 1, &[1, 2, 3]);
    desk.fill(rt, 2, &[4, 5]);
    desk.plays(
        rt,
        &[
            (open(2), Ok(Answer::Opened), 2),
            (open(3), Ok(Answer::Opened), 2),
        ],
    );
}

#[test]
fn there_are_sixteen_places(rt: HostRuntime) -> Result<(), Fail> {
    for methods in [true, false] {
        let mut desk = Desk::new(rt.alloc(), Chain::new(4), methods)?;
        lay(&rt, &mut desk);
        desk.refuses(&rt, &calls(16), Refusal::Place);
        desk.refuses(&rt, &calls(usize::MAX), Refusal::Place);
        desk.refuses(
            &rt,
            &[
                cut(0, 16, 2),
                cut(16, 0, 2),
                cut(2, 16, 2),
                cut(16, 2, 2),
                cut(16, 16, 2),
            ],
            Refusal::Place,
        );
        desk.plays(
            &rt,
            &[
                (cut(1, 15, 2), parted(1, 2, 2), 3),
                (count(15), counted(2), 3),
            ],
        );
    }
    Ok(())
}

/// Whether a walk allows a call, or else a bare place and a tree.
fn allowed(call: Ask, walk: bool) -> bool {
    match call {
        Call::Count { .. } | Call::Audit => true,
        Call::Step { .. } | Call::Close { .. } => walk,
        _ => !walk,
    }
}

#[test]
fn kinds_of_places_allow_their_calls(rt: HostRuntime) -> Result<(), Fail> {
    for methods in [true, false] {
        for which in 0..10usize {
            for (place, walk) in [
                (0usize, false),
                (1, false),
                (2, true),
                (3, true),
                (15, false),
            ] {
                let mut desk = Desk::new(rt.alloc(), Bitmap::new(5), methods)?;
                lay(&rt, &mut desk);
                let call = calls(place)[which];
                if allowed(call, walk) {
                    assert!(rt; desk.good(&rt, call).is_ok(), "{call:?}");
                } else {
                    desk.refuses(&rt, &[call], Refusal::Kind);
                }
            }
        }
    }
    Ok(())
}

#[test]
fn a_cut_goes_to_another_bare_place(rt: HostRuntime) -> Result<(), Fail> {
    for methods in [true, false] {
        let mut desk = Desk::new(rt.alloc(), Chain::new(4), methods)?;
        lay(&rt, &mut desk);
        desk.refuses(
            &rt,
            &[
                cut(1, 1, 2),
                cut(0, 0, 2),
                cut(1, 2, 2),
                cut(1, 3, 2),
                cut(0, 1, 2),
                cut(2, 0, 2),
                cut(3, 0, 2),
            ],
            Refusal::Kind,
        );
        desk.plays(
            &rt,
            &[(cut(0, 4, 2), parted(0, 0, 0), 2), (next(2), handed(4), 2)],
        );
    }
    Ok(())
}

#[test]
fn refusals_have_numbers(rt: HostRuntime) -> Result<(), Fail> {
    let short = Refusal::Short {
        needed: 2,
        allowance: 1,
    };
    let numbers = [
        (Refusal::Tables, 1u16, "refused 1"),
        (Refusal::Supply, 2, "refused 2"),
        (Refusal::Place, 3, "refused 3"),
        (Refusal::Kind, 4, "refused 4"),
        (Refusal::Breach, 5, "refused 5"),
        (short, 6, "refused 6 2 1"),
    ];
    for (refusal, number, text) in numbers {
        assert_eq!(rt; refusal.number(), number);
        let printed = format!(in rt.alloc(); "{refusal}")?;
        assert_eq!(rt; printed.as_str(), text);
    }
    Ok(())
}
