//! Moves given as values.

use crate::desk::{Asked, Desk, NONE, Replied, insert, lookup};
use calls::calls::Answer;
use calls::refusals::Refusal;
use shared::moves::{Move, Reply};
use std::test::Fail;
use supply::links::Chain;

const PUT: Replied = Ok(Reply::Answered(Answer::Inserted(None)));

/// Moves over three nodes with limits 1 and 2, each with its reply.
fn script() -> [(Asked, Replied); 14] {
    [
        (Move::Turn { caller: 1 }, Err(Refusal::Tables)),
        (Move::Call(insert(0, 1)), Err(Refusal::Tables)),
        (Move::LayOut, Ok(Reply::LaidOut)),
        (Move::Call(insert(0, 1)), PUT),
        (Move::Call(insert(1, 2)), Err(NONE)),
        (Move::LayOut, Err(Refusal::Supply)),
        (Move::Turn { caller: 2 }, Err(Refusal::Caller)),
        (Move::Turn { caller: 1 }, Ok(Reply::Turned)),
        (Move::LayOut, Ok(Reply::LaidOut)),
        (Move::Call(insert(1, 2)), PUT),
        (Move::Call(insert(0, 3)), PUT),
        (Move::Call(insert(2, 4)), Err(NONE)),
        (Move::Turn { caller: 0 }, Ok(Reply::Turned)),
        (
            Move::Call(lookup(0, 1)),
            Ok(Reply::Answered(Answer::Found(Some(10), 1))),
        ),
    ]
}

#[test]
fn moves_are_made_one_by_one(rt: HostRuntime) -> Result<(), Fail> {
    let mut desk = Desk::new(rt.alloc(), Chain::new(3), 1, 2)?;
    for (asked, replied) in script() {
        let reply = desk.make(&asked);
        assert_eq!(rt; reply, replied, "of {asked:?}");
    }
    desk.audited(&rt)
}

/// As many are made as there is room for, and no reply is put down past the last.
#[test]
fn moves_are_made_in_a_list(rt: HostRuntime) -> Result<(), Fail> {
    let moves = script().map(|(asked, _)| asked);
    let replies = script().map(|(_, replied)| replied);
    let unused = Err(Refusal::Breach);
    for (asked, room, made) in [
        (14usize, 14usize, 14usize),
        (14, 9, 9),
        (9, 14, 9),
        (0, 14, 0),
    ] {
        let mut desk = Desk::new(rt.alloc(), Chain::new(3), 1, 2)?;
        let mut told = [unused; 14];
        let count = desk.make_all(&moves[..asked.min(14)], &mut told[..room.min(14)]);
        assert_eq!(rt; count, made);
        for idx in 0..14usize {
            let wanted = if idx < made { replies[idx] } else { unused };
            assert_eq!(rt; told[idx], wanted, "at {idx}");
        }
        assert_eq!(rt; desk.bank.caller(), if made == 9 { 1 } else { 0 });
    }
    Ok(())
}
