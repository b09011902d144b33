//! Tables that something else wrote to: the audit says no, and each call still returns.

use crate::desk::{Desk, calls, open};
use calls::calls::{Answer, Call};
use node::head::NULL;
use order::blend::BlendNumber;
use std::test::Fail;
use supply::bits::Bitmap;

#[test]
fn tables_not_in_form_are_audited(rt: HostRuntime) -> Result<(), Fail> {
    for wrong in 0..9usize {
        for call in calls(0) {
            for walk in [false, true] {
                let mut desk = Desk::new(rt.alloc(), Bitmap::new(5), walk)?;
                desk.fill(&rt, 0, &[1, 2, 3, 4, 5, 6, 7, 8, 9, 10, 11, 12]);
                if walk {
                    desk.good(&rt, open(0))?;
                }
                let root = desk
                    .heads
                    .iter()
                    .position(|head| head.parent == NULL)
                    .unwrap_or(0);
                assert!(rt; root < desk.heads.len());
                let child = desk.heads[root].edges[1] as usize;
                assert!(rt; child < desk.heads.len());
                assert_eq!(rt; (desk.heads[root].len, desk.heads[child].len), (1, 5));
                let cell = child * 11;
                assert!(rt; cell < desk.keys.len());
                match wrong {
                    0 => desk.heads[child].parent = NULL,
                    1 => desk.heads[child].len = 4,
                    2 => desk.heads[child].len = 3,
                    3 => desk.heads[child].len = 12,
                    4 => desk.heads[root].edges[1] = desk.heads[root].edges[0],
                    5 => desk.heads[child].place = 0,
                    6 => desk.heads[root].edges[1] = desk.heads[child].parent,
                    7 => desk.heads[root].parent = 3,
                    _ => desk.keys[cell] = BlendNumber::from(7),
                }
                assert_eq!(rt;
                    desk.ask(Call::Audit),
                    Ok(Answer::Audited(false)),
                    "after {wrong}"
                );
                let _ = desk.ask(call);
                let _ = desk.ask(Call::Audit);
            }
        }
    }
    Ok(())
}

#[test]
fn free_content_is_no_matter(rt: HostRuntime) -> Result<(), Fail> {
    let mut desk = Desk::new(rt.alloc(), Bitmap::new(5), true)?;
    desk.fill(&rt, 0, &[1, 2, 3]);
    let leaf = desk
        .heads
        .iter()
        .position(|head| head.parent == NULL)
        .unwrap_or(0);
    assert!(rt; leaf < desk.heads.len());
    desk.heads[leaf].edges = [9; 12];
    desk.heads[leaf].place = 9;
    let cell = leaf * 11 + 3;
    assert!(rt; cell < desk.keys.len());
    desk.keys[cell] = BlendNumber::from(1);
    assert_eq!(rt; desk.ask(Call::Audit), Ok(Answer::Audited(true)));
    desk.finds(&rt, 0, &[(3, true, 3), (4, false, 3)]);
    Ok(())
}
