//! Laying out, and tables that do not go with the bank.

use crate::desk::{
    Ask, Desk, FREE, Kept, Told, by_methods, calls, close, dropped, next, none_left, open, release,
};
use bank::bank::Bank;
use calls::calls::{Answer, Call};
use calls::refusals::Refusal;
use node::head::Head;
use order::blend::BlendNumber;
use std::alloc::{AllocError, Global};
use std::process::Abort;
use std::test::Fail;
use supply::Supply;
use supply::bits::Bitmap;
use supply::links::Chain;

/// Lays out tables of these lengths over a supply.
fn laid_out<S: Supply + Drop>(
    heap: Global,
    heads: usize,
    keys: usize,
    values: usize,
    supply: S,
) -> Result<Result<(), Refusal>, AllocError> {
    let heads = vec![in heap; FREE; heads]?;
    let keys = vec![in heap; BlendNumber::from(7); keys]?;
    let values = vec![in heap; 7u32; values]?;
    let mut bank = Bank::new(supply);
    Ok(bank.lay_out(&heads, &keys, &values))
}

#[test]
fn tables_and_supplies_are_checked(rt: HostRuntime) -> Result<(), Fail> {
    let cases = [
        (4096, 45056, 45056, 4096, Ok(())),
        (4097, 45067, 45067, 4096, Err(Refusal::Tables)),
        (1, 11, 11, 1, Ok(())),
        (0, 0, 0, 0, Err(Refusal::Tables)),
        (3, 32, 33, 3, Err(Refusal::Tables)),
        (3, 34, 33, 3, Err(Refusal::Tables)),
        (3, 33, 32, 3, Err(Refusal::Tables)),
        (3, 33, 34, 3, Err(Refusal::Tables)),
        (3, 33, 33, 2, Err(Refusal::Supply)),
        (3, 33, 33, 4, Err(Refusal::Supply)),
        (3, 32, 33, 4, Err(Refusal::Tables)),
        (0, 0, 0, 3, Err(Refusal::Tables)),
    ];
    for (heads, keys, values, size, told) in cases {
        assert_eq!(rt;
            laid_out(rt.alloc(), heads, keys, values, Chain::new(size))?,
            told,
            "{heads} {keys} {values} {size}"
        );
        assert_eq!(rt;
            laid_out(rt.alloc(), heads, keys, values, Bitmap::new(size))?,
            told,
            "{heads} {keys} {values} {size}"
        );
    }
    let mut supply = Chain::new(3);
    supply.take()?;
    assert_eq!(rt;
        laid_out(rt.alloc(), 3, 33, 33, supply)?,
        Err(Refusal::Supply)
    );
    let mut supply = Bitmap::new(3);
    supply.take()?;
    assert_eq!(rt;
        laid_out(rt.alloc(), 3, 33, 34, supply)?,
        Err(Refusal::Tables)
    );
    Ok(())
}

#[test]
fn a_bank_is_laid_out_again_once_nothing_is_out(rt: HostRuntime) -> Result<(), Fail> {
    let mut desk = Desk::new(rt.alloc(), Chain::new(3), true)?;
    desk.fill(&rt, 0, &[5]);
    desk.plays(&rt, &[(open(3), Ok(Answer::Opened), 1)]);
    let content = desk.content(&rt);
    let again = desk.bank.lay_out(&desk.heads, &desk.keys, &desk.values);
    assert_eq!(rt; again, Err(Refusal::Supply));
    assert_eq!(rt; desk.content(&rt), content);
    desk.plays(
        &rt,
        &[(next(3), none_left(), 1), (release(0), dropped(1), 0)],
    );
    desk.bank.lay_out(&desk.heads, &desk.keys, &desk.values)?;
    desk.refuses(&rt, &[next(3), close(3)], Refusal::Kind);
    desk.fill(&rt, 3, &[5]);
    Ok(())
}

/// Asks a bank, with tables of these lengths.
fn asked<S: Supply + Drop>(
    bank: &mut Bank<S>,
    heads: &mut [Head],
    cells: usize,
    call: &Ask,
    methods: bool,
) -> Told {
    let mut keys = [BlendNumber::from(7); 44];
    let mut values = [7u32; 44];
    let cells = cells.min(44);
    if methods {
        return by_methods(bank, heads, &mut keys[..cells], &mut values[..cells], call);
    }
    bank.perform(heads, &mut keys[..cells], &mut values[..cells], call)
}

/// Asks each call on a place, and the audit, with tables of another size than the bank's: all are refused, and the bank is as it was.
fn refused<S: Supply + Drop>(
    rt: &impl Abort,
    bank: &mut Bank<S>,
    heads: &mut [Head],
    cells: usize,
    place: usize,
) {
    let kept = Kept::of(rt, bank);
    for methods in [true, false] {
        for call in calls(place) {
            let told = asked(bank, heads, cells, &call, methods);
            assert_eq!(rt; told, Err(Refusal::Tables), "{call:?}");
        }
        let told = asked(bank, heads, cells, &Call::Audit, methods);
        assert_eq!(rt; told, Err(Refusal::Tables));
    }
    assert_eq!(rt; Kept::of(rt, bank), kept);
}

#[test]
fn a_bank_that_is_not_laid_out_refuses_each_call(rt: HostRuntime) {
    let mut bank = Bank::new(Chain::new(3));
    refused(&rt, &mut bank, &mut [FREE; 3], 33, 0);
    refused(&rt, &mut bank, &mut [FREE; 3], 33, 16);
    refused(&rt, &mut bank, &mut [], 0, 0);
}

#[test]
fn tables_of_another_size_are_refused(rt: HostRuntime) -> Result<(), Fail> {
    let mut desk = Desk::new(rt.alloc(), Bitmap::new(3), true)?;
    desk.fill(&rt, 0, &[5]);
    let content = desk.content(&rt);
    refused(&rt, &mut desk.bank, &mut [FREE; 4], 44, 0);
    refused(&rt, &mut desk.bank, &mut [FREE; 2], 22, 0);
    refused(&rt, &mut desk.bank, &mut [FREE; 3], 32, 0);
    refused(&rt, &mut desk.bank, &mut [FREE; 3], 34, 16);
    assert_eq!(rt; desk.content(&rt), content);
    Ok(())
}
