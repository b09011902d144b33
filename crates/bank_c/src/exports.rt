//! The calls, under the names that the header declares. Each begins with a check that the fields are those of a bank, which goes through the
//! whole supply: where they are not, it returns 65,535 and changes nothing. Else it returns 0, or the refusal of the bank's call of that name,
//! 1 to 6, which leaves what it leaves there. Tables are N heads, 11 · N keys and 11 · N values, N from 1 to 4,096; places are 0 to 15; what a
//! reply holds beside its code is open where the code is not 0.

ghost use Rattle.std.specs.Prelude.{◌≡◌, replicate};
ghost use Rattle.supply.specs.Rows.{link_stock};
ghost use Rattle.supply.specs.Stocks.{fresh, kept_size};
ghost use Rattle.node.specs.Store.{tables};
ghost use Rattle.node.specs.declared.ends.Side.TheVariants as Side;
ghost use Rattle.calls.specs.Asking as Call;
ghost use Rattle.calls.specs.declared.calls.Answer.TheVariants as Answer;
ghost use Rattle.books.specs.declared.places.Place.TheVariants as Place;
ghost use Rattle.bank_c.specs.Plain.{Spells};
ghost use Rattle.bank_c.specs.Replies.{optional};
ghost use Rattle.bank_c.specs.Serves.{blend, by_number, Serves, ServesLayout};

use crate::plain::PlainBank;
use crate::replies::{
    AuditReply, CountReply, CutReply, InsertReply, LookupReply, StepReply, Verdict,
};
use bank::bank::Bank;
use node::head::Head;
use order::blend::BlendNumber;
use supply::links::Chain;

/// A bank over the numbers below `nodes`, or over none where that is above 4,096, with N 0 and bare places. It is to be laid out first.
#[unsafe(no_mangle)]
pub extern "C" fn bank_new(nodes: u16) -> PlainBank
    ensures { Spells result 0 (replicate 16 Place.Bare) (fresh (kept_size nodes)) }
{
    PlainBank::of(Bank::new(Chain::new(nodes)))
}

/// Lays out the tables: N becomes the number of heads, and every place bare. Refusals: 65,535, 1, and 2 where the supply has not N numbers or one
/// is out, each with nothing changed.
#[unsafe(no_mangle)]
pub extern "C" fn bank_lay_out(
    bank: &mut PlainBank,
    heads: &[Head],
    keys: &[BlendNumber],
    values: &[u32],
) -> Verdict
    ensures { ServesLayout bank.old bank.new (tables heads.now keys.now values.now) result }
{
    let Some(mut inner) = bank.to_bank() else {
        return Verdict::NOT_A_BANK;
    };
    let answer = inner.lay_out(heads, keys, values);
    *bank = PlainBank::of(inner);
    Verdict::of(answer)
}

/// Puts an entry into a bare place or a tree: `replaced` says whether the key was there, and `old` is its old value. Refusals: 65,535, 1, 3, 4, 6,
/// each with nothing changed. `try_insert` of the original.
#[unsafe(no_mangle)]
pub extern "C" fn bank_insert(
    bank: &mut PlainBank,
    heads: &mut [Head],
    keys: &mut [BlendNumber],
    values: &mut [u32],
    place: usize,
    key: u32,
    value: u32,
) -> InsertReply
    ensures { Serves (Call.Insert place (blend key) value) bank.old bank.new (tables heads.old keys.old values.old) (tables heads.new keys.new values.new) result.verdict (Answer.Inserted (optional result.replaced result.old)) }
{
    let Some(mut inner) = bank.to_bank() else {
        return InsertReply::refused(Verdict::NOT_A_BANK);
    };
    let answer = inner.insert(
        heads,
        keys,
        values,
        place,
        BlendNumber { number: key },
        value,
    );
    *bank = PlainBank::of(inner);
    InsertReply::of(answer)
}

/// The value under a key of a bare place or a tree, where `found` says so, and how many keys were compared. Refusals: 65,535, 1, 3, 4. `get` of
/// the original.
#[unsafe(no_mangle)]
pub extern "C" fn bank_lookup(
    bank: &PlainBank,
    heads: &[Head],
    keys: &[BlendNumber],
    values: &[u32],
    place: usize,
    key: u32,
) -> LookupReply
    ensures { Serves (Call.Lookup place (by_number (blend key))) bank.now bank.now (tables heads.now keys.now values.now) (tables heads.now keys.now values.now) result.verdict (Answer.Found (optional result.found result.value) result.comparisons) }
{
    let Some(inner) = bank.to_bank() else {
        return LookupReply::refused(Verdict::NOT_A_BANK);
    };
    LookupReply::of(inner.lookup(heads, keys, values, place, &BlendNumber { number: key }))
}

/// How many entries a place has, or a walk has left. Refusals: 65,535, 1, 3. `len` of the original.
#[unsafe(no_mangle)]
pub extern "C" fn bank_count(
    bank: &PlainBank,
    heads: &[Head],
    keys: &[BlendNumber],
    values: &[u32],
    place: usize,
) -> CountReply
    ensures { Serves (Call.Count place) bank.now bank.now (tables heads.now keys.now values.now) (tables heads.now keys.now values.now) result.verdict (Answer.Counted result.count) }
{
    let Some(inner) = bank.to_bank() else {
        return CountReply::refused(Verdict::NOT_A_BANK);
    };
    CountReply::of(inner.count(heads, keys, values, place))
}

/// Cuts a bare place or a tree at a key: what is below it stays, and the rest goes to the bare place `other`. Answers the entries of both and how
/// many keys were compared. Refusals: 65,535, 1, 3, 4, 6, each with nothing changed. `split_off` of the original.
#[unsafe(no_mangle)]
pub extern "C" fn bank_cut(
    bank: &mut PlainBank,
    heads: &mut [Head],
    keys: &mut [BlendNumber],
    values: &mut [u32],
    place: usize,
    other: usize,
    key: u32,
) -> CutReply
    ensures { Serves (Call.Cut place other (by_number (blend key))) bank.old bank.new (tables heads.old keys.old values.old) (tables heads.new keys.new values.new) result.verdict (Answer.Parted result.left result.right result.comparisons) }
{
    let Some(mut inner) = bank.to_bank() else {
        return CutReply::refused(Verdict::NOT_A_BANK);
    };
    let answer = inner.cut(
        heads,
        keys,
        values,
        place,
        other,
        &BlendNumber { number: key },
    );
    *bank = PlainBank::of(inner);
    CutReply::of(answer)
}

/// Makes a bare place or a tree a walk over all its entries. Refusals: 65,535, 1, 3, 4, each with nothing changed. `into_iter` of the original.
#[unsafe(no_mangle)]
pub extern "C" fn bank_open(
    bank: &mut PlainBank,
    heads: &[Head],
    keys: &[BlendNumber],
    values: &[u32],
    place: usize,
) -> Verdict
    ensures { Serves (Call.Open place) bank.old bank.new (tables heads.now keys.now values.now) (tables heads.now keys.now values.now) result Answer.Opened }
{
    let Some(mut inner) = bank.to_bank() else {
        return Verdict::NOT_A_BANK;
    };
    let answer = inner.open(heads, keys, values, place);
    *bank = PlainBank::of(inner);
    Verdict::of(answer)
}

/// Hands out the least entry left of a walk, where `handed` says so. Refusals: 65,535, 1, 3, 4, each with nothing changed. `next` of the original.
#[unsafe(no_mangle)]
pub extern "C" fn bank_next(
    bank: &mut PlainBank,
    heads: &[Head],
    keys: &[BlendNumber],
    values: &[u32],
    place: usize,
) -> StepReply
    ensures { Serves (Call.Step place Side.First) bank.old bank.new (tables heads.now keys.now values.now) (tables heads.now keys.now values.now) result.verdict (Answer.Handed (optional result.handed (blend result.key, result.value))) }
{
    let Some(mut inner) = bank.to_bank() else {
        return StepReply::refused(Verdict::NOT_A_BANK);
    };
    let answer = inner.next(heads, keys, values, place);
    *bank = PlainBank::of(inner);
    StepReply::of(answer)
}

/// Hands out the greatest entry left of a walk, where `handed` says so. Refusals as of `bank_next`. `next_back` of the original.
#[unsafe(no_mangle)]
pub extern "C" fn bank_next_back(
    bank: &mut PlainBank,
    heads: &[Head],
    keys: &[BlendNumber],
    values: &[u32],
    place: usize,
) -> StepReply
    ensures { Serves (Call.Step place Side.Last) bank.old bank.new (tables heads.now keys.now values.now) (tables heads.now keys.now values.now) result.verdict (Answer.Handed (optional result.handed (blend result.key, result.value))) }
{
    let Some(mut inner) = bank.to_bank() else {
        return StepReply::refused(Verdict::NOT_A_BANK);
    };
    let answer = inner.next_back(heads, keys, values, place);
    *bank = PlainBank::of(inner);
    StepReply::of(answer)
}

/// Closes a walk, leaves the place bare, and answers how many entries were dropped. Refusals as of `bank_next`.
#[unsafe(no_mangle)]
pub extern "C" fn bank_close(
    bank: &mut PlainBank,
    heads: &[Head],
    keys: &[BlendNumber],
    values: &[u32],
    place: usize,
) -> CountReply
    ensures { Serves (Call.Close place) bank.old bank.new (tables heads.now keys.now values.now) (tables heads.now keys.now values.now) result.verdict (Answer.Dropped result.count) }
{
    let Some(mut inner) = bank.to_bank() else {
        return CountReply::refused(Verdict::NOT_A_BANK);
    };
    let answer = inner.close(heads, keys, values, place);
    *bank = PlainBank::of(inner);
    CountReply::of(answer)
}

/// Releases a bare place or a tree, leaves the place bare, and answers how many entries were dropped. Refusals as of `bank_next`.
#[unsafe(no_mangle)]
pub extern "C" fn bank_release(
    bank: &mut PlainBank,
    heads: &[Head],
    keys: &[BlendNumber],
    values: &[u32],
    place: usize,
) -> CountReply
    ensures { Serves (Call.Release place) bank.old bank.new (tables heads.now keys.now values.now) (tables heads.now keys.now values.now) result.verdict (Answer.Dropped result.count) }
{
    let Some(mut inner) = bank.to_bank() else {
        return CountReply::refused(Verdict::NOT_A_BANK);
    };
    let answer = inner.release(heads, keys, values, place);
    *bank = PlainBank::of(inner);
    CountReply::of(answer)
}

/// Whether the bank is in good form. Refusals: 65,535, 1.
#[unsafe(no_mangle)]
pub extern "C" fn bank_audit(
    bank: &PlainBank,
    heads: &[Head],
    keys: &[BlendNumber],
    values: &[u32],
) -> AuditReply
    ensures { Serves Call.Audit bank.now bank.now (tables heads.now keys.now values.now) (tables heads.now keys.now values.now) result.verdict (Answer.Audited result.good) }
{
    let Some(inner) = bank.to_bank() else {
        return AuditReply::refused(Verdict::NOT_A_BANK);
    };
    AuditReply::of(inner.audit(heads, keys, values))
}
