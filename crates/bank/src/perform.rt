//! Calls given as values.

ghost use Rattle.std.specs.Prelude.{◌≡◌, ◌<◌, length, slice_set};
ghost use Rattle.bank.specs.Lists.{Lesser};

use crate::bank::Bank;
use calls::calls::{Answer, Call};
use calls::refusals::Refusal;
use node::head::Head;
use order::keys::{KeyOrder, Placing, PointQuery, Query};
use supply::Supply;

/// The lesser of two numbers.
pub fn lesser(a: usize, b: usize) -> usize
    ensures { Lesser result a b }
{
    if a < b { a } else { b }
}

/// Puts `item` at an index of a slice.
fn put<T: Copy>(slice: &mut [T], at: usize, item: T)
    requires { at < length slice.old }
    ensures { slice.new ≡ slice_set slice.old at item }
{
    slice[at] = item;
}

impl<S: Supply> Bank<S> {
    ghost use Rattle.node.specs.Store.{tables};
    ghost use Rattle.calls.specs.Meaning.{Agreeing, Pointing};
    ghost use Rattle.calls.specs.Asking.{asked};
    ghost use Rattle.bank.specs.Banks.{state_of};
    ghost use Rattle.bank.specs.Calls.{told, itself, Performs, Keeps, FailsChecks};
    ghost use Rattle.bank.specs.Lists.{Chain, PerformsAll, first_calls, first_answers};
    ghost use Rattle.std.specs.Prelude.{drop};

    /// Performs a call by its case.
    fn dispatch<K: KeyOrder, V: Copy, P: PointQuery<K>, Q: Query<K>>(
        &mut self,
        heads: &mut [Head],
        keys: &mut [K],
        values: &mut [V],
        call: &Call<K, V, P, Q>,
    ) -> Result<Answer<K, V>, Refusal>
        ensures does { Performs K.KeyOrder.compares (asked P.Placing.places Q.Placing.places call.now) (state_of S.stock self.old (tables heads.old keys.old values.old)) (state_of S.stock self.new (tables heads.new keys.new values.new)) (told itself result) }
        ensures same { FailsChecks (asked P.Placing.places Q.Placing.places call.now) (state_of S.stock self.old (tables heads.old keys.old values.old)) → self.new ≡ self.old }
    {
        match call {
            Call::Insert { place, key, value } => {
                let old = self.insert(heads, keys, values, *place, *key, *value)?;
                Ok(Answer::Inserted(old))
            }
            Call::Lookup { place, query } => {
                let (value, made) = self.lookup(heads, keys, values, *place, query)?;
                Ok(Answer::Found(value, made))
            }
            Call::Least { place, query } => {
                let entry = self.least(heads, keys, values, *place, query)?;
                Ok(Answer::Least(entry))
            }
            Call::Count { place } => {
                let count = self.count(heads, keys, values, *place)?;
                Ok(Answer::Counted(count))
            }
            Call::Cut {
                place,
                other,
                query,
            } => {
                let (left, right, made) = self.cut(heads, keys, values, *place, *other, query)?;
                Ok(Answer::Parted(left, right, made))
            }
            Call::Open { place } => {
                self.open(heads, keys, values, *place)?;
                Ok(Answer::Opened)
            }
            Call::Step { place, side } => {
                let entry = self.step(heads, keys, values, *place, *side)?;
                Ok(Answer::Handed(entry))
            }
            Call::Close { place } => {
                let dropped = self.close(heads, keys, values, *place)?;
                Ok(Answer::Dropped(dropped))
            }
            Call::Release { place } => {
                let dropped = self.release(heads, keys, values, *place)?;
                Ok(Answer::Dropped(dropped))
            }
            Call::Audit => {
                let good = self.audit(heads, keys, values)?;
                Ok(Answer::Audited(good))
            }
        }
    }

    /// Performs a call that is given as a value, and answers what its method answers, with the refusals of that method.
    pub fn perform<K: KeyOrder, V: Copy, P: PointQuery<K>, Q: Query<K>>(
        &mut self,
        heads: &mut [Head],
        keys: &mut [K],
        values: &mut [V],
        call: &Call<K, V, P, Q>,
    ) -> Result<Answer<K, V>, Refusal>
        ensures does { Performs K.KeyOrder.compares (asked P.Placing.places Q.Placing.places call.now) (state_of S.stock self.old (tables heads.old keys.old values.old)) (state_of S.stock self.new (tables heads.new keys.new values.new)) (told itself result) }
        ensures agrees { Agreeing K.KeyOrder.compares (asked P.Placing.places Q.Placing.places call.now) }
        ensures points { Pointing K.KeyOrder.compares (asked P.Placing.places Q.Placing.places call.now) }
        ensures keeps { Keeps K.KeyOrder.compares (asked P.Placing.places Q.Placing.places call.now) (state_of S.stock self.old (tables heads.old keys.old values.old)) (state_of S.stock self.new (tables heads.new keys.new values.new)) (told itself result) }
        ensures same { FailsChecks (asked P.Placing.places Q.Placing.places call.now) (state_of S.stock self.old (tables heads.old keys.old values.old)) → self.new ≡ self.old }
    {
        self.dispatch(heads, keys, values, call)
    }

    /// Performs calls one after the other and puts down what each answers, as many as there is room for. Answers how many were performed;
    /// answers behind that many stay as they were.
    pub fn perform_all<K: KeyOrder, V: Copy, P: PointQuery<K>, Q: Query<K>>(
        &mut self,
        heads: &mut [Head],
        keys: &mut [K],
        values: &mut [V],
        calls: &[Call<K, V, P, Q>],
        answers: &mut [Result<Answer<K, V>, Refusal>],
    ) -> usize
        ensures count { Lesser result (length calls.now) (length answers.old) }
        ensures rest { drop result answers.new ≡ drop result answers.old }
        ensures chain { Chain K.KeyOrder.compares (first_calls P.Placing.places Q.Placing.places result calls.now) (first_answers result answers.new) (state_of S.stock self.old (tables heads.old keys.old values.old)) (state_of S.stock self.new (tables heads.new keys.new values.new)) }
        ensures all { PerformsAll K.KeyOrder.compares (first_calls P.Placing.places Q.Placing.places result calls.now) (state_of S.stock self.old (tables heads.old keys.old values.old)) (state_of S.stock self.new (tables heads.new keys.new values.new)) (first_answers result answers.new) }
    {
        let count = lesser(calls.len(), answers.len());
        for idx in 0..count {
            let answer = self.perform(heads, keys, values, &calls[idx]);
            put(answers, idx, answer);
        }
        count
    }
}
