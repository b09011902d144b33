//! A bank for two callers, who are served by turns.

ghost use Rattle.std.specs.Prelude.{◌≡◌, ◌<◌, MatchResult, length, slice_set};
ghost use Rattle.supply.specs.Callers.{caller_number};
ghost use Rattle.calls.specs.declared.refusals.Refusal.TheVariants as Refusal;

use crate::moves::{Move, Reply};
use bank::bank::Bank;
use bank::perform::lesser;
use books::places::Register;
use calls::calls::{Answer, Call};
use calls::refusals::Refusal;
use node::head::Head;
use order::keys::{KeyOrder, Placing, PointQuery, Query};
use supply::Supply;
use supply::callers::Caller;
use supply::shares::Shares;

/// The caller with a number, or a refusal.
fn caller_of(number: u16) -> Result<Caller, Refusal>
    ensures { MatchResult result (λ c. caller_number c ≡ number) (λ e. (e ≡ Refusal.Caller) × (1 < number)) }
{
    match Caller::numbered(number) {
        Some(caller) => Ok(caller),
        None => Err(Refusal::Caller),
    }
}

/// Puts `item` at an index of a slice.
fn put<T: Copy>(slice: &mut [T], at: usize, item: T)
    requires { at < length slice.old }
    ensures { slice.new ≡ slice_set slice.old at item }
{
    slice[at] = item;
}

/// One bank for two callers, who are served by turns. The tables and their size are for both; each caller has a register of
/// sixteen places and a share of the numbers, with a limit of its own.
#[derive(Drop)]
pub struct SharedBank<S: Supply> {
    bank: Bank<Shares<S>>,
    resting: Register,
}

impl<S: Supply> SharedBank<S> {
    ghost use Rattle.std.specs.Prelude.{ℕ, drop, replicate};
    ghost use Rattle.supply.specs.Shares.{unshared};
    ghost use Rattle.books.specs.declared.places.Place.TheVariants as Place;
    ghost use Rattle.supply.specs.declared.callers.Caller.TheVariants as Caller;
    ghost use Rattle.node.specs.Store.{tables};
    ghost use Rattle.calls.specs.Asking.{asked};
    ghost use Rattle.calls.specs.Runs.{event};
    ghost use Rattle.bank.specs.Calls.{told, itself, FailsChecks};
    ghost use Rattle.bank.specs.Fitting.{coded};
    ghost use Rattle.bank.specs.Lists.{Lesser};
    ghost use Rattle.shared.specs.SharedStates.{Unbegun, caller_state, view};
    ghost use Rattle.shared.specs.SharedBanks.{state_of, caller_in};
    ghost use Rattle.shared.specs.Moves.{Called, LaidOut, TurnsTo};
    ghost use Rattle.shared.specs.MoveLists.{asked_move, told_reply, MakesMove, Performed, first_moves, first_replies};

    /// A bank for two callers over a supply, with these limits for caller 0 and caller 1. Caller 0 is served, and neither
    /// has anything yet: each is to lay out first.
    pub fn new(below: S, first: u16, second: u16) -> SharedBank<S>
        ensures caller { result.bank.supply.caller ≡ Caller.First }
        ensures size { result.bank.size ≡ 0 }
        ensures below { result.bank.supply.below ≡ below }
        ensures first { caller_in S.Supply result 0 ≡ caller_state (replicate 16 Place.Bare) (unshared (S.stock below) 0 first second) }
        ensures second { caller_in S.Supply result 1 ≡ caller_state (replicate 16 Place.Bare) (unshared (S.stock below) 1 second first) }
        ensures unbegun { (n : ℕ) → n < 2 → Unbegun (caller_in S.Supply result n) }
    {
        SharedBank {
            bank: Bank::new(Shares::new(below, first, second)),
            resting: Register::bare(),
        }
    }

    /// The number of the caller that is served.
    pub fn caller(&self) -> u16
        ensures { result ≡ caller_number self.now.bank.supply.caller }
    {
        self.bank.caller().number()
    }

    /// The bank as the caller that is served means it.
    pub fn bank(&self) -> &Bank<Shares<S>>
        ensures { result.now ≡ self.now.bank }
    {
        &self.bank
    }

    /// Lays out the tables for the caller that is served: takes over their size, and makes this caller's places bare.
    /// Refusals, each with nothing changed: 1 where the tables do not fit together; 2 where the supply has not as many
    /// numbers as there are heads, or a number is out that is this caller's.
    pub fn lay_out<K: KeyOrder, V: Copy>(
        &mut self,
        heads: &[Head],
        keys: &[K],
        values: &[V],
    ) -> Result<(), Refusal>
        ensures does { LaidOut K.KeyOrder.compares (caller_number self.old.bank.supply.caller) (coded result) (state_of S.Supply self.old (tables heads.now keys.now values.now)) (state_of S.Supply self.new (tables heads.now keys.now values.now)) }
        ensures same { MatchResult result (λ _. Unit {0}) (λ _. self.new ≡ self.old) }
        ensures supply { self.new.bank.supply ≡ self.old.bank.supply }
    {
        self.bank.lay_out(heads, keys, values)
    }

    /// Serves the caller with this number, 0 or 1, with its own register. Refusals, each with nothing changed: 10 where there
    /// is no such caller; then 1 where the tables are not those of the bank.
    pub fn turn<K: Copy, V: Copy>(
        &mut self,
        heads: &[Head],
        keys: &[K],
        values: &[V],
        caller: u16,
    ) -> Result<(), Refusal>
        ensures does { TurnsTo caller (state_of S.Supply self.old (tables heads.now keys.now values.now)) (state_of S.Supply self.new (tables heads.now keys.now values.now)) (coded result) }
        ensures same { MatchResult result (λ _. Unit {0}) (λ _. self.new ≡ self.old) }
        ensures below { self.new.bank.supply.below ≡ self.old.bank.supply.below }
    {
        let caller = caller_of(caller)?;
        self.bank.fit(heads.len(), keys.len(), values.len())?;
        if self.bank.caller().number() != caller.number() {
            self.resting = self.bank.turn(caller, self.resting);
        }
        Ok(())
    }

    /// Performs a call of the caller that is served, and answers what it answers. Refusals are those of the call.
    pub fn perform<K: KeyOrder, V: Copy, P: PointQuery<K>, Q: Query<K>>(
        &mut self,
        heads: &mut [Head],
        keys: &mut [K],
        values: &mut [V],
        call: &Call<K, V, P, Q>,
    ) -> Result<Answer<K, V>, Refusal>
        ensures does { Called K.KeyOrder.compares (caller_number self.old.bank.supply.caller) (event (asked P.Placing.places Q.Placing.places call.now) (told itself result)) (state_of S.Supply self.old (tables heads.old keys.old values.old)) (state_of S.Supply self.new (tables heads.new keys.new values.new)) }
        ensures same { FailsChecks (asked P.Placing.places Q.Placing.places call.now) (view (state_of S.Supply self.old (tables heads.old keys.old values.old)) (caller_number self.old.bank.supply.caller)) → self.new ≡ self.old }
        ensures resting { self.new.resting ≡ self.old.resting }
    {
        self.bank.perform(heads, keys, values, call)
    }

    /// Makes one move, and answers what it answers: a laying out, a turn, or a call of the caller that is served.
    pub fn make<K: KeyOrder, V: Copy, P: PointQuery<K>, Q: Query<K>>(
        &mut self,
        heads: &mut [Head],
        keys: &mut [K],
        values: &mut [V],
        request: &Move<K, V, P, Q>,
    ) -> Result<Reply<K, V>, Refusal>
        ensures { MakesMove K.KeyOrder.compares (asked_move P.Placing.places Q.Placing.places request.now) (told_reply result) (state_of S.Supply self.old (tables heads.old keys.old values.old)) (state_of S.Supply self.new (tables heads.new keys.new values.new)) }
    {
        match request {
            Move::LayOut => {
                self.lay_out(heads, keys, values)?;
                Ok(Reply::LaidOut)
            }
            Move::Turn { caller } => {
                self.turn(heads, keys, values, *caller)?;
                Ok(Reply::Turned)
            }
            Move::Call(call) => {
                let answer = self.perform(heads, keys, values, call)?;
                Ok(Reply::Answered(answer))
            }
        }
    }

    /// Makes moves one after the other and puts down what each answers, as many as there is room for. Answers how many were made.
    pub fn make_all<K: KeyOrder, V: Copy, P: PointQuery<K>, Q: Query<K>>(
        &mut self,
        heads: &mut [Head],
        keys: &mut [K],
        values: &mut [V],
        moves: &[Move<K, V, P, Q>],
        replies: &mut [Result<Reply<K, V>, Refusal>],
    ) -> usize
        ensures count { Lesser result (length moves.now) (length replies.old) }
        ensures others { drop result replies.new ≡ drop result replies.old }
        ensures all { Performed K.KeyOrder.compares (first_moves P.Placing.places Q.Placing.places result moves.now) (first_replies result replies.new) (state_of S.Supply self.old (tables heads.old keys.old values.old)) (state_of S.Supply self.new (tables heads.new keys.new values.new)) }
    {
        let count = lesser(moves.len(), replies.len());
        for idx in 0..count {
            let reply = self.make(heads, keys, values, &moves[idx]);
            put(replies, idx, reply);
        }
        count
    }
}
