//! The bank, and its calls.

ghost use Rattle.std.specs.Prelude.{◌≡◌};
ghost use Rattle.bank.specs.Calls.{count_at};

use crate::gate::{admit, admit_both, admit_walk, fit};
use acts::cutting::cut_in;
use acts::inserting::insert_in;
use acts::looking::{least_in, lookup_in};
use acts::walking::{close_in, open_in, release_in, step_in};
use audit::audits::audit;
use books::places::{CallKind, Place, Register};
use calls::refusals::Refusal;
use node::ends::Side;
use node::head::Head;
use node::tables::Tables;
use order::keys::{KeyOrder, Placing, PointQuery, Query};
use supply::Supply;
use supply::callers::Caller;
use supply::shares::Shares;

/// How many entries a place has.
fn count_in(place: Place) -> usize
    ensures { result ≡ count_at place }
{
    match place {
        Place::Bare => 0,
        Place::Tree { count, .. } => count,
        Place::Walk(walk) => walk.left,
    }
}

/// Sixteen ordered books, in places 0 to 15, over one supply of nodes. The nodes of all books stand in three tables of the caller, who passes
/// them to every call: N heads, 11 · N keys and 11 · N values, N from 1 to 4,096. N is set by laying out.
///
/// Each call makes its checks in the order of their numbers, and the first that fails is what it returns: 1 for the tables, 2 for the supply
/// (laying out alone), 3 for a place above 15, 4 for a place whose kind does not allow the call; all of these leave tables and bank as they
/// were. 6 names the nodes needed and those that may be taken; tables, register and what the supply means are as they were. 5 is for a bank
/// in no good form alone, and what stands in tables and bank is then open.
#[derive(Drop)]
pub struct Bank<S> {
    size: usize,
    register: Register,
    supply: S,
}

impl<S: Supply> Bank<S> {
    ghost use Rattle.std.specs.Prelude.{◌≡◌, MatchResult};
    ghost use Rattle.node.specs.Store.{tables};
    ghost use Rattle.calls.specs.Asking as Call;
    ghost use Rattle.calls.specs.declared.calls.Answer.TheVariants as Answer;
    ghost use Rattle.bank.specs.Banks.{state_of};
    ghost use Rattle.node.specs.declared.ends.Side.TheVariants as Side;
    ghost use Rattle.acts.specs.Acts.{found, counts};
    ghost use Rattle.bank.specs.Calls.{told, opened, Performs, FailsChecks};
    ghost use Rattle.std.specs.Prelude.{Decides, replicate};
    ghost use Rattle.books.specs.declared.places.Place.TheVariants as Place;
    ghost use Rattle.bank.specs.Layout.{Unused, LaysOut};
    ghost use Rattle.bank.specs.Fitting.{FitsBank, coded};
    ghost use Rattle.books.specs.Places.{NamedPlace};

    /// Whether tables of these lengths are those of the bank. Refusal 1 where they do not fit together, or N is another.
    pub fn fit(&self, heads: usize, keys: usize, values: usize) -> Result<(), Refusal>
        ensures { FitsBank self.now.size heads keys values result }
    {
        fit(heads, keys, values)?;
        if self.size != heads {
            return Err(Refusal::Tables);
        }
        Ok(())
    }

    /// Whether the supply has so many numbers, and none of them is out.
    fn unused(&self, heads: usize) -> bool
        ensures { Decides result (Unused heads (S.stock self.now.supply)) }
    {
        self.supply.size() as usize == heads && self.supply.out_count() == 0
    }

    /// A bank over a supply, with N 0 and bare places: it is to be laid out first. Each place then stands for a `BTreeMap::new`.
    pub fn new(supply: S) -> Bank<S>
        ensures { (result.size ≡ 0) × (result.register.places ≡ replicate 16 Place.Bare) × (result.supply ≡ supply) }
    {
        Bank {
            size: 0,
            register: Register::bare(),
            supply,
        }
    }

    /// The bank of these parts, in good form or not.
    pub fn from_parts(size: usize, register: Register, supply: S) -> Bank<S>
        ensures { (result.size ≡ size) × (result.register ≡ register) × (result.supply ≡ supply) }
    {
        Bank {
            size,
            register,
            supply,
        }
    }

    /// The parts of the bank: its size, its register and its supply.
    pub fn into_parts(self) -> (usize, Register, S)
        ensures { (result.0 ≡ self.size) × (result.1 ≡ self.register) × (result.2 ≡ self.supply) }
    {
        (self.size, self.register, self.supply)
    }

    /// The supply, to be asked.
    pub fn supply(&self) -> &S
        ensures { result.now ≡ self.now.supply }
    {
        &self.supply
    }

    /// What stands in a place, if there is such a one.
    pub fn place(&self, at: usize) -> Option<Place>
        ensures { NamedPlace self.now.register.places at result }
    {
        self.register.place(at)
    }

    /// Lays out the tables: N becomes the number of heads, and every place bare, whatever stood there. The supply stays as it is. Refusals, each
    /// with nothing changed: 1 where N would be 0 or above 4,096, or keys or values are not 11 · N; 2 where the supply has not N numbers, or one
    /// is out. The original has no such call.
    pub fn lay_out<K: KeyOrder, V>(
        &mut self,
        heads: &[Head],
        keys: &[K],
        values: &[V],
    ) -> Result<(), Refusal>
        ensures lays_out { LaysOut K.KeyOrder.compares (state_of S.stock self.old (tables heads.now keys.now values.now)) (state_of S.stock self.new (tables heads.now keys.now values.now)) (coded result) }
        ensures supply { self.new.supply ≡ self.old.supply }
        ensures same { MatchResult result (λ _. Unit {0}) (λ _. self.new ≡ self.old) }
    {
        fit(heads.len(), keys.len(), values.len())?;
        if !self.unused(heads.len()) {
            return Err(Refusal::Supply);
        }
        self.size = heads.len();
        self.register = Register::bare();
        Ok(())
    }

    /// Puts an entry into a bare place or a tree, which is a tree then. Where the key is there, it stays and gets the new value, and the old one is
    /// answered; else none. Refusals: 1, 3, 4 (a walk), with nothing changed; 6 where the key is new and more nodes are needed than may be taken,
    /// with nothing moved. The original's `try_insert`.
    pub fn insert<K: KeyOrder, V: Copy>(
        &mut self,
        heads: &mut [Head],
        keys: &mut [K],
        values: &mut [V],
        place: usize,
        key: K,
        value: V,
    ) -> Result<Option<V>, Refusal>
        ensures does { Performs K.KeyOrder.compares (Call.Insert place key value) (state_of S.stock self.old (tables heads.old keys.old values.old)) (state_of S.stock self.new (tables heads.new keys.new values.new)) (told Answer.Inserted result) }
        ensures same { FailsChecks (Call.Insert place key value) (state_of S.stock self.old (tables heads.old keys.old values.old)) → self.new ≡ self.old }
    {
        self.fit(heads.len(), keys.len(), values.len())?;
        let here = admit(&self.register, place, CallKind::Insert)?;
        let (after, old) = insert_in(heads, keys, values, &mut self.supply, here, key, value)?;
        self.register.set(place, after);
        Ok(old)
    }

    /// The value under the key that is the same as the query, in a bare place or a tree, or none; and how many keys were compared, at most 11 for
    /// each level. Changes nothing. Refusals: 1, 3, 4 (a walk). The original's `get`.
    pub fn lookup<K: KeyOrder, V: Copy, Q: PointQuery<K>>(
        &self,
        heads: &[Head],
        keys: &[K],
        values: &[V],
        place: usize,
        query: &Q,
    ) -> Result<(Option<V>, usize), Refusal>
        ensures { Performs K.KeyOrder.compares (Call.Lookup place (Q.Placing.places query.now)) (state_of S.stock self.now (tables heads.now keys.now values.now)) (state_of S.stock self.now (tables heads.now keys.now values.now)) (told found result) }
    {
        self.fit(heads.len(), keys.len(), values.len())?;
        let here = admit(&self.register, place, CallKind::Lookup)?;
        let tables = Tables {
            heads,
            keys,
            values,
        };
        Ok(lookup_in(&tables, here, query)?)
    }

    /// The least entry that is the same as the query, key and value, in a bare place or a tree, or none: of a day, its least batch. Changes nothing.
    /// Refusals: 1, 3, 4 (a walk). The original has no such call.
    pub fn least<K: KeyOrder, V: Copy, Q: Query<K>>(
        &self,
        heads: &[Head],
        keys: &[K],
        values: &[V],
        place: usize,
        query: &Q,
    ) -> Result<Option<(K, V)>, Refusal>
        ensures { Performs K.KeyOrder.compares (Call.Least place (Q.Placing.places query.now)) (state_of S.stock self.now (tables heads.now keys.now values.now)) (state_of S.stock self.now (tables heads.now keys.now values.now)) (told Answer.Least result) }
    {
        self.fit(heads.len(), keys.len(), values.len())?;
        let here = admit(&self.register, place, CallKind::Least)?;
        let tables = Tables {
            heads,
            keys,
            values,
        };
        Ok(least_in(&tables, here, query)?)
    }

    /// How many entries a tree has, or a walk has left; 0 of a bare place. Changes nothing. Refusals: 1, 3. The original's `len`.
    pub fn count<K: KeyOrder, V>(
        &self,
        heads: &[Head],
        keys: &[K],
        values: &[V],
        place: usize,
    ) -> Result<usize, Refusal>
        ensures { Performs K.KeyOrder.compares (Call.Count place) (state_of S.stock self.now (tables heads.now keys.now values.now)) (state_of S.stock self.now (tables heads.now keys.now values.now)) (told Answer.Counted result) }
    {
        self.fit(heads.len(), keys.len(), values.len())?;
        let here = admit(&self.register, place, CallKind::Count)?;
        Ok(count_in(here))
    }

    /// Cuts a bare place or a tree at a query: what is below it stays, and the rest, so all that is the same as it, goes to the bare place
    /// `other`, which has a tree then. Answers the entries left, the entries right and the keys compared; 0, 0, 0 of no entries, with both places
    /// as they were. Refusals: 1, 3 (either place), 4 (a walk, or a second place that is not bare or is the first), with nothing changed; 6 where
    /// fewer nodes may be taken than the tree has levels, with nothing moved. The original's `split_off`.
    pub fn cut<K: KeyOrder, V: Copy, Q: Query<K>>(
        &mut self,
        heads: &mut [Head],
        keys: &mut [K],
        values: &mut [V],
        place: usize,
        other: usize,
        query: &Q,
    ) -> Result<(usize, usize, usize), Refusal>
        ensures does { Performs K.KeyOrder.compares (Call.Cut place other (Q.Placing.places query.now)) (state_of S.stock self.old (tables heads.old keys.old values.old)) (state_of S.stock self.new (tables heads.new keys.new values.new)) (told counts result) }
        ensures same { FailsChecks (Call.Cut place other (Q.Placing.places query.now)) (state_of S.stock self.old (tables heads.old keys.old values.old)) → self.new ≡ self.old }
    {
        self.fit(heads.len(), keys.len(), values.len())?;
        let (here, _) = admit_both(&self.register, place, other, CallKind::Cut, CallKind::CutTo)?;
        let (stays, goes, counts) = cut_in(heads, keys, values, &mut self.supply, here, query)?;
        self.register.set(place, stays);
        self.register.set(other, goes);
        Ok(counts)
    }

    /// Makes a bare place or a tree a walk over all its entries; writes no table, and leaves the supply as it is. Refusals, with nothing changed:
    /// 1, 3, 4 (a walk). The original's `into_iter`.
    pub fn open<K: KeyOrder, V>(
        &mut self,
        heads: &[Head],
        keys: &[K],
        values: &[V],
        place: usize,
    ) -> Result<(), Refusal>
        ensures does { Performs K.KeyOrder.compares (Call.Open place) (state_of S.stock self.old (tables heads.now keys.now values.now)) (state_of S.stock self.new (tables heads.now keys.now values.now)) (told opened result) }
        ensures same { FailsChecks (Call.Open place) (state_of S.stock self.old (tables heads.now keys.now values.now)) → self.new ≡ self.old }
        ensures supply { self.new.supply ≡ self.old.supply }
    {
        self.fit(heads.len(), keys.len(), values.len())?;
        let here = admit(&self.register, place, CallKind::Open)?;
        let tables = Tables {
            heads,
            keys,
            values,
        };
        let after = open_in(&tables, &self.supply, here)?;
        self.register.set(place, after);
        Ok(())
    }

    /// Hands out the entry at one end of a walk, or none where none is left; it stays a walk. A node that is left behind goes back to the supply;
    /// no table is written. Refusals, with nothing changed: 1, 3, 4 (no walk). The original's `next` and `next_back` of `IntoIter`.
    pub fn step<K: KeyOrder, V: Copy>(
        &mut self,
        heads: &[Head],
        keys: &[K],
        values: &[V],
        place: usize,
        side: Side,
    ) -> Result<Option<(K, V)>, Refusal>
        ensures does { Performs K.KeyOrder.compares (Call.Step place side) (state_of S.stock self.old (tables heads.now keys.now values.now)) (state_of S.stock self.new (tables heads.now keys.now values.now)) (told Answer.Handed result) }
        ensures same { FailsChecks (Call.Step place side) (state_of S.stock self.old (tables heads.now keys.now values.now)) → self.new ≡ self.old }
    {
        self.fit(heads.len(), keys.len(), values.len())?;
        let walk = admit_walk(&self.register, place, CallKind::Step)?;
        let tables = Tables {
            heads,
            keys,
            values,
        };
        let (after, handed) = step_in(&tables, &mut self.supply, walk, side)?;
        self.register.set(place, after);
        Ok(handed)
    }

    /// Hands out the least entry left of a walk, or none: a step at the front, with its refusals. The original's `next` of `IntoIter`.
    pub fn next<K: KeyOrder, V: Copy>(
        &mut self,
        heads: &[Head],
        keys: &[K],
        values: &[V],
        place: usize,
    ) -> Result<Option<(K, V)>, Refusal>
        ensures does { Performs K.KeyOrder.compares (Call.Step place Side.First) (state_of S.stock self.old (tables heads.now keys.now values.now)) (state_of S.stock self.new (tables heads.now keys.now values.now)) (told Answer.Handed result) }
        ensures same { FailsChecks (Call.Step place Side.First) (state_of S.stock self.old (tables heads.now keys.now values.now)) → self.new ≡ self.old }
    {
        self.step(heads, keys, values, place, Side::First)
    }

    /// Hands out the greatest entry left of a walk, or none: a step at the back, with its refusals. The original's `next_back` of `IntoIter`.
    pub fn next_back<K: KeyOrder, V: Copy>(
        &mut self,
        heads: &[Head],
        keys: &[K],
        values: &[V],
        place: usize,
    ) -> Result<Option<(K, V)>, Refusal>
        ensures does { Performs K.KeyOrder.compares (Call.Step place Side.Last) (state_of S.stock self.old (tables heads.now keys.now values.now)) (state_of S.stock self.new (tables heads.now keys.now values.now)) (told Answer.Handed result) }
        ensures same { FailsChecks (Call.Step place Side.Last) (state_of S.stock self.old (tables heads.now keys.now values.now)) → self.new ≡ self.old }
    {
        self.step(heads, keys, values, place, Side::Last)
    }

    /// Closes a walk: gives back its nodes, and leaves the place bare; writes no table. Answers how many entries were dropped. Refusals, with
    /// nothing changed: 1, 3, 4 (no walk). The original's `drop` of `IntoIter`.
    pub fn close<K: KeyOrder, V: Copy>(
        &mut self,
        heads: &[Head],
        keys: &[K],
        values: &[V],
        place: usize,
    ) -> Result<usize, Refusal>
        ensures does { Performs K.KeyOrder.compares (Call.Close place) (state_of S.stock self.old (tables heads.now keys.now values.now)) (state_of S.stock self.new (tables heads.now keys.now values.now)) (told Answer.Dropped result) }
        ensures same { FailsChecks (Call.Close place) (state_of S.stock self.old (tables heads.now keys.now values.now)) → self.new ≡ self.old }
    {
        self.fit(heads.len(), keys.len(), values.len())?;
        let walk = admit_walk(&self.register, place, CallKind::Close)?;
        let tables = Tables {
            heads,
            keys,
            values,
        };
        let dropped = close_in(&tables, &mut self.supply, walk)?;
        self.register.set(place, Place::Bare);
        Ok(dropped)
    }

    /// Releases a bare place or a tree: gives back its nodes, and leaves the place bare; writes no table. Answers how many entries were dropped.
    /// Refusals, with nothing changed: 1, 3, 4 (a walk). The original's `drop` of the map.
    pub fn release<K: KeyOrder, V: Copy>(
        &mut self,
        heads: &[Head],
        keys: &[K],
        values: &[V],
        place: usize,
    ) -> Result<usize, Refusal>
        ensures does { Performs K.KeyOrder.compares (Call.Release place) (state_of S.stock self.old (tables heads.now keys.now values.now)) (state_of S.stock self.new (tables heads.now keys.now values.now)) (told Answer.Dropped result) }
        ensures same { FailsChecks (Call.Release place) (state_of S.stock self.old (tables heads.now keys.now values.now)) → self.new ≡ self.old }
    {
        self.fit(heads.len(), keys.len(), values.len())?;
        let here = admit(&self.register, place, CallKind::Release)?;
        let tables = Tables {
            heads,
            keys,
            values,
        };
        let dropped = release_in(&tables, &mut self.supply, here)?;
        self.register.set(place, Place::Bare);
        Ok(dropped)
    }

    /// Whether the bank is in good form with these tables, whatever stands in them, in the register and in the supply. Changes nothing. Refusal: 1.
    /// The original has no such call.
    pub fn audit<K: KeyOrder, V>(
        &self,
        heads: &[Head],
        keys: &[K],
        values: &[V],
    ) -> Result<bool, Refusal>
        ensures { Performs K.KeyOrder.compares Call.Audit (state_of S.stock self.now (tables heads.now keys.now values.now)) (state_of S.stock self.now (tables heads.now keys.now values.now)) (told Answer.Audited result) }
    {
        self.fit(heads.len(), keys.len(), values.len())?;
        let tables = Tables {
            heads,
            keys,
            values,
        };
        Ok(audit(&tables, self.size, &self.register, &self.supply))
    }
}

impl<S: Supply> Bank<Shares<S>> {
    ghost use Rattle.std.specs.Prelude.{◌≡◌, ◌<◌, ℕ};
    ghost use Rattle.supply.specs.Callers.{caller_number};
    ghost use Rattle.supply.specs.Shares.{share_for};

    /// Serves a caller, whose register is given, and answers the register of the one that was served. Neither share changes, nor the supply below.
    /// It makes no check: `SharedBank::turn` does.
    pub fn turn(&mut self, caller: Caller, register: Register) -> Register
        ensures size { self.new.size ≡ self.old.size }
        ensures register { self.new.register ≡ register }
        ensures answered { result ≡ self.old.register }
        ensures caller { self.new.supply.caller ≡ caller }
        ensures below { self.new.supply.below ≡ self.old.supply.below }
        ensures kept { let s = self.old.supply in let t = self.new.supply in (n : ℕ) → n < 2 → share_for (S.stock t.below) t.size (caller_number t.caller) t.served.limit t.served.marks t.other.limit t.other.marks n ≡ share_for (S.stock s.below) s.size (caller_number s.caller) s.served.limit s.served.marks s.other.limit s.other.marks n }
    {
        self.supply.turn(caller);
        let resting = self.register;
        self.register = register;
        resting
    }

    /// The caller that is served.
    pub fn caller(&self) -> Caller
        ensures { result ≡ self.now.supply.caller }
    {
        self.supply.caller()
    }
}
