//! Keys that come in order.

use order::keys::KeyOrder;

/// The last of the keys so far, and how many are to come.
#[derive(Clone, Copy)]
pub(crate) struct Run<K> {
    pub last: Option<K>,
    pub left: usize,
}

impl<K: KeyOrder> Run<K> {
    ghost use Rattle.std.specs.Prelude.{◌≡◌, Decides, MatchOption, [], ◌∷◌};
    ghost use Rattle.audit.specs.Runs.{Above, Notes, noted};

    /// Whether `key` is above the last one.
    fn rises(&self, key: &K) -> bool
        ensures { Decides result (Above K.KeyOrder.compares self.now.last key.now) }
    {
        match self.last {
            Some(last) => last.compare(key).is_lt(),
            None => true,
        }
    }

    /// Takes one more key, where one is to come and it is above the last one.
    pub(crate) fn note(&mut self, key: K) -> Option<()>
        ensures { MatchOption result (Notes K.KeyOrder.compares (key ∷ []) self.old → ⊥) (λ _. Notes K.KeyOrder.compares (key ∷ []) self.old × (self.new ≡ noted (key ∷ []) self.old)) }
    {
        if !self.rises(&key) || self.left == 0 {
            return None;
        }
        self.left -= 1;
        self.last = Some(key);
        Some(())
    }

    /// Takes all of `keys`, one after the other.
    pub(crate) fn note_all(&mut self, keys: &[K]) -> Option<()>
        ensures { MatchOption result (Notes K.KeyOrder.compares keys.now self.old → ⊥) (λ _. Notes K.KeyOrder.compares keys.now self.old × (self.new ≡ noted keys.now self.old)) }
    {
        for key in keys {
            self.note(*key)?;
        }
        Some(())
    }
}
