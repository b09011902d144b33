//! Rows of keys in order.

ghost use Rattle.std.specs.Prelude.{Decides};
ghost use Rattle.order.specs.Rising.{Rising};

use crate::keys::KeyOrder;

/// Whether each key is below each that comes after it.
pub fn rises<K: KeyOrder>(keys: &[K]) -> bool
    ensures { Decides result (Rising K.KeyOrder.compares keys.now) }
{
    keys.is_sorted_by(|a, b| a.compare(b).is_lt())
}
