//! One bank for two callers.
#![tactic(auto)]

pub mod moves;
pub mod sharing;

ghost use Rattle.shared.specs.Moves.{MovesStand};

/// Whatever two callers do by turns: where the calls of each come behind a granted laying out, its bank is in good form and its entries come out even.
pub fn moves_stand<K, V>()
    ensures { MovesStand K V }
{}
