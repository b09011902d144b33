//! The moves of two callers as values, and what they answer.

use calls::calls::{Answer, Call};

/// What is asked of a bank for two callers. A laying out and a call are for the caller that is served.
#[derive(Clone, Copy, PartialEq, Eq, Debug)]
pub enum Move<K, V, P, Q> {
    LayOut,
    Turn { caller: u16 },
    Call(Call<K, V, P, Q>),
}

/// What a move answers.
#[derive(Clone, Copy, PartialEq, Eq, Debug)]
pub enum Reply<K, V> {
    LaidOut,
    Turned,
    Answered(Answer<K, V>),
}
