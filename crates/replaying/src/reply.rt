//! What a line is answered, as the original's driver writes it.

use crate::tables::DeskTables;
use calls::calls::Answer;
use node::nodes::NodeRef;
use order::blend::BlendNumber;
use std::fmt;
use walk::walks::Walk;

/// What a call on books of blends answers.
pub type BlendAnswer = Answer<BlendNumber, u32>;

/// The answer to a line.
#[derive(Clone, Copy)]
pub enum Reply<'a> {
    Answer(BlendAnswer),
    Bare,
    Tree {
        tables: &'a DeskTables,
        root: NodeRef,
    },
    /// How many entries are left, and what of the tree, if the walk has nodes.
    Walk {
        tables: &'a DeskTables,
        walk: Walk,
    },
    /// How many nodes are out, of two callers those of the one that is served.
    Out(u16),
    /// Another caller is served, or the same again.
    Turned,
}

impl fmt::Display for Reply<'_> {
    fn fmt<W: fmt::Write>(&self, f: &mut fmt::Formatter<W>) -> fmt::Result {
        match self {
            Reply::Answer(answer) => write_answer(f, *answer),
            Reply::Bare => write!(f, "bare"),
            Reply::Tree { tables, root } => write!(f, "{}", tables.tree_shape(*root)),
            Reply::Walk { tables, walk } => match tables.walk_shape(*walk) {
                Some(shape) => write!(f, "walk {} {shape}", walk.left),
                None => write!(f, "walk {} bare", walk.left),
            },
            Reply::Out(count) => write!(f, "{count}"),
            Reply::Turned => write!(f, "turned"),
        }
    }
}

/// Writes what a call answers.
fn write_answer<W: fmt::Write>(f: &mut fmt::Formatter<W>, answer: BlendAnswer) -> fmt::Result {
    match answer {
        Answer::Inserted(None) => write!(f, "new"),
        Answer::Inserted(Some(old)) => write!(f, "old {old}"),
        Answer::Found(None, made) => write!(f, "none {made}"),
        Answer::Found(Some(value), made) => write!(f, "{value} {made}"),
        Answer::Least(None) => write!(f, "none"),
        Answer::Least(Some((key, value))) => write!(f, "{key} {value}"),
        Answer::Counted(count) => write!(f, "{count}"),
        Answer::Parted(left, right, made) => write!(f, "{left} {right} {made}"),
        Answer::Opened => write!(f, "open"),
        Answer::Handed(None) => write!(f, "none"),
        Answer::Handed(Some((key, value))) => write!(f, "{key} {value}"),
        Answer::Dropped(count) => write!(f, "{count}"),
        Answer::Audited(true) => write!(f, "yes"),
        Answer::Audited(false) => write!(f, "no"),
    }
}
