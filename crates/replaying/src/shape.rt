//! A tree in writing: a leaf as `[LEN: k k]`, another node as `(LEN: CHILD k CHILD)`. In a walk only what is left of it, behind the edges of each
//! node between which that lies: `[LEN@FIRST-LAST: k k]`.

ghost use Rattle.std.specs.Prelude.{◌<◌};

use crate::path::{Ends, Span};
use node::head::{CAPACITY, Head};
use node::nodes::{ForceResult, NodeRef};
use order::blend::BlendNumber;
use std::fmt;

/// A tree to be written, or what is left of it between two ends, with `?` for each node and key that lies outside the tables.
#[derive(Clone, Copy)]
pub struct Shape<'a> {
    pub heads: &'a [Head],
    pub keys: &'a [BlendNumber],
    pub root: NodeRef,
    pub ends: Option<Ends>,
}

impl Shape<'_> {
    /// Writes the key at `idx` of `node`.
    fn write_key<W: fmt::Write>(
        &self,
        f: &mut fmt::Formatter<W>,
        node: u16,
        idx: usize,
    ) -> fmt::Result
        requires { idx < 11 }
    {
        match self.keys.get(CAPACITY * node as usize + idx) {
            Some(key) => write!(f, " {key}"),
            None => write!(f, " ?"),
        }
    }

    /// Writes how many entries a node has, and answers which part of it is to be listed.
    fn write_len<W: fmt::Write>(
        &self,
        f: &mut fmt::Formatter<W>,
        node: NodeRef,
        len: usize,
    ) -> Result<Span, fmt::Error> {
        let Some(ends) = self.ends else {
            write!(f, "{len}:")?;
            return Ok(Span {
                first: 0,
                last: len,
            });
        };
        let span = ends.span(node, len);
        write!(f, "{len}@{}-{}:", span.first, span.last)?;
        Ok(span)
    }

    /// Writes the tree under `node`.
    fn write_node<W: fmt::Write>(&self, f: &mut fmt::Formatter<W>, node: NodeRef) -> fmt::Result {
        let Some(head) = self.heads.get(node.node as usize) else {
            return write!(f, "?");
        };
        let len = CAPACITY.min(head.len as usize);
        let (open, close) = match node.force() {
            ForceResult::Leaf(_) => ("[", "]"),
            ForceResult::Internal(_) => ("(", ")"),
        };
        write!(f, "{open}")?;
        let span = self.write_len(f, node, len)?;
        for (idx, child) in head.edges[..=len].iter().enumerate() {
            if idx < span.first || span.last < idx {
                continue;
            }
            if let ForceResult::Internal(inner) = node.force() {
                write!(f, " ")?;
                self.write_node(f, inner.child(*child))?;
            }
            if idx < len && idx < span.last {
                self.write_key(f, node.node, idx)?;
            }
        }
        write!(f, "{close}")
    }
}

impl fmt::Display for Shape<'_> {
    fn fmt<W: fmt::Write>(&self, f: &mut fmt::Formatter<W>) -> fmt::Result {
        self.write_node(f, self.root)
    }
}
