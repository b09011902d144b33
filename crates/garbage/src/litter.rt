//! Tables, places and calls filled at random.

use crate::dice::Dice;
use books::places::Place;
use calls::calls::Call;
use node::ends::{Handle, Side};
use node::head::{Head, NULL};
use node::nodes::NodeRef;
use order::blend::BlendNumber;
use walk::walks::Walk;

pub type BlendCall = Call<BlendNumber, u32, BlendNumber, BlendNumber>;

impl Dice {
    /// A node's number: mostly one of `nodes`, at times none, at times any.
    fn node(&mut self, nodes: u16) -> u16 {
        match self.below(8) {
            0 => NULL,
            1 => self.short(),
            _ => self.below(nodes),
        }
    }

    /// A small number, mostly at most `most`, at times any.
    fn small(&mut self, most: u16) -> u16 {
        match self.below(10) {
            0 => self.short(),
            _ => self.below(most.saturating_add(1)),
        }
    }

    /// Anything as a head.
    pub fn head(&mut self, nodes: u16) -> Head {
        let mut head = Head {
            parent: self.node(nodes),
            place: self.small(12),
            len: self.small(12),
            edges: [0; 12],
        };
        for idx in 0..12usize {
            head.edges[idx] = self.node(nodes);
        }
        head
    }

    pub fn key(&mut self) -> BlendNumber {
        BlendNumber::from(self.below(60) as u32)
    }

    pub fn side(&mut self) -> Side {
        if self.once_in(2) {
            Side::First
        } else {
            Side::Last
        }
    }

    fn edge(&mut self, nodes: u16) -> Handle {
        Handle {
            node: self.node(nodes),
            idx: self.small(12),
        }
    }

    /// Anything as what stands in a place.
    pub fn place(&mut self, nodes: u16) -> Place {
        match self.below(5) {
            0 => Place::Bare,
            1 | 2 => Place::Tree {
                root: NodeRef {
                    node: self.node(nodes),
                    height: self.small(6),
                },
                count: self.count(),
            },
            _ => Place::Walk(self.walk(nodes)),
        }
    }

    fn count(&mut self) -> usize {
        match self.below(6) {
            0 => self.word() as usize,
            _ => self.below(100) as usize,
        }
    }

    pub fn walk(&mut self, nodes: u16) -> Walk {
        Walk {
            front: self.edge(nodes),
            back: self.edge(nodes),
            left: self.count(),
        }
    }

    /// Any call, on one of the sixteen places or beyond them.
    pub fn call(&mut self) -> BlendCall {
        let place = self.below(18) as usize;
        match self.below(13) {
            0 | 1 | 2 => Call::Insert {
                place,
                key: self.key(),
                value: self.word(),
            },
            3 => Call::Lookup {
                place,
                query: self.key(),
            },
            4 => Call::Count { place },
            5 => Call::Cut {
                place,
                other: self.below(18) as usize,
                query: self.key(),
            },
            6 => Call::Open { place },
            7 | 8 => Call::Step {
                place,
                side: self.side(),
            },
            9 => Call::Close { place },
            10 => Call::Release { place },
            11 => Call::Least {
                place,
                query: self.key(),
            },
            _ => Call::Audit,
        }
    }
}
