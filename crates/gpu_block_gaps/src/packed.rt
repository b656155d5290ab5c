//! Nodes in 4 bytes.

ghost use Rattle.std.specs.Prelude.{◌≡◌, ◌<◌, ◌^◌};
ghost use Rattle.gpu_block_gaps.specs.Packed.{IsSmall};

use crate::tree::Node;
use std::marker::Model;

/// The bit that tells a leaf.
const LEAF: u32 = 1 << 31;

/// A node as one number.
#[derive(Clone, Copy)]
pub struct Packed {
    pub(crate) bits: u32,
}

impl Model for Packed {
    ghost use Rattle.std.specs.Prelude.{◌<◌, ◌-◌, ◌^◌};
    ghost use Rattle.gpu_block_gaps.specs.declared.tree.Node.{Node};
    ghost use Rattle.gpu_block_gaps.specs.Packed.{node_of, number_of, number_again};

    ghost Value = { Node };

    ghost view = { λ p. node_of p.bits };

    ghost invariant = { λ p. p.bits < 2 ^ 32 - 1 };

    ghost inverse = { λ n. record { bits = number_of n } };

    ghost inverse_ok = { λ p h i. record { bits = number_again p.bits i } };
}

impl Packed {
    /// The number of a node.
    #[inline(always)]
    pub fn new(node: Node) -> Packed
        requires { IsSmall node }
        ensures { result ≡ node }
    {
        let bits = match node {
            Node::Leaf(leaf) => LEAF + leaf,
            Node::Branch(slot) => slot,
        };
        Packed { bits }
    }

    /// The node.
    #[inline(always)]
    pub fn node(self) -> Node
        ensures is { result ≡ self }
        ensures small { IsSmall result }
    {
        if self.bits < LEAF {
            Node::Branch(self.bits)
        } else {
            Node::Leaf(self.bits - LEAF)
        }
    }
}
