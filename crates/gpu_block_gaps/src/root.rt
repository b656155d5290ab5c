//! The roots of the classes, in 4 bytes each.

ghost use Rattle.std.specs.Prelude.{◌≡◌, Some, None, IfSome, IsSome};
ghost use Rattle.gpu_block_gaps.specs.Packed.{IsSmall};

use crate::packed::Packed;
use crate::tree::Node;
use std::marker::Model;

/// The number that is no node.
const EMPTY: u32 = u32::MAX;

/// The root of a class's tree, if it has one: a node as one number, or the number of none.
#[derive(Clone, Copy)]
pub struct Root {
    bits: u32,
}

impl Model for Root {
    ghost use Rattle.std.specs.Prelude.{Option, ◌<◌, ◌^◌};
    ghost use Rattle.gpu_block_gaps.specs.declared.tree.Node.{Node};
    ghost use Rattle.gpu_block_gaps.specs.Packed.{node_if, number_if, number_if_again};

    ghost Value = { Option Node };

    ghost view = { λ r. node_if r.bits };

    ghost invariant = { λ r. r.bits < 2 ^ 32 };

    ghost inverse = { λ o. record { bits = number_if o } };

    ghost inverse_ok = { λ r h i. record { bits = number_if_again r.bits i } };
}

impl Root {
    /// No root.
    pub fn empty() -> Root
        ensures { result ≡ None }
    {
        Root { bits: EMPTY }
    }

    /// The root that is a node.
    #[inline(always)]
    pub fn at(node: Node) -> Root
        requires { IsSmall node }
        ensures { result ≡ Some node }
    {
        Root {
            bits: Packed::new(node).bits,
        }
    }

    /// The node, if there is one.
    #[inline(always)]
    pub fn node(self) -> Option<Node>
        ensures is { result ≡ self }
        ensures small { IfSome result IsSmall }
    {
        if self.bits == EMPTY {
            return None;
        }
        Some(self.node_there())
    }

    /// The node of a root that is one.
    #[inline(always)]
    pub fn node_there(self) -> Node
        requires { IsSome self }
        ensures is { self ≡ Some result }
        ensures small { IsSmall result }
    {
        Packed { bits: self.bits }.node()
    }
}
