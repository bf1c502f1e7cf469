//! Sizes, counted up to one more than a kernel may have on any device.
#![tactic(auto)]

ghost use Rattle.std.specs.Prelude.{◌≡◌, suc, min};
ghost use Rattle.clmodel.specs.Tree.{array_bytes};
ghost use Rattle.clmodel.specs.Typing.Sizes as counted;
ghost use Rattle.clmodel.specs.Typing.Sizes.{nothing, leaf, array_size, byte_limit, beside, one_node, one_loop};
ghost use Rattle.cltypes.specs.Limits.{capped, plain};

use clnum::{IntType, Value};
use std::cmp::max;

/// How deep the loops of a kernel may be nested at most, whatever the device.
const LOOP_LIMIT: u32 = 32;

/// How many bytes the private arrays of a kernel may have at most, whatever the device (OpenCL 1.2, section 6.5.4; the
/// limit is this project's own).
const BYTE_LIMIT: u32 = 65_536;

/// How many nodes the body of a kernel may have at most, whatever the device.
pub const NODE_LIMIT: u32 = 1_000_000;

/// How many parameters a function may have (OpenCL 1.2, table 4.3, bounds their bytes; the limit is this project's
/// own).
pub(crate) const PARAMETER_LIMIT: usize = 13_000;

/// How deep the loops of a body are nested, how many bytes its private arrays have, and how many nodes it has; a count
/// above the greatest limit is one more than that limit.
#[derive(Clone, Copy)]
pub struct Size {
    pub loops: u32,
    pub bytes: u32,
    pub nodes: u32,
}

/// How many bytes an array has (OpenCL 1.2, section 6.1.1), up to one more than the private arrays of a
/// kernel may have on any device.
#[tactic(auto, using(crate::proofs::Sums::capped_bytes))]
fn array_bytes(element: IntType, length: Value) -> u32
    ensures { result ≡ min (array_bytes element length) (suc byte_limit) }
{
    let count = length.natural().min(u64::from(BYTE_LIMIT + 1)) as u32;
    (element.bits() / 8 * count).min(BYTE_LIMIT + 1)
}

impl Size {
    /// The size of what holds no node.
    pub(crate) fn nothing() -> Size
        ensures { result ≡ capped nothing }
    {
        Size {
            loops: 0,
            bytes: 0,
            nodes: 0,
        }
    }

    /// The size of a single node.
    pub(crate) fn leaf() -> Size
        ensures { result ≡ capped leaf }
    {
        Size {
            loops: 0,
            bytes: 0,
            nodes: 1,
        }
    }

    /// The size of the declaration of an array: a private one has its bytes (OpenCL 1.2, sections 6.5.2 and 6.5.4).
    pub(crate) fn array(is_local: bool, element: IntType, length: Value) -> Size
        ensures { result ≡ capped (array_size is_local (array_bytes element length)) }
    {
        if is_local {
            Size::leaf()
        } else {
            Size {
                loops: 0,
                bytes: array_bytes(element, length),
                nodes: 1,
            }
        }
    }

    /// This size, with numbers above the greatest limits one more than these.
    pub(crate) fn capped(self) -> Size
        ensures { result ≡ capped (plain self) }
    {
        Size {
            loops: self.loops.min(LOOP_LIMIT + 1),
            bytes: self.bytes.min(BYTE_LIMIT + 1),
            nodes: self.nodes.min(NODE_LIMIT + 1),
        }
    }

    /// The size of one thing beside another.
    pub(crate) fn beside(self, other: Size) -> Size
        ensures { (s t : counted.Size) → self ≡ capped s → other ≡ capped t → result ≡ capped (beside s t) }
    {
        Size {
            loops: max(self.loops, other.loops),
            bytes: self.bytes.saturating_add(other.bytes).min(BYTE_LIMIT + 1),
            nodes: self.nodes.saturating_add(other.nodes).min(NODE_LIMIT + 1),
        }
    }

    /// The size of a node that holds this.
    pub(crate) fn in_node(self) -> Size
        ensures { (s : counted.Size) → self ≡ capped s → result ≡ capped (one_node s) }
    {
        Size {
            loops: self.loops,
            bytes: self.bytes,
            nodes: self.nodes.saturating_add(1).min(NODE_LIMIT + 1),
        }
    }

    /// The size of a loop round this.
    pub(crate) fn in_loop(self) -> Size
        ensures { (s : counted.Size) → self ≡ capped s → result ≡ capped (one_loop s) }
    {
        Size {
            loops: self.loops.saturating_add(1).min(LOOP_LIMIT + 1),
            bytes: self.bytes,
            nodes: self.nodes.saturating_add(1).min(NODE_LIMIT + 1),
        }
    }
}
