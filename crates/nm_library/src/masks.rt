//! Sets of nodes as C has them.

ghost use Rattle.std.specs.Prelude.{◌≡◌};
ghost use Rattle.nm_types.specs.Nodes.{members};

use nm_types::{NodeId, NodeMask};

/// The nodes whose bits are set.
pub fn mask_of(bits: u64) -> NodeMask
    ensures { result ≡ members bits }
{
    let mut mask = NodeMask::new();
    for node in 0..64u32 {
        if (bits >> node) & 1 == 1 {
            mask.insert(NodeId::new(node));
        }
    }
    mask
}
