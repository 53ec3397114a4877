//! `NodeIdentity`: what tells one place of a document from another.

ghost use Rattle.std.specs.Prelude.{◌≡◌};
ghost use Rattle.json_traits.specs.Identities.{pair};

/// What tells a node from the nodes of other places under the same root, where the representation tells places apart: an
/// address and a tag, which have a meaning for the representation alone. Two identities are equal exactly where both numbers
/// are equal. Nodes of different roots are not told apart.
#[derive(Debug, Clone, Copy, PartialEq, Eq, Hash)]
pub struct NodeIdentity {
    address: usize,
    tag: u32,
}

impl NodeIdentity {
    /// The identity of an address, with the tag 0.
    pub fn new(address: usize) -> Self
        ensures { pair result ≡ (address, 0) }
    {
        NodeIdentity { address, tag: 0 }
    }

    /// The identity of an address and a tag.
    pub fn tagged(address: usize, tag: u32) -> Self
        ensures { pair result ≡ (address, tag) }
    {
        NodeIdentity { address, tag }
    }
}
