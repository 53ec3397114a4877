//! Laws of the grammar, for all bytes. Each function but [`are_one_place`] does nothing: its contract is what it is for.

ghost use Rattle.std.specs.Int.{w32, from_le_bytes};
ghost use Rattle.std.specs.Prelude.{◌≡◌, ◌≤◌, ◌+◌, ◌/◌, ◌%◌, ◌^◌, ◌++◌, [], ◌∷◌, ℕ, List, Some, length, take, drop, IsTrue, ◌↔◌};
ghost use Rattle.json_model.specs.Rising.{KeysRise};
ghost use Rattle.json_model.specs.Tree.{Tree};
ghost use Rattle.jsonb_encode.specs.Canonical.{IsCanonical, SeatIsCanonical};
ghost use Rattle.jsonb_encode.specs.Encoded.{canonical};
ghost use Rattle.jsonb_layout.specs.Seats.{Seat, Holds, IsRoot, IsSeat, SeatStands, pair_of, tree_at};
ghost use Rattle.jsonb_layout.specs.Stands.{Stands};
ghost use Rattle.jsonb.specs.Nodes.{node_tree};
ghost use Rattle.jsonb.specs.Seated.{node_identity, node_seat};

use crate::node::JsonbNode;
use json_traits::Node;

/// No bytes stand for two trees.
pub fn one_tree(bytes: &[u8])
    ensures { (t u : Tree) → Stands bytes.now t → Stands bytes.now u → t ≡ u }
{
    let _length = bytes.len();
}

/// Bytes that stand for a tree stand for none when more bytes follow them.
pub fn no_more(bytes: &[u8], more: &[u8])
    ensures { (t u : Tree) → Stands bytes.now t → Stands (bytes.now ++ more.now) u → more.now ≡ [] }
{
    let _length = bytes.len();
    let _more = more.len();
}

/// Bytes that stand for a tree stand for none when they are cut short.
pub fn no_less(bytes: &[u8], cut: usize)
    ensures { (t u : Tree) → Stands bytes.now t → Stands (take cut bytes.now) u
        → length bytes.now ≤ cut }
{
    let _length = bytes.len();
    let _cut = cut;
}

/// In each tree that bytes stand for, the keys of every object rise.
pub fn keys_rise(bytes: &[u8])
    ensures { (t : Tree) → Stands bytes.now t → KeysRise t }
{
    let _length = bytes.len();
}

/// Of bytes that stand for a tree, each place of the tree has a seat, and each seat is that of a place. What lies there stands
/// for the tree at the place. Its own bytes are in the bytes where it is; where it has none, a word with its kind is there. A
/// value in a value is one step deeper.
pub fn each_place_has_a_seat(bytes: &[u8])
    ensures some { (t u : Tree) (way : List ℕ) → Stands bytes.now t → tree_at way t ≡ Some u
        → (s : Seat) × IsSeat bytes.now way s × SeatStands s u }
    ensures only { (t : Tree) (way : List ℕ) (s : Seat) → Stands bytes.now t
        → IsSeat bytes.now way s → (u : Tree) × (tree_at way t ≡ Some u) × SeatStands s u }
    ensures deeper { (way : List ℕ) (s c : Seat) (i : ℕ) → IsSeat bytes.now way s → Holds s i c
        → IsSeat bytes.now (way ++ i ∷ []) c }
    ensures there { (way : List ℕ) (s : Seat) → IsSeat bytes.now way s
        → take (length s.bytes) (drop s.at bytes.now) ≡ s.bytes }
    ensures word { (way : List ℕ) (s : Seat) → IsSeat bytes.now way s → s.bytes ≡ []
        → (s.at + 4 ≤ length bytes.now)
        × (from_le_bytes w32 (take 4 (drop s.at bytes.now)) / 2 ^ 28 % 8 ≡ s.kind) }
{
    let _length = bytes.len();
}

/// A place has one seat. Two different places have different pairs of numbers: they are at different bytes.
pub fn places_differ(bytes: &[u8])
    ensures one { (way : List ℕ) (s r : Seat) → IsSeat bytes.now way s
        → IsSeat bytes.now way r → s ≡ r }
    ensures bytes { (v w : List ℕ) (s r : Seat) → IsSeat bytes.now v s → IsSeat bytes.now w r
        → s.at ≡ r.at → v ≡ w }
    ensures apart { (v w : List ℕ) (s r : Seat) → IsSeat bytes.now v s → IsSeat bytes.now w r
        → pair_of s ≡ pair_of r → v ≡ w }
{
    let _length = bytes.len();
}

/// A node that lies where a place of the root's tree does stands for the tree at the place.
pub fn a_node_has_the_tree_of_its_place(root: &[u8], node: &JsonbNode<'_>)
    ensures { (t : Tree) (way : List ℕ) → Stands root.now t
        → IsSeat root.now way (node_seat node.now) → tree_at way t ≡ Some (node_tree node.now) }
{
    let _length = root.len();
    let _identity = node.identity();
}

/// The node of a whole slice is canonical for its tree exactly where the slice is. The slice then is the canonical bytes of the tree.
/// `Jsonb::root` gives such a node, and `encode::is_canonical` tells whether the node is canonical.
pub fn a_canonical_root_is_a_canonical_slice(root: &[u8], node: &JsonbNode<'_>)
    ensures slice { (t : Tree) → Stands root.now t → IsRoot root.now (node_seat node.now)
        → (SeatIsCanonical (node_seat node.now) (node_tree node.now) ↔ IsCanonical root.now t) }
    ensures bytes { (t : Tree) → Stands root.now t → IsRoot root.now (node_seat node.now)
        → SeatIsCanonical (node_seat node.now) (node_tree node.now) → root.now ≡ canonical t }
{
    let _length = root.len();
    let _identity = node.identity();
}

/// Canonical slices are equal exactly where their trees are, written fraction digits included.
pub fn canonical_slices_are_equal_by_their_trees()
    ensures { (t u : Tree) (a b : List ℕ) → IsCanonical a t → IsCanonical b u → ((a ≡ b) ↔ (t ≡ u)) }
{}

/// Whether two nodes of one root are the same place of its tree, which is told by their identities: these are the same
/// exactly where the places are.
pub fn are_one_place(root: &[u8], left: &JsonbNode<'_>, right: &JsonbNode<'_>) -> bool
    ensures told { (v w : List ℕ) → IsSeat root.now v (node_seat left.now)
        → IsSeat root.now w (node_seat right.now) → (IsTrue result ↔ (v ≡ w)) }
    ensures identities { (v w : List ℕ) → IsSeat root.now v (node_seat left.now)
        → IsSeat root.now w (node_seat right.now)
        → ((node_identity left.now ≡ node_identity right.now) ↔ (v ≡ w)) }
{
    let _length = root.len();
    match (left.identity(), right.identity()) {
        (Some(left), Some(right)) => left == right,
        _ => false,
    }
}
