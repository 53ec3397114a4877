//! Nodes of items.

ghost use Rattle.std.specs.Prelude.{◌≡◌, ◌+◌, ◌<◌, ◌≤◌, ◌^◌, length, Some};
ghost use Rattle.jsonb_layout.specs.Seats.{where_it_is};
ghost use Rattle.jsonb_layout.specs.inner.SeatReading.{seat_of};
ghost use Rattle.jsonb_layout.specs.inner.Trees.{item_tree};
ghost use Rattle.jsonb.specs.Nodes.{node_tree};
ghost use Rattle.jsonb.specs.Seated.{node_seat};
ghost use Rattle.jsonb.specs.inner.Values.{IsJsonTree, own_of, HasPad};

use crate::item::Item;
use crate::kind::Kind;
use crate::node::JsonbNode;

/// A piece without its padding.
fn own_bytes(kind: Kind, at: usize, piece: &[u8]) -> &[u8]
    requires { HasPad kind at piece.now }
    ensures own { result.now ≡ own_of kind at piece.now }
    ensures length { length result.now ≤ length piece.now }
{
    match kind {
        Kind::Number | Kind::Container => {
            let (_, own) = piece.split_at((4 - at % 4) % 4);
            own
        }
        _ => piece,
    }
}

/// The byte of the root's slice where a value is: where its own bytes begin, or its entry word where it has none.
fn offset_of(own: &[u8], word_begin: usize, own_begin: usize) -> usize
    ensures { result ≡ where_it_is own.now word_begin own_begin }
{
    if own.is_empty() {
        word_begin
    } else {
        own_begin
    }
}

/// The node of an item that was read before. In the root's slice its entry word begins at `word_begin` and its piece at
/// `piece_begin`; in the payload of its container the piece is at `at`. Nothing is validated again.
pub fn node_of(word_begin: usize, piece_begin: usize, at: usize, item: Item<'_>) -> JsonbNode<'_>
    requires before { word_begin ≤ piece_begin }
    requires room { piece_begin + length item.piece < 2 ^ 64 }
    requires stands { IsJsonTree (item_tree at item) }
    ensures tree { Some (node_tree result) ≡ item_tree at item.entry }
    ensures seat { node_seat result ≡ seat_of word_begin piece_begin at item.entry }
{
    let Some(kind) = item.kind() else {
        unreachable!()
    };
    let piece = item.piece();
    let bytes = own_bytes(kind, at, piece);
    let own_begin = piece_begin + (piece.len() - bytes.len());
    let offset = offset_of(bytes, word_begin, own_begin);
    JsonbNode {
        offset,
        kind,
        bytes,
    }
}
