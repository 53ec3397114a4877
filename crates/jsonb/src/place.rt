//! Where the reading of a container stands.

ghost use Rattle.std.specs.Prelude.{◌+◌, ◌*◌, ◌<◌, ◌^◌, length};

/// Where the reading of a container stands: before the entry word of an item, and before its piece. A walk over the items
/// keeps the two sums below.
#[derive(Clone, Copy)]
pub struct Place<'a> {
    /// The number of the item.
    pub index: usize,
    /// How many bytes of the payload are behind.
    pub at: usize,
    /// The entry words that are left.
    pub words: &'a [u8],
    /// What is left of the payload.
    pub rest: &'a [u8],
    ghost words_fit: { 4 * index + length words.now < 2 ^ 60 },
    ghost payload_fits: { at + length rest.now < 2 ^ 28 },
}

impl<'a> Default for Place<'a> {
    /// Before nothing.
    fn default() -> Place<'a> {
        Place {
            index: 0,
            at: 0,
            words: &[],
            rest: &[],
        }
    }
}
