//! The forms of a container.

/// What a container is (PostgreSQL, `jsonb.h`: JB_FARRAY, JB_FOBJECT, JB_FSCALAR).
#[derive(Clone, Copy)]
pub enum Form {
    /// An array: each item is an element.
    Array,
    /// An object: the keys come first, and their values behind them.
    Object,
    /// An array of one item, which is a root scalar.
    Lone,
}
