//! A number in a slice.

ghost use Rattle.std.specs.Prelude.{◌≡◌, ◌<◌, ◌^◌, length};
ghost use Rattle.jsonb.specs.inner.Values.{value_of, IsJsonTree};
ghost use Rattle.jsonb.specs.declared.kind.Kind.TheVariants as kinds;

use crate::numeric::{header, varlena, weight_of};
use json_exact::{Decimal, Number};
use json_traits::{HasTree, JsonNumber};

/// A number in a slice: the bytes of its varlena. It borrows the slice.
#[derive(Clone, Copy)]
pub struct JsonbNumber<'a> {
    pub(crate) bytes: &'a [u8],
    ghost stands: { IsJsonTree (value_of kinds.Number bytes.now) },
    ghost short: { length bytes.now < 2 ^ 28 },
}

impl HasTree for JsonbNumber<'_> {
    ghost use Rattle.jsonb.specs.Nodes.{number_tree};

    ghost tree = { number_tree };
}

impl JsonNumber for JsonbNumber<'_> {
    /// The exact value, with the fraction digits that are written: 1.50 has two, and 1.5 has one.
    ///
    /// It looks at each group once, takes no memory and validates nothing again.
    fn to_number(&self) -> Number {
        let Some(body) = varlena(self.bytes) else {
            unreachable!()
        };
        let Some((header, groups)) = header(body) else {
            unreachable!()
        };
        let Some(decimal) = Decimal::from_groups(header.minus, weight_of(header.lift), groups)
        else {
            unreachable!()
        };
        Number::new(decimal, header.dscale)
    }
}
