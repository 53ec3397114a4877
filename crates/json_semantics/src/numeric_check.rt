//! Bounds that are kept, and tested on many numbers.

ghost use Rattle.std.specs.Prelude.{◌≡◌, ◌↔◌, Some, IsTrue};
ghost use Rattle.json_exact.specs.Exact.{exactly, IsWorth};
ghost use Rattle.json_semantics.specs.Bounds.{Keeps};

use crate::numeric;
use json_exact::{Decimal, Number};

/// How a number has to stand to a limit: JSON Schema Validation 2020-12, sections 6.2.2 to 6.2.5.
#[derive(Clone, Copy, Debug, PartialEq, Eq, Hash)]
pub enum BoundOp {
    /// Below it, as `exclusiveMaximum` asks.
    Lt,
    /// At most it, as `maximum` asks.
    Lte,
    /// Above it, as `exclusiveMinimum` asks.
    Gt,
    /// At least it, as `minimum` asks.
    Gte,
}

impl BoundOp {
    ghost use Rattle.json_semantics.specs.BoundCodes.{code_of};
    ghost use Rattle.json_semantics.specs.declared.numeric_check.BoundOp.{BoundOp};

    /// The bound of a code: 0 to 3, in the order above. Other codes have none.
    pub fn from_u8(value: u8) -> Option<Self>
        ensures { (op : BoundOp) → (result ≡ Some op) ↔ (value ≡ code_of op) }
    {
        match value {
            0 => Some(BoundOp::Lt),
            1 => Some(BoundOp::Lte),
            2 => Some(BoundOp::Gt),
            3 => Some(BoundOp::Gte),
            _ => None,
        }
    }
}

/// A bound with its limit.
#[derive(Clone, Debug, PartialEq, Drop)]
pub struct CompiledBound {
    /// How a number has to stand to the limit.
    pub op: BoundOp,
    /// The limit.
    pub limit: Decimal,
}

/// The bound with the value of a number for its limit.
pub fn compile_bound(op: BoundOp, limit: &Number) -> CompiledBound
    ensures op { result.op ≡ op }
    ensures limit { IsWorth result.limit limit.now }
{
    CompiledBound {
        op,
        limit: limit.decimal(),
    }
}

/// Whether a number keeps a bound.
pub fn check_bound(compiled: &CompiledBound, value: &Number) -> bool
    ensures { IsTrue result ↔ Keeps compiled.now.op value.now (exactly compiled.now.limit) }
{
    let limit = compiled.limit;
    match compiled.op {
        BoundOp::Lt => numeric::lt(value, limit),
        BoundOp::Lte => numeric::le(value, limit),
        BoundOp::Gt => numeric::gt(value, limit),
        BoundOp::Gte => numeric::ge(value, limit),
    }
}
