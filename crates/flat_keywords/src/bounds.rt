//! The bounds that numbers keep.

ghost use Rattle.std.specs.Prelude.{◌≡◌, ◌↔◌, IfSome, IsTrue, None};
ghost use Rattle.json_model.specs.Decimal.{Decimal};
ghost use Rattle.json_semantics.specs.declared.numeric_check.BoundOp.{BoundOp};
ghost use Rattle.flat_keywords.specs.inner.Passes.{KeepsAll, IsWithin, bound_at};

use json_exact::Number;
use json_semantics::numeric_check::{BoundOp, CompiledBound, check_bound};

/// The bounds that are set: at most one for each way in which a number can stand to a limit.
#[derive(Drop)]
pub(crate) struct Bounds {
    lt: Option<CompiledBound>,
    lte: Option<CompiledBound>,
    gt: Option<CompiledBound>,
    gte: Option<CompiledBound>,
}

impl Bounds {
    /// No bound is set.
    pub(crate) fn none() -> Bounds
        ensures kept { (x : Decimal) → KeepsAll result x }
        ensures free { (op : BoundOp) → bound_at op result ≡ None }
    {
        Bounds {
            lt: None,
            lte: None,
            gt: None,
            gte: None,
        }
    }

    /// Sets a bound, for whose way none is set yet.
    pub(crate) fn set(&mut self, bound: CompiledBound)
        requires { bound_at bound.op self.old ≡ None }
        ensures kept { (x : Decimal)
            → KeepsAll self.new x ↔ (KeepsAll self.old x × IsWithin bound x) }
        ensures free { (op : BoundOp) → (op ≡ bound.op → ⊥)
            → bound_at op self.new ≡ bound_at op self.old }
    {
        match bound.op {
            BoundOp::Lt => self.lt = Some(bound),
            BoundOp::Lte => self.lte = Some(bound),
            BoundOp::Gt => self.gt = Some(bound),
            BoundOp::Gte => self.gte = Some(bound),
        }
    }

    /// Whether no bound is set, so that every number keeps them.
    pub(crate) fn is_empty(&self) -> bool
        ensures { IsTrue result → (x : Decimal) → KeepsAll self.now x }
    {
        self.lt.is_none() && self.lte.is_none() && self.gt.is_none() && self.gte.is_none()
    }

    /// Whether a number keeps every bound that is set.
    pub(crate) fn are_kept_by(&self, number: &Number) -> bool
        ensures { IsTrue result ↔ KeepsAll self.now number.now }
    {
        keeps(&self.lt, number)
            && keeps(&self.lte, number)
            && keeps(&self.gt, number)
            && keeps(&self.gte, number)
    }
}

/// Whether a number keeps a bound, if it is set.
fn keeps(bound: &Option<CompiledBound>, number: &Number) -> bool
    ensures { IsTrue result ↔ IfSome bound.now (λ b. IsWithin b number.now) }
{
    match bound {
        Some(bound) => check_bound(bound, number),
        None => true,
    }
}
