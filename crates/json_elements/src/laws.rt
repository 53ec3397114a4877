//! A law of the numbers of elements. The function answers nothing: its contract is what it is for.

ghost use Rattle.std.specs.Prelude.{◌≡◌};
ghost use Rattle.json_model.specs.Rising.{KeysRise};
ghost use Rattle.json_model.specs.Same.{Same};
ghost use Rattle.json_model.specs.Tree.{Tree};
ghost use Rattle.json_elements.specs.Number.{element_number};

/// Trees that are the same have the same number, if their keys rise at each level. Those of every node do, so equal elements have the
/// same number, whatever holds them.
pub fn the_same_have_one_number()
    ensures { (t u : Tree) → KeysRise t → KeysRise u → Same t u
        → element_number t ≡ element_number u }
{}
