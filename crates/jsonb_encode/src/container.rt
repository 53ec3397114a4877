//! Containers of other things than values.

ghost use Rattle.std.specs.Prelude.{◌≡◌, ◌⊎◌, ◌^◌, ◌≤◌, ◌<◌, Err, IfOk, IfErr, length, map};
ghost use Rattle.json_model.specs.Tree.{scalar, null, array, object, Elements, member, no_members};
ghost use Rattle.jsonb_layout.specs.Stands.{Stands};
ghost use Rattle.jsonb_encode.specs.Encoded.{canonical};
ghost use Rattle.jsonb_encode.specs.Children.{child_items, AreContainers};
ghost use Rattle.jsonb_encode.specs.Limits.{IsSmall};
ghost use Rattle.jsonb_layout.specs.Layout.{Laid};
ghost use Rattle.jsonb_layout.specs.declared.form.Form.{Form};

use crate::contents::Contents;
use crate::error::EncodeError;
use crate::number_form::NumericForm;
use std::alloc::Global;

/// The bytes of an object whose one key is as given, UTF-8 or not, with null under it. They stand for that raw tree.
///
/// `TooLarge` comes only where the key has 2^28 bytes or more, and no other answer but want of memory comes then.
pub fn encode_raw_key_object(alloc: Global, key: &[u8]) -> Result<Vec<u8>, EncodeError>
    ensures bytes { IfOk result (λ b. b.items ≡ canonical (object (member key.now (scalar null) no_members))) }
    ensures stands { IfOk result (λ b. Stands b.items (object (member key.now (scalar null) no_members))) }
    ensures within { IfOk result (λ _. length key.now < 2 ^ 28) }
    ensures too_large { result ≡ Err EncodeError.TooLarge → 2 ^ 28 ≤ length key.now }
    ensures causes { IfErr result (λ e. (e ≡ EncodeError.TooLarge) ⊎ (e ≡ EncodeError.OutOfMemory)) }
{
    let contents = Contents::KeyAndNull(key);
    contents.encode(alloc, NumericForm::Short)
}

/// The bytes of an array whose elements are containers that are given by their bytes. These are not checked: each is written
/// behind the zeros that bring it to a multiple of four. Where each stands for an array or an object, the bytes stand for the
/// array of these.
///
/// `TooLarge` comes only where there are 2^28 containers or more, or the payload would have 2^28 bytes or more, and no other answer
/// but want of memory comes then.
pub fn encode_array_of(alloc: Global, children: &[Vec<u8>]) -> Result<Vec<u8>, EncodeError>
    ensures laid { IfOk result (λ b. Laid b.items Form.Array (child_items (map (λ c. c.items) children.now) 0)) }
    ensures stands { IfOk result (λ b. (ts : Elements) → AreContainers ts (map (λ c. c.items) children.now) → Stands b.items (array ts)) }
    ensures too_large { result ≡ Err EncodeError.TooLarge
        → ¬ IsSmall (length children.now) (child_items (map (λ c. c.items) children.now) 0) }
    ensures causes { IfErr result (λ e. (e ≡ EncodeError.TooLarge) ⊎ (e ≡ EncodeError.OutOfMemory)) }
{
    let contents = Contents::Containers(children);
    contents.encode(alloc, NumericForm::Short)
}
