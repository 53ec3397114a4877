//! Look-ups whose steps are counted.

ghost use Rattle.std.specs.Prelude.{◌≡◌, ◌≤◌, ◌+◌, ◌*◌, ◌<◌, ◌^◌, length};
ghost use Rattle.json_model.specs.Parts.{pairs_of};
ghost use Rattle.jsonb.specs.Nodes.{object_tree};

use json_traits::{Node, Object};
use jsonb::encode::decode_hex;
use jsonb::{Jsonb, JsonbObject, Steps};
use std::marker::Brand;
use std::sync::ledger::{Blank, Ledger};
use std::test::Fail;

/// The text under a key of an object of fewer than 2^halvings members, in at most 33 steps for each halving, and 34: for two
/// members at most 100 steps, for none 34, and for a thousand 364.
fn text_in_few_steps<'a, L: Ledger>(
    object: &JsonbObject<'a>,
    key: &str,
    halvings: u32,
    steps: &mut Steps<L>,
) -> Option<&'a str>
    requires { length (pairs_of (object_tree object.now)) < 2 ^ halvings }
    ensures { steps.new ≤ steps.old + (33 * halvings + 34) }
{
    object.get_counted(key.as_bytes(), steps)?.as_string()
}

/// The texts under two keys. The steps are those of both look-ups.
fn both_texts<'a, L: Ledger>(
    object: &JsonbObject<'a>,
    halvings: u32,
    blank: Blank,
) -> (Option<&'a str>, Option<&'a str>)
    requires name { blank.name ≡ L.name }
    requires parts { blank.parts ≡ L.parts }
    requires some { 0 < blank.parts }
    requires few { length (pairs_of (object_tree object.now)) < 2 ^ halvings }
{
    let mut steps = Steps::<L>::new(blank);
    let there = text_in_few_steps(object, "bb", halvings, &mut steps);
    let absent = text_in_few_steps(object, "b", halvings, &mut steps);
    (there, absent)
}

#[test]
fn keys_are_found_in_few_steps(rt: HostRuntime) -> Result<(), Fail> {
    let alloc = rt.alloc();
    // {"aa":"aa","bb":"bb"}
    let bytes = decode_hex(
        alloc,
        "02000020020000800200000002000000020000006161626261616262",
    )?;
    let object = Jsonb::root(alloc, &bytes)?.as_object().ok_or("an object")?;
    if object.len() >= 4 {
        panic!(rt; "too many");
    }
    let texts = both_texts::<Brand>(&object, 2, Blank::new(1));
    assert!(rt; texts == (Some("bb"), None));
    Ok(())
}
