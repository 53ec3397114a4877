//! Laws of counting, for all texts. Each function does nothing: its contract is what it is for.

ghost use Rattle.std.specs.Prelude.{◌≡◌, length, count_by};
ghost use Rattle.std.specs.Str.{chars};
ghost use Rattle.bytecount.specs.Bytes.{begins_char};

/// A text has as many code points as bytes whose top two bits are not 10.
pub fn chars_are_counted(text: &str)
    ensures { count_by begins_char text.now ≡ length (chars text.now) }
{
    let _length = text.len();
}
