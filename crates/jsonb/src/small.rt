//! Numbers of one or two groups behind a length header of four bytes, as PostgreSQL and `encode` write them.

ghost use Rattle.std.specs.Prelude.{◌≡◌, ◌+◌, ◌-◌, ◌*◌, ◌/◌, ◌%◌, ◌^◌, ◌<◌, ◌≤◌, length, take, drop, Some, option_map, IsTrue, true};
ghost use Rattle.std.specs.Int.{w64, from_le_bytes};
ghost use Rattle.jsonb_layout.specs.inner.Narrow.{is_narrow};
ghost use Rattle.jsonb_layout.specs.inner.Reading.{varlena_of, numeric_of};
ghost use Rattle.jsonb.specs.Found.{nothing};
ghost use Rattle.jsonb.specs.inner.Widths.{number_found};

/// The first eight bytes as one number, of which the first counts least.
#[inline(always)]
fn front(piece: &[u8]) -> u64
    requires { 8 ≤ length piece.now }
    ensures { result ≡ from_le_bytes w64 (take 8 piece.now) }
{
    u64::from_le_bytes([
        piece[0], piece[1], piece[2], piece[3], piece[4], piece[5], piece[6], piece[7],
    ])
}

/// Whether eight bytes, as one number, are so many zero bytes and then a length header of four bytes.
#[inline(always)]
fn begins(front: u64, pad: usize, header: u64) -> bool
    requires pad { pad < 4 }
    requires header { header < 2 ^ 32 }
    ensures { IsTrue result → (front % 2 ^ (8 * pad) ≡ 0) × (front / 2 ^ (8 * pad) % 2 ^ 32 ≡ header) }
{
    front << (32 - 8 * pad as u32) == header << 32
}

/// Whether a header word is of the short form, with a weight of 0 or more.
#[inline(always)]
fn is_plain(word: u16) -> bool
    ensures { IsTrue result
        → (2 ^ 15 ≤ word) × (word < 2 ^ 15 + 2 ^ 14) × (word % 128 < 64) }
{
    (word >= 0x8000) & (word < 0xc000) & (word % 128 < 64)
}

/// Whether a group can be the first or the last.
#[inline(always)]
fn is_group(group: u16) -> bool
    ensures { IsTrue result → (0 < group) × (group < 10000) }
{
    (group > 0) & (group < 10000)
}

/// Whether the last of two groups ends with zero digits where it goes past the digits that a header word counts behind the first group:
/// its fraction digits, and four for each power of 10000 in the weight.
#[inline(always)]
fn is_within(word: u16, last: u16) -> bool
    ensures { IsTrue result → last % 10 ^ (4 - (word / 128 % 64 + 4 * (word % 128))) ≡ 0 }
{
    match word / 128 % 64 + 4 * (word % 128) {
        0 => false,
        1 => last % 1000 == 0,
        2 => last % 100 == 0,
        3 => last % 10 == 0,
        _ => true,
    }
}

/// Whether bytes with a length header of four bytes are a number of one group, in the short form and with no digit past its fraction
/// digits. The length header itself is not looked at.
#[inline(always)]
fn is_one_group(bytes: &[u8]) -> bool
    requires { length bytes.now ≡ 8 }
    ensures { IsTrue result → varlena_of bytes.now ≡ Some (drop 4 bytes.now) → option_map is_narrow (numeric_of bytes.now) ≡ Some true }
{
    is_plain(u16::from_le_bytes([bytes[4], bytes[5]]))
        & is_group(u16::from_le_bytes([bytes[6], bytes[7]]))
}

/// Whether bytes with a length header of four bytes are a number of two groups, in the short form and with no digit past its fraction
/// digits. The length header itself is not looked at.
#[inline(always)]
fn are_two_groups(bytes: &[u8]) -> bool
    requires { length bytes.now ≡ 10 }
    ensures { IsTrue result → varlena_of bytes.now ≡ Some (drop 4 bytes.now) → option_map is_narrow (numeric_of bytes.now) ≡ Some true }
{
    let word = u16::from_le_bytes([bytes[4], bytes[5]]);
    let last = u16::from_le_bytes([bytes[8], bytes[9]]);
    let fit = is_plain(word) & is_group(u16::from_le_bytes([bytes[6], bytes[7]])) & is_group(last);
    fit && is_within(word, last)
}

/// Whether a piece at a place of the payload is a number that is told at once: zero bytes up to a multiple of four, a length header of
/// four bytes, the short form, and one or two groups with no digit past the fraction digits. What is not told here is read group by group.
#[inline(always)]
pub fn is_small_number(at: usize, piece: &[u8]) -> bool
    ensures { IsTrue result → number_found at piece.now ≡ Some nothing }
{
    if piece.len() < 8 {
        return false;
    }
    let pad = (4 - at % 4) % 4;
    let front = front(piece);
    let (_, bytes) = piece.split_at(pad);
    if bytes.len() == 8 {
        return begins(front, pad, 32) & is_one_group(bytes);
    }
    if bytes.len() == 10 {
        return begins(front, pad, 40) && are_two_groups(bytes);
    }
    false
}
