//! The bytes of a number.

ghost use Rattle.std.specs.Prelude.{ℕ, ◌+◌, ◌-◌, ◌*◌, ◌%◌, ◌≡◌, ◌<◌, ◌≤◌, ◌^◌, length, not, option_map, IfSome, IsTrue, ◌==◌, ◌&&◌};
ghost use Rattle.json_exact.specs.Groups.{lifted};
ghost use Rattle.jsonb_layout.specs.inner.Narrow.{is_narrow};
ghost use Rattle.jsonb_layout.specs.inner.Reading.{varlena_of, header_of, numeric_of};
ghost use Rattle.jsonb.specs.inner.Groups.{groups_fit_of, rest_of};

use jsonb_layout::Header;

/// The power of 10000 that the first group counts: 2^15 less than the lifted weight.
pub fn weight_of(lift: u16) -> i16
    ensures { lifted result ≡ lift }
{
    (lift as i32 - 0x8000) as i16
}

/// The bytes behind the varlena header.
#[tactic(auto, unfolding(jsonb_layout::specs::inner::Reading::varlena_of))]
pub fn varlena(bytes: &[u8]) -> Option<&[u8]>
    requires { length bytes.now < 2 ^ 28 }
    ensures read { option_map (λ x. x.now) result ≡ varlena_of bytes.now }
    ensures len { IfSome result (λ x. length x.now ≤ length bytes.now) }
{
    if !bytes.is_empty() && bytes[0] % 2 == 1 {
        if bytes[0] as usize == 2 * bytes.len() + 1 {
            Some(&bytes[1..])
        } else {
            None
        }
    } else if bytes.len() >= 4
        && u32::from_le_bytes([bytes[0], bytes[1], bytes[2], bytes[3]]) as usize
            == 4 * bytes.len()
    {
        Some(&bytes[4..])
    } else {
        None
    }
}

/// The numeric header, and the bytes of the groups behind it.
#[tactic(auto, unfolding(jsonb_layout::specs::inner::Reading::header_of))]
pub fn header(bytes: &[u8]) -> Option<(Header, &[u8])>
    ensures read { option_map (λ r. (r.0, r.1.now)) result ≡ header_of bytes.now }
    ensures len { IfSome result (λ r. length r.1.now ≤ length bytes.now) }
{
    if bytes.len() < 2 {
        return None;
    }
    let word = u16::from_le_bytes([bytes[0], bytes[1]]);
    if word < 0x8000 {
        if bytes.len() < 4 {
            return None;
        }
        let weight = u16::from_le_bytes([bytes[2], bytes[3]]);
        let lift = if weight < 0x8000 {
            0x8000 + weight
        } else {
            weight - 0x8000
        };
        Some((
            Header {
                minus: word >= 0x4000,
                dscale: word % 0x4000,
                lift,
            },
            &bytes[4..],
        ))
    } else if word < 0xc000 {
        let seven = word % 128;
        let lift = if seven < 64 {
            0x8000 + seven
        } else {
            0x7f80 + seven
        };
        Some((
            Header {
                minus: word / 0x2000 % 2 == 1,
                dscale: word / 128 % 64,
                lift,
            },
            &bytes[2..],
        ))
    } else {
        None
    }
}

/// Whether the bytes are numbers below 10000, of two bytes each.
#[tactic(auto, unfolding(jsonb_layout::specs::inner::Reading::groups_of))]
fn groups_fit(bytes: &[u8]) -> bool
    ensures { result ≡ groups_fit_of bytes.now }
{
    let mut rest = bytes;
    while let [low, high, after @ ..] = rest {
        if *low as u32 + 256 * *high as u32 >= 10000 {
            return false;
        }
        rest = after;
    }
    rest.is_empty()
}

/// How many zero digits a group ends with.
fn zeros(group: usize) -> usize
    requires pos { 0 < group }
    requires fits { group < 10000 }
    ensures few { result ≤ 3 }
    ensures last { (q : ℕ) × (group ≡ q * 10 ^ result) × (q % 10 ≡ 0 → ⊥) }
{
    if group % 10 != 0 {
        return 0;
    }
    if group % 100 != 0 {
        return 1;
    }
    if group % 1000 != 0 {
        return 2;
    }
    3
}

/// How many digits a group has.
fn digits(group: usize) -> usize
    requires pos { 0 < group }
    requires fits { group < 10000 }
    ensures some { 1 ≤ result }
    ensures few { result ≤ 4 }
    ensures least { 10 ^ (result - 1) ≤ group }
    ensures most { group < 10 ^ result }
{
    if group < 10 {
        1
    } else if group < 100 {
        2
    } else if group < 1000 {
        3
    } else {
        4
    }
}

/// Whether the number is narrow, or none where there is a digit past its fraction digits.
fn decide(header: Header, groups: &[u8]) -> Option<bool>
    requires len { length groups.now < 2 ^ 28 }
    requires some { 0 < length groups.now }
    requires fit { IsTrue (groups_fit_of groups.now) }
    ensures { result ≡ rest_of header groups.now }
{
    if groups.len() < 2 {
        return None;
    }
    let count = groups.len() / 2;
    let first = groups[0] as usize + 256 * groups[1] as usize;
    let last = groups[groups.len() - 2] as usize + 256 * groups[groups.len() - 1] as usize;
    if first == 0 {
        return None;
    }
    if last == 0 {
        return None;
    }
    let zeros = zeros(last);
    let digits = digits(first);
    let room = header.dscale as usize + zeros + 4 * (header.lift as usize + 1);
    if 4 * (count + 0x8000) > room {
        return None;
    }
    Some(4 * (count - 1) + digits <= 38 + zeros)
}

/// Whether the header is that of 0.
fn is_zero(header: Header) -> bool
    ensures { result ≡ ((header.lift == 2 ^ 15) && not header.minus) }
{
    header.lift == 0x8000 && !header.minus
}

/// Whether the number is narrow, or none where the bytes are no number.
#[inline(never)]
pub fn narrow_number(bytes: &[u8]) -> Option<bool>
    requires { length bytes.now < 2 ^ 28 }
    ensures { result ≡ option_map is_narrow (numeric_of bytes.now) }
{
    let body = varlena(bytes)?;
    let (header, groups) = header(body)?;
    if !groups_fit(groups) {
        return None;
    }
    if groups.is_empty() {
        if is_zero(header) { Some(true) } else { None }
    } else {
        decide(header, groups)
    }
}
