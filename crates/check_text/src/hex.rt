// Bytes spelt in hexadecimal digits.
ghost use Rattle.std.specs.Prelude.{◌<◌, IfSome};
ghost use Rattle.std.specs.Counts.{IsPrefixLen};

// The value of a hexadecimal digit.
pub fn digit(byte: u8) -> Option<u8>
    ensures { IfSome result (λ d. d < 16) }
{
    match byte {
        b'0'..=b'9' => Some(byte - b'0'),
        b'a'..=b'f' => Some(byte - b'a' + 10),
        b'A'..=b'F' => Some(byte - b'A' + 10),
        _ => None,
    }
}

// The byte that two digits spell.
pub fn byte_of(high: u8, low: u8) -> Option<u8> {
    Some(16 * digit(high)? + digit(low)?)
}

// Puts the bytes that `hex` spells into the front of `out`, the last one first where `reversed`, and answers how many
// they are. It answers `None` where `hex` is odd, has more bytes than there is room for, or is no hexadecimal number.
pub fn bytes_of(hex: &[u8], reversed: bool, out: &mut [u8]) -> Option<usize>
    ensures { IfSome result (λ size. IsPrefixLen size out.new) }
{
    let (pairs, rest) = hex.as_chunks::<2>();
    if !rest.is_empty() {
        return None;
    }
    let bytes = out.get_mut(..pairs.len())?;
    for (byte, [high, low]) in bytes.iter_mut().zip(pairs) {
        *byte = byte_of(*high, *low)?;
    }
    if reversed {
        bytes.reverse();
    }
    Some(pairs.len())
}
