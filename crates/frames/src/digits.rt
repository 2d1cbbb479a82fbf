// Hexadecimal digits: the digit of a number, the number of a digit, the byte that two digits make.
ghost use Rattle.std.specs.Prelude.{◌≡◌, ◌+◌, ◌<◌, get_or, unwrap_or, IfSome, MatchOption};
ghost use Rattle.pages.specs.Frames.{hex_of, digit_of};
ghost use Rattle.frames.specs.Lines.{TwoDigits, ByteRead, CountRead};

// The digit of a number below 16.
pub fn hex(n: u8) -> u8
    requires { n < 16 }
    ensures { result ≡ hex_of n }
{
    if n < 10 { b'0' + n } else { b'a' + (n - 10) }
}

// The number of a digit.
pub fn digit(byte: u8) -> Option<u8>
    ensures value { unwrap_or result 16 ≡ digit_of byte }
    ensures small { IfSome result (λ d. d < 16) }
{
    match byte {
        b'0'..=b'9' => Some(byte - b'0'),
        b'a'..=b'f' => Some(byte - b'a' + 10),
        _ => None,
    }
}

// What stands at a place of the text. It is 0 past its end, as in the definitions, which read a text of any length; no digit is 0.
pub fn char_at(text: &[u8], i: usize) -> u8
    ensures { result ≡ get_or text.now i 0 }
{
    text.get(i).copied().unwrap_or(0)
}

// The byte whose two digits stand at a place, where two digits stand there.
pub fn byte_at(text: &[u8], i: usize) -> Option<u8>
    requires { i < 65536 }
    ensures { MatchOption result (TwoDigits text.now i → ⊥) (ByteRead text.now i) }
{
    let high = digit(char_at(text, i))?;
    let low = digit(char_at(text, i + 1))?;
    Some(high * 16 + low)
}

// The number in the two bytes that stand at a place.
pub fn count_at(text: &[u8], i: usize) -> Option<usize>
    requires { i < 65534 }
    ensures { MatchOption result (TwoDigits text.now i → TwoDigits text.now (i + 2) → ⊥) (CountRead text.now i) }
{
    let high = byte_at(text, i)?;
    let low = byte_at(text, i + 2)?;
    Some(usize::from(u16::from_be_bytes([high, low])))
}
