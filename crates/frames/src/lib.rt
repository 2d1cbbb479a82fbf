// One frame a line: reading it and writing it.
#![tactic(auto)]

pub mod digits;

ghost use Rattle.std.specs.Prelude.{◌≡◌, ◌+◌, ◌/◌, ◌%◌, ◌<◌, length, get_or, set};
ghost use Rattle.paper.specs.Lists.{pick, all_below, in_front};
ghost use Rattle.pages.specs.Frames.{hex_of, digit_fits, frame_fits, payload, framed, frame};
ghost use Rattle.frames.specs.Lines.{FrameIn, PayloadIn, LineIn, Near};

use crate::digits::{byte_at, char_at, count_at, digit, hex};

// Whether the n bytes from pos on are digits.
fn digits_fit(text: &[u8], pos: usize, n: usize) -> bool
    requires { pos + n < 65536 }
    ensures { result ≡ all_below n (digit_fits text.now pos) }
{
    (0..n).all(|i| digit(char_at(text, pos + i)).is_some())
}

// Whether the line at pos is a frame of this kind with a payload of w bytes.
fn frame_fits(text: &[u8], pos: usize, kind: usize, w: usize) -> bool
    requires { Near pos w }
    ensures { result ≡ frame_fits kind w text.now pos }
{
    let Some(found) = byte_at(text, pos) else {
        return false;
    };
    if usize::from(found) != kind {
        return false;
    }
    if count_at(text, pos + 2) != Some(w) {
        return false;
    }
    if char_at(text, pos + (6 + 2 * w)) != b'\n' {
        return false;
    }
    digits_fit(text, pos, 6 + 2 * w)
}

// The payload of the frame at pos, to the front of a buffer.
fn put_payload(text: &[u8], pos: usize, w: usize, out: &mut [u8])
    requires { PayloadIn text.now pos w out.old }
    ensures { out.new ≡ in_front (payload w text.now pos) out.old }
{
    for i in 0..w {
        out[i] = byte_at(text, pos + (6 + 2 * i)).unwrap();
    }
}

// Whether the frame due stands at pos: then its payload is written to the front of a buffer, and else the buffer stays as it is. A kind is
// the number that document 01 matches on.
pub fn read_frame(text: &[u8], pos: usize, kind: usize, w: usize, out: &mut [u8]) -> bool
    requires { FrameIn pos w out.old }
    ensures { (result ≡ frame_fits kind w text.now pos) × (out.new ≡ pick result (in_front (payload w text.now pos) out.old) out.old) }
{
    if !frame_fits(text, pos, kind, w) {
        return false;
    }
    put_payload(text, pos, w, out);
    true
}

// A byte's two digits, at a place.
fn put_byte(out: &mut [u8], at: usize, b: u8)
    requires { at + 1 < length out.old }
    ensures { out.new ≡ set (set out.old at (hex_of (b / 16))) (at + 1) (hex_of (b % 16)) }
{
    out[at] = hex(b / 16);
    out[at + 1] = hex(b % 16);
}

// Byte j of a frame: its kind, the two of the count, then the payload.
fn frame_byte(kind: u8, payload: &[u8], j: usize) -> u8
    requires { j < 3 + length payload.now }
    ensures { result ≡ get_or (framed kind payload.now) j 0 }
{
    let [.., high, low] = payload.len().to_be_bytes();
    match j {
        0 => kind,
        1 => high,
        2 => low,
        _ => payload[j - 3],
    }
}

// A frame's line, to the front of a buffer.
pub fn put_frame(kind: u8, payload: &[u8], out: &mut [u8])
    requires { LineIn payload.now out.old }
    ensures { out.new ≡ in_front (frame kind payload.now) out.old }
{
    let bytes = 3 + payload.len();
    for j in 0..bytes {
        put_byte(out, 2 * j, frame_byte(kind, payload, j));
    }
    out[2 * bytes] = b'\n';
}
