// What stands at a place of the log: one byte of kind, then a body whose length the kind fixes.
ghost use Rattle.std.specs.Prelude.{◌≡◌, ◌+◌, ◌<◌, length};
ghost use Rattle.logitems.specs.Kinds.{body_length, byte_of};
ghost use Rattle.logitems.specs.Log.{byte_at, pair_at, sample_at, item_at, ending, cut as cut_off, decoded};

use crate::kinds::Kind;
use crate::phases::may_end;
use crate::{Found, Item, Phase};

fn byte_at(bytes: &[u8], i: usize) -> u32
    requires { i < length bytes.now }
    ensures { (result ≡ byte_at bytes.now i) × (result < 256) }
{
    u32::from(bytes[i])
}

// Two bytes from place i on, the lower first.
fn pair_at(bytes: &[u8], i: usize) -> u32
    requires { i + 1 < length bytes.now }
    ensures { (result ≡ pair_at bytes.now i) × (result < 65536) }
{
    u32::from(u16::from_le_bytes([bytes[i], bytes[i + 1]]))
}

// Three bytes after the kind, the lowest first, signed: the upper three of four, and the shift keeps their sign.
fn sample_at(bytes: &[u8]) -> i32
    requires { 3 < length bytes.now }
    ensures { result ≡ sample_at bytes.now }
{
    i32::from_le_bytes([0, bytes[1], bytes[2], bytes[3]]) >> 8
}

// The item of a kind.
fn item_at(kind: Kind, bytes: &[u8]) -> Item
    requires { body_length (byte_of kind) < length bytes.now }
    ensures { result ≡ item_at (byte_of kind) bytes.now }
{
    match kind {
        Kind::Start => Item::Start(byte_at(bytes, 1), pair_at(bytes, 2), byte_at(bytes, 4)),
        Kind::Open => Item::Open(pair_at(bytes, 1)),
        Kind::Sample => Item::Sample(sample_at(bytes)),
        Kind::Enter => Item::Enter,
        Kind::Withdraw => Item::Withdraw(pair_at(bytes, 1)),
        Kind::Ask => Item::Ask,
        Kind::Capture => Item::Capture(pair_at(bytes, 1), byte_at(bytes, 3)),
        Kind::Edition => Item::Edition(byte_at(bytes, 1)),
    }
}

// Nothing is left of the bytes at hand.
fn at_end(phase: Phase, ended: bool) -> Found
    ensures { result ≡ ending phase ended }
{
    if !ended {
        return Found::Short;
    }
    if may_end(phase) {
        return Found::End;
    }
    Found::Bad
}

// A body is not whole.
fn cut(ended: bool) -> Found
    ensures { result ≡ cut_off ended }
{
    if ended { Found::Bad } else { Found::Short }
}

// What stands at the beginning of the bytes, of which no more will come where the input has ended.
pub fn decode(phase: Phase, period: usize, bytes: &[u8], ended: bool) -> Found
    ensures { result ≡ decoded phase period bytes.now ended }
{
    let Some(&byte) = bytes.first() else {
        return at_end(phase, ended);
    };
    let Ok(kind) = Kind::try_from(byte) else {
        return Found::Bad;
    };
    if !kind.may_stand(phase, period) {
        return Found::Bad;
    }
    let body = kind.body_length();
    if bytes.len() <= body {
        return cut(ended);
    }
    Found::Whole(item_at(kind, bytes), body + 1)
}
