//! Reading integers and lengths.
ghost use Rattle.std.specs.Prelude.{◌≡◌, ◌≤◌, ◌<◌, ◌+◌, ◌^◌, length, IfOk};
ghost use Rattle.aml_pkg.specs.Reading.{Gives, body_len, form_of, int_at, len_at, number_at, spelled_len_at, value_of};

use crate::fault::{AmlKind, ReadError};
use crate::item::{Form, Int, Len};
use crate::window::Window;
use byteorder::{ByteOrder, LittleEndian};

/// The number that n bytes spell, its lowest byte first, and the bytes after it.
#[tactic(auto, using(crate::proofs::Steps::number_small))]
fn number_of(n: usize, window: Window, bytes: &[u8]) -> Result<(u64, &[u8]), ReadError>
    requires { n ≤ 8 }
    ensures gives { Gives (λ x. (x.0, x.1.now)) result (number_at n window bytes.now) }
    ensures shorter { IfOk result (λ x. length bytes.now ≡ n + length x.1.now) }
    ensures small { IfOk result (λ x. n ≤ 3 → x.0 < 2 ^ 24) }
{
    if bytes.len() < n {
        return Err(window.ended());
    }
    if n == 0 {
        return Ok((0, bytes));
    }
    Ok((LittleEndian::read_uint(bytes, n), bytes.split_at(n).1))
}

/// The form that a byte begins.
fn form_of(op: u8) -> Option<Form>
    ensures { result ≡ form_of op }
{
    match op {
        0x00 => Some(Form::Zero),
        0x01 => Some(Form::One),
        0xff => Some(Form::Ones),
        0x0a => Some(Form::Byte),
        0x0b => Some(Form::Word),
        0x0c => Some(Form::Dword),
        0x0e => Some(Form::Qword),
        _ => None,
    }
}

/// The value of an integer of this form with this number after its first byte.
fn value_of(form: Form, number: u64) -> u64
    ensures { result ≡ value_of form number }
{
    match form {
        Form::Zero => 0,
        Form::One => 1,
        Form::Ones => u64::MAX,
        Form::Byte | Form::Word | Form::Dword | Form::Qword => number,
    }
}

/// The integer at the front, and the bytes after it.
#[tactic(auto, unfolding(crate::specs::Reading::int_at))]
pub(crate) fn int_of(window: Window, bytes: &[u8]) -> Result<(Int, &[u8]), ReadError>
    requires { length bytes.now ≤ window.end }
    ensures gives { Gives (λ x. (x.0, x.1.now)) result (int_at window bytes.now) }
    ensures shorter { IfOk result (λ x. length x.1.now ≤ length bytes.now) }
{
    let [op, rest @ ..] = bytes else {
        return Err(window.ended());
    };
    let Some(form) = form_of(*op) else {
        return Err(window.fault(bytes, AmlKind::UnknownOp));
    };
    let (number, rest) = number_of(form.size(), window, rest)?;
    let int = Int {
        value: value_of(form, number),
        form,
    };
    Ok((int, rest))
}

/// The length at the front, whatever its value.
#[tactic(auto, unfolding(crate::specs::Reading::spelled_len_at))]
fn spelled_len(window: Window, bytes: &[u8]) -> Result<(Len, &[u8]), ReadError>
    requires { length bytes.now ≤ window.end }
    ensures gives { Gives (λ x. (x.0, x.1.now)) result (spelled_len_at window bytes.now) }
    ensures behind { IfOk result (λ x. length bytes.now ≡ 1 + x.0.follow + length x.1.now) }
    ensures few { IfOk result (λ x. x.0.follow ≤ 3) }
{
    let [lead, rest @ ..] = bytes else {
        return Err(window.ended());
    };
    let lead = *lead;
    let follow = lead / 64;
    if follow == 0 {
        let len = Len {
            value: u32::from(lead),
            follow: 0,
        };
        return Ok((len, rest));
    }
    if lead / 16 % 4 != 0 {
        return Err(window.fault(bytes, AmlKind::BadLead));
    }
    let (high, rest) = number_of(usize::from(follow), window, rest)?;
    let len = Len {
        value: u32::from(lead % 16) + 16 * high as u32,
        follow,
    };
    Ok((len, rest))
}

/// The length at the front, and the bytes after it. It counts its own bytes at least, and the end that it states isn't passed.
#[tactic(auto, unfolding(crate::specs::Reading::len_at))]
pub(crate) fn len_of(window: Window, bytes: &[u8]) -> Result<(Len, &[u8]), ReadError>
    requires { length bytes.now ≤ window.end }
    ensures gives { Gives (λ x. (x.0, x.1.now)) result (len_at window bytes.now) }
    ensures within { IfOk result (λ x. x.0.value ≤ length bytes.now) }
    ensures own { IfOk result (λ x. 1 + x.0.follow ≤ x.0.value) }
    ensures behind { IfOk result (λ x. length bytes.now ≡ 1 + x.0.follow + length x.1.now) }
{
    let (len, rest) = spelled_len(window, bytes)?;
    if len.value < 1 + u32::from(len.follow) {
        return Err(window.fault(bytes, AmlKind::BadLength));
    }
    if bytes.len() < len.value as usize {
        return Err(window.ended());
    }
    Ok((len, rest))
}

/// How many bytes a length leaves after its own.
pub(crate) fn body_len(len: Len) -> usize
    requires { 1 + len.follow ≤ len.value }
    ensures { result ≡ body_len len }
{
    (len.value - (1 + u32::from(len.follow))) as usize
}
