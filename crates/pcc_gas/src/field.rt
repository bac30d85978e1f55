//! Fields of bits in a space of bytes, as a register in a communication space is one.

ghost use Rattle.std.specs.Prelude.{IsTrue, ◌≡◌, ◌<◌, ◌≤◌, ◌+◌, ◌-◌, ◌*◌, ◌%◌, ◌^◌, ◌↔◌, [], ◌∷◌, List, ℕ, length};
ghost use Rattle.std.specs.Int.{bit_at};
ghost use Rattle.pcc_bytes.specs.Bytes.{IsBytes};
ghost use Rattle.pcc_gas.specs.Changes.{change, with_changes};
ghost use Rattle.pcc_gas.specs.Fields.{AreApart, FieldPut, Overwritten, bit_of, field_value};

use byteorder::{ByteOrder, LittleEndian};

/// Bits that follow each other in a space. Bit b of a space is bit `b % 8`, counted from the lowest, of byte `b / 8`.
#[derive(Clone, Copy, Debug, PartialEq, Eq)]
pub struct Field {
    /// The field's first and lowest bit.
    pub at_bit: u32,
    /// Bits of the field.
    pub width: u8,
}

/// The number in a field. It is read from the bytes around the field, at most nine, at once.
pub fn field_get(space: &[u8], field: Field) -> u64
    requires some { 1 ≤ field.width }
    requires most { field.width ≤ 64 }
    requires inside { field.at_bit + field.width ≤ 8 * length space.now }
    ensures value { result ≡ field_value space.now field }
    ensures bits { (k : ℕ) → k < field.width → bit_at result k ≡ bit_of space.now (field.at_bit + k) }
    ensures fits { result < 2 ^ field.width }
{
    let window = window_of(field);
    low_bits(bytes_in(space, window) >> window.shift, field.width)
}

/// Puts a number into a field. No other bit changes.
pub fn field_put(space: &mut [u8], field: Field, value: u64)
    requires some { 1 ≤ field.width }
    requires most { field.width ≤ 64 }
    requires inside { field.at_bit + field.width ≤ 8 * length space.old }
    requires fits { value < 2 ^ field.width }
    ensures put { FieldPut space.old field value space.new }
    ensures changed { space.new ≡ with_changes (change field value ∷ []) space.old }

    // A field that is apart keeps its number, and no other bytes are the space with the number put.
    ensures apart { (other : Field) → AreApart field other → field_value space.new other ≡ field_value space.old other }
    ensures only { (bytes : List ℕ) → IsBytes bytes → FieldPut space.old field value bytes → bytes ≡ space.new }
{
    let window = window_of(field);
    let bytes = with_bits(bytes_in(space, window), window.shift, field.width, value);
    put_bytes(space, window, bytes);
}

/// Whether no bit belongs to both fields. What two fields share begins where the later one begins and ends where the
/// first one ends.
pub fn fields_apart(a: Field, b: Field) -> bool
    ensures { IsTrue result ↔ AreApart a b }
{
    let start = a.at_bit.max(b.at_bit);
    end_of(a).min(end_of(b)) <= u64::from(start)
}

/// The first bit after a field.
fn end_of(field: Field) -> u64
    ensures { result ≡ field.at_bit + field.width }
{
    u64::from(field.at_bit) + u64::from(field.width)
}

/// Bytes of a space, at most nine, and a field's place in them.
#[derive(Clone, Copy)]
struct Window {
    /// The place of the first byte.
    first: usize,
    /// How many bytes.
    count: usize,
    /// The field's first bit in them.
    shift: u32,
    ghost some: { 1 ≤ count },
    ghost most: { count ≤ 9 },
    ghost low: { shift < 8 },
}

/// The bytes that a field lies in.
fn window_of(field: Field) -> Window
    requires some { 1 ≤ field.width }
    requires most { field.width ≤ 64 }
    ensures start { 8 * result.first + result.shift ≡ field.at_bit }
    ensures covers { result.shift + field.width ≤ 8 * result.count }
    ensures least { 8 * result.count ≤ result.shift + field.width + 7 }
{
    let shift = field.at_bit % 8;
    Window {
        first: (field.at_bit / 8) as usize,
        count: ((shift + u32::from(field.width) + 7) / 8) as usize,
        shift,
    }
}

/// The bits of the bytes in a window, as a number.
fn bytes_in(space: &[u8], window: Window) -> u128
    requires { window.first + window.count ≤ length space.now }
    ensures bits { (i : ℕ) → i < 8 * window.count → bit_at result i ≡ bit_of space.now (8 * window.first + i) }
    ensures bound { result < 2 ^ (8 * window.count) }
{
    LittleEndian::read_uint128(&space[window.first..], window.count)
}

/// Puts the bits of a number into the bytes in a window.
fn put_bytes(space: &mut [u8], window: Window, bits: u128)
    requires within { window.first + window.count ≤ length space.old }
    requires fits { bits < 2 ^ (8 * window.count) }
    ensures { Overwritten space.old space.new window.first window.count bits }
{
    let (_, part) = space.split_at_mut(window.first);
    LittleEndian::write_uint128(part, bits, window.count);
}

/// The lowest bits of a number.
fn low_bits(bits: u128, width: u8) -> u64
    requires { width ≤ 64 }
    ensures { result ≡ bits % 2 ^ width }
{
    (bits & ones(width)) as u64
}

/// The number with other bits at a place.
fn with_bits(bits: u128, shift: u32, width: u8, value: u64) -> u128
    requires low { shift < 8 }
    requires most { width ≤ 64 }
    requires fits { value < 2 ^ width }
    ensures put { (i : ℕ) → i < width → bit_at result (shift + i) ≡ bit_at value i }
    ensures below { (i : ℕ) → i < shift → bit_at result i ≡ bit_at bits i }
    ensures above { (i : ℕ) → shift + width ≤ i → bit_at result i ≡ bit_at bits i }
    ensures bound { (k : ℕ) → bits < 2 ^ k → shift + width ≤ k → result < 2 ^ k }
{
    (bits & !(ones(width) << shift)) | (u128::from(value) << shift)
}

/// A number whose lowest bits are ones.
fn ones(width: u8) -> u128
    requires { width ≤ 64 }
    ensures { result ≡ 2 ^ width - 1 }
{
    (1 << width) - 1
}
