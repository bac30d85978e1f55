//! Items, and how each is spelled.
ghost use Rattle.std.specs.Prelude.{◌≡◌, ◌≤◌, length};
ghost use Rattle.aml_pkg.specs.Spelling.{IsElement, element_bytes, op_of, size_of};

use pcc_io::Bytes;

/// How an integer is spelled (ACPI 6.5, 20.2.3).
#[derive(Clone, Copy, Debug, PartialEq, Eq)]
pub enum Form {
    /// 0, by the byte `00`.
    Zero,
    /// 1, by the byte `01`.
    One,
    /// 2^64 - 1, by the byte `ff`.
    Ones,
    /// A number of 8 bits after the byte `0a`.
    Byte,
    /// A number of 16 bits after the byte `0b`, its lowest byte first.
    Word,
    /// A number of 32 bits after the byte `0c`, its lowest byte first.
    Dword,
    /// A number of 64 bits after the byte `0e`, its lowest byte first.
    Qword,
}

impl Form {
    /// The byte that begins an integer of this form.
    pub fn op(self) -> u8
        ensures { result ≡ op_of self }
    {
        match self {
            Form::Zero => 0x00,
            Form::One => 0x01,
            Form::Ones => 0xff,
            Form::Byte => 0x0a,
            Form::Word => 0x0b,
            Form::Dword => 0x0c,
            Form::Qword => 0x0e,
        }
    }

    /// How many bytes of the number follow it.
    pub fn size(self) -> usize
        ensures value { result ≡ size_of self }
        ensures small { result ≤ 8 }
    {
        match self {
            Form::Zero | Form::One | Form::Ones => 0,
            Form::Byte => 1,
            Form::Word => 2,
            Form::Dword => 4,
            Form::Qword => 8,
        }
    }
}

/// An integer.
#[derive(Clone, Copy, Debug, PartialEq, Eq)]
pub struct Int {
    pub value: u64,
    /// Its form, which has the value.
    pub form: Form,
}

/// The length of a buffer or a package (`PkgLength`, ACPI 6.5, 20.2.4).
#[derive(Clone, Copy, Debug, PartialEq, Eq)]
pub struct Len {
    /// The number of bytes from the length's own first byte to the item's end.
    pub value: u32,
    /// How many bytes of the length follow its first one, 0 to 3.
    pub follow: u8,
}

/// A buffer (ACPI 6.5, 20.2.5.4).
#[derive(Debug, Drop)]
pub struct Buffer {
    pub len: Len,
    /// The size that it states, which need not be the number of its bytes.
    pub size: Int,
    /// The bytes after the size, up to the end that the length states.
    pub bytes: Bytes,
}

/// What is in a package, or alone.
#[derive(Debug, Drop)]
pub enum Element {
    Int(Int),
    Buffer(Buffer),
}

impl Element {
    /// How many bytes spell the element.
    #[tactic(auto, using(crate::proofs::Written::length_int, crate::proofs::Written::length_buffer, crate::proofs::Written::value_small))]
    pub fn byte_len(&self) -> u32
        requires { IsElement self.now }
        ensures { result ≡ length (element_bytes self.now) }
    {
        match self {
            Element::Int(int) => 1 + int.form.size() as u32,
            Element::Buffer(buffer) => 1 + buffer.len.value,
        }
    }
}

/// Elements in order.
pub type Items = pcc_io::Items<Element>;

/// An item. A package has at most 255 elements (ACPI 6.5, 20.2.5.4).
#[derive(Debug, Drop)]
pub enum Item {
    Element(Element),
    Package { len: Len, items: Items },
}
