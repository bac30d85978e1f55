//! The bytes of what is being read, up to its end.
ghost use Rattle.std.specs.Prelude.{◌≡◌, ◌≤◌, ◌<◌, length};
ghost use Rattle.aml_pkg.specs.Windows.{behind, ended, fault_at, inner};
ghost use Rattle.aml_pkg.specs.declared.fault.ReadError.TheVariants as errors;

use crate::fault::{AmlFault, AmlKind, ReadError};

/// The end of what is being read. A byte that is wanted past it is reported at the end, in one way for the end of all bytes and in
/// another for that of a buffer or a package.
#[derive(Clone, Copy)]
pub struct Window {
    /// The place of the end.
    pub end: u32,
    /// What a byte is reported as that is wanted past the end.
    pub past: AmlKind,
    /// How many elements are whole.
    pub whole: u8,
}

impl Window {
    /// A byte is wanted past the end.
    pub fn ended(self) -> ReadError
        ensures { result ≡ errors.Fault (ended self) }
    {
        ReadError::Fault(AmlFault {
            at: self.end,
            kind: self.past,
            whole: self.whole,
        })
    }

    /// The first of the bytes that are left is wrong.
    pub fn fault(self, left: &[u8], kind: AmlKind) -> ReadError
        requires { length left.now ≤ self.end }
        ensures { result ≡ errors.Fault (fault_at self left.now kind) }
    {
        ReadError::Fault(AmlFault {
            at: self.end - left.len() as u32,
            kind,
            whole: self.whole,
        })
    }

    /// Of a buffer or a package that has n of the bytes that are left.
    pub fn inner(self, left: &[u8], len: u32) -> Window
        requires from { length left.now ≤ self.end }
        requires within { len ≤ length left.now }
        ensures { result ≡ inner self left.now len }
    {
        Window {
            end: self.end - left.len() as u32 + len,
            past: AmlKind::BadLength,
            whole: self.whole,
        }
    }

    /// The same with one whole element more.
    pub fn behind_one(self) -> Window
        requires { self.whole < 255 }
        ensures { result ≡ behind self 1 }
    {
        Window {
            end: self.end,
            past: self.past,
            whole: self.whole + 1,
        }
    }
}
