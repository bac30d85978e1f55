//! The structures of types that this release of the standard doesn't have, 6 to 255.
ghost use Rattle.std.specs.Prelude.{◌≡◌, ◌≤◌, ◌+◌, ◌++◌, ◌∷◌, drop, length, slice_index, IfOk, OnOk};

use crate::pieces::put_all;
use pcc_io::{Bytes, NoMemory};
use std::alloc::Global;

/// A structure of a type of a later release, 6 to 255: all its bytes after the type and the size, at most 253.
#[derive(Debug, Drop)]
pub struct Other {
    pub kind: u8,
    pub bytes: Bytes,
}

impl Other {
    pub(crate) fn from_bytes(alloc: Global, bytes: &[u8]) -> Result<Other, NoMemory>
        requires { 2 ≤ length bytes.now }
        ensures { IfOk result (λ o. (o.kind ≡ slice_index bytes.now 0) × (o.bytes ≡ drop 2 bytes.now)) }
    {
        Ok(Other {
            kind: bytes[0],
            bytes: Bytes::from_vec(Vec::from_slice(alloc, &bytes[2..])?),
        })
    }

    pub(crate) fn put(&self, out: &mut Vec<u8>) -> Result<(), NoMemory>
        requires { length self.now.bytes ≤ 253 }
        ensures { OnOk result (out.new.items ≡ out.old.items ++ self.now.kind ∷ (2 + length self.now.bytes) ∷ self.now.bytes) }
    {
        let size = 2 + self.bytes.len() as u8;
        put_all(out, &[&[self.kind, size], self.bytes.as_slice()])
    }
}
