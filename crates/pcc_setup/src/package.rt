//! The package of a processor, or of the program's whole input.
ghost use Rattle.std.specs.Prelude.{◌<◌, ◌^◌, MatchResult, length};
ghost use Rattle.cpc_package.specs.Packages.{CpcBytes};
ghost use Rattle.pcc_setup.specs.Packages.{IsNoPackage};

use cpc_package::{Cpc, CpcError, CpcFault, cpc_from};
use std::alloc::Global;

/// Why bytes are not those of a package and nothing else.
#[derive(Clone, Copy, Debug, PartialEq, Eq)]
pub enum PackageError {
    /// They begin with no package: the first thing that is wrong.
    Wrong(CpcFault),
    /// Bytes follow the package, from this place on.
    Trailing { at: usize },
    /// Memory ran out.
    NoMemory,
}

/// The package that all bytes spell (`_CPC`, ACPI 6.5, 8.4.6.1). The condition is fewer than 2^32 bytes.
pub fn whole_package(alloc: Global, bytes: &[u8]) -> Result<Cpc, PackageError>
    requires { length bytes.now < 2 ^ 32 }
    ensures { MatchResult result (CpcBytes bytes.now) (IsNoPackage bytes.now) }
{
    match cpc_from(alloc, bytes) {
        Ok((cpc, len)) => {
            if len < bytes.len() {
                Err(PackageError::Trailing { at: len })
            } else {
                Ok(cpc)
            }
        }
        Err(CpcError::Fault { entry, at, kind }) => {
            Err(PackageError::Wrong(CpcFault { entry, at, kind }))
        }
        Err(CpcError::NoMemory) => Err(PackageError::NoMemory),
    }
}
