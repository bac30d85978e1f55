//! The commands on packages: `cpc` prints the text of a package, `raise` writes it as one of revision 3.
ghost use Rattle.std.specs.Prelude.{◌<◌, ◌^◌, ℕ, List, MatchResult, length};
ghost use Rattle.pcc_setup.specs.Packages.{IsNoPackage};
ghost use Rattle.pcc_setup.specs.RefusalText.{IsRefusedFor};
ghost use Rattle.pccrun_core.specs.CommandErrors.{IsRefusedBy};
ghost use Rattle.pccrun_core.specs.Answers.{Makes};
ghost use Rattle.pccrun_core.specs.Packages.{PackageRefused};
ghost use Rattle.pccrun_core.specs.Refusals.{Refuses};

use crate::command::Command;
use crate::error::CommandError;
use cpc_package::{cpc_lines, cpc_raise, cpc_to, package_laws};
use pcc_setup::{InputError, PackageError, Refusal, whole_package};
use std::alloc::Global;

// Why bytes that are not a package are refused.
fn refused_package(error: PackageError) -> InputError
    ensures { (bytes : List ℕ) → IsNoPackage bytes error → IsRefusedFor (PackageRefused bytes) result }
{
    package_laws();
    match error {
        PackageError::Wrong(fault) => InputError::Refused(Refusal::Package(fault)),
        PackageError::Trailing { at } => InputError::Refused(Refusal::PackageTrailing { at }),
        PackageError::NoMemory => InputError::NoMemory,
    }
}

/// The text of the package that all bytes spell (`_CPC`, ACPI 6.5, 8.4.6.1). The condition is fewer than 2^32 bytes.
pub fn cpc(alloc: Global, bytes: &[u8]) -> Result<Vec<u8>, CommandError>
    requires { length bytes.now < 2 ^ 32 }
    ensures { MatchResult result (λ v. Makes Command.Cpc bytes.now v.items) (IsRefusedBy (Refuses Command.Cpc bytes.now)) }
{
    match whole_package(alloc, bytes) {
        Ok(cpc) => Ok(cpc_lines(alloc, &cpc)?),
        Err(error) => Err(CommandError::Input(refused_package(error))),
    }
}

/// The bytes of the package that all bytes spell, as one of revision 3 (`_CPC`, ACPI 6.5, 8.4.6.1); those of a package of revision 3 are the same. The
/// condition is fewer than 2^32 bytes.
pub fn raise(alloc: Global, bytes: &[u8]) -> Result<Vec<u8>, CommandError>
    requires { length bytes.now < 2 ^ 32 }
    ensures { MatchResult result (λ v. Makes Command.Raise bytes.now v.items) (IsRefusedBy (Refuses Command.Raise bytes.now)) }
{
    match whole_package(alloc, bytes) {
        Ok(cpc) => Ok(cpc_to(alloc, &cpc_raise(alloc, &cpc)?)?),
        Err(error) => Err(CommandError::Input(refused_package(error))),
    }
}
