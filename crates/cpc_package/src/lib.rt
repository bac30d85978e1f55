//! Packages of performance control (`_CPC`, ACPI 6.5, 8.4.6.1): their bytes both ways, their text, and which fields of a communication
//! space their registers are. A controller of performance and its callers use it.
#![tactic(auto)]

mod apart;
mod binding;
mod entry;
mod fault;
mod package;
mod raising;
mod register;
mod rows;
mod testing;
mod text;
mod worked;

pub use apart::cpus_apart;
pub use binding::{BindFault, Binding, Cpus, Source1, bind, binding_laws, number_in, share_law};
pub use entry::Entry;
pub use fault::{CpcError, CpcFault, CpcKind};
pub use package::{Cpc, cpc_from, cpc_raise, cpc_to, package_laws};
pub use raising::raise_laws;
pub use rows::{ENTRIES, REVISION_2_ENTRIES, Role, limits_are};
pub use text::cpc_lines;
pub use worked::{
    SIX_FIELDS_PACKAGE, SIX_FIELDS_REVISION_2_PACKAGE, worked_bindings, worked_packages,
};
