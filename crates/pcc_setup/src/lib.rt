//! What a script opens: its table, its subspaces, its processors, its caps and its actions are checked in their order, and one line reports the
//! first check that fails.
#![tactic(auto)]

mod action;
mod equipment;
mod opening;
mod package;
mod places;
mod processor;
mod refusal;
mod setup;
mod table;
mod text;
mod worked;

pub use action::{ActionFault, are_banks};
pub use opening::{Caps, OpenFault, Opened, OpenedList};
pub use package::{PackageError, whole_package};
pub use places::{CpuPlace, CpuPlaces};
pub use refusal::{CpuFault, InputError, Refusal, UseFault};
pub use setup::{SetUp, SetUpError, first_action, set_up, set_up_laws};
pub use table::{whole_table, whole_table_laws};
pub use text::refused_line;
pub use worked::{worked_equipment, worked_packages};
