//! The script language: the set-up of a run and its actions, as a text. A text is read to the one scenario that it spells, or to its first fault.
#![tactic(auto)]

mod fault;
mod field;
mod limits;
mod line;
mod made;
mod order;
mod partial;
mod reading;
mod scenario;
mod word;
mod writing;

pub use fault::{ScriptError, ScriptKind};
pub use limits::{
    MAX_ACTIONS, MAX_CAPS, MAX_CODE, MAX_CPU, MAX_CPUS, MAX_HOLD, MAX_ID, MAX_LETTERS,
    MAX_MADE_CALLS, MAX_OPENS, MAX_POLLS, MAX_WORKER, limits_are,
};
pub use made::made_scenario;
pub use reading::{scenario_from, text_laws, within_limits};
pub use scenario::{
    Actions, CapLine, CapLines, Device, Letter, Line, OpenLine, Opens, Packages, Picks, Scenario,
    Wish1,
};
pub use writing::scenario_to;
