//! What each bookkeeper of a channel keeps beside its words, its machines and its device (ACPI 6.5, chapter 14). The history holds the commands and
//! what came of them; the caller's part refuses commands, makes them ready and takes readings. A run's outcome and the space are arguments.
#![tactic(auto)]

mod answers;
mod caller;
mod executed;
mod history;
mod ready;
mod refusals;
mod sent;
mod worked;

pub use answers::{CallRefusal, Look, Turn};
pub use caller::{Caller, Reading};
pub use executed::{Executed, zeros};
pub use history::History;
pub use ready::{Ready, make_ready};
pub use refusals::{GREATEST_CODE, refusal, too_soon};
pub use sent::{Flight, Sent};
pub use worked::worked_refusals;
