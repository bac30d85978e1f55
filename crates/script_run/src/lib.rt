//! Runs of scripts in one thread: the channels of all opened subspaces answer the lines of a script, and the replies and the journals are printed;
//! or a script is made up, and a summary of its run is printed.
#![tactic(auto)]

mod asks;
mod channel;
mod channels;
mod counts;
mod laws;
mod make;
mod outcome;
mod ranges;
mod reply;
mod step;
mod worked;

pub use laws::run_laws;
pub use make::made_summary;
pub use ranges::range_laws;
pub use step::run_text;
pub use worked::{worked_runs, worked_wishes};
