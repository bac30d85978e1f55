//! Tests of what a script opens: the wiring of a subspace, the checks of a set-up, and the lines of refusals.
#![tactic(auto)]

#[cfg(test)]
mod set_ups;
#[cfg(test)]
mod wirings;
