//! Tests of the parts of a channel: headers, limits of posts, journals, devices, both machines, and both ends over words.
#![tactic(auto)]

#[cfg(test)]
mod banks;
#[cfg(test)]
mod bookkeeping;
#[cfg(test)]
mod headers;
#[cfg(test)]
mod journals;
#[cfg(test)]
mod limits;
#[cfg(test)]
mod machines;
#[cfg(test)]
mod notices;
#[cfg(test)]
mod subspaces;
#[cfg(test)]
mod traces;
#[cfg(test)]
mod turns;
