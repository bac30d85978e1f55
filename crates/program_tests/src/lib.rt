//! Tests of the top call: every command on worked inputs, with all that it writes and its status.
#![tactic(auto)]

#[cfg(test)]
mod audits;
#[cfg(test)]
mod calls;
#[cfg(test)]
mod commands;
#[cfg(test)]
mod controllers;
#[cfg(test)]
mod packages;
#[cfg(test)]
mod subspaces;
#[cfg(test)]
mod tables;
#[cfg(test)]
mod traces;
#[cfg(test)]
mod words;
