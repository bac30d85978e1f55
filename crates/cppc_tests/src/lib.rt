//! Tests of performance control: a controller as a device, and requests of performance.
#![tactic(auto)]

#[cfg(test)]
mod controllers;
#[cfg(test)]
mod revisions;
#[cfg(test)]
mod wishes;
