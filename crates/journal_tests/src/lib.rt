//! Tests of journals that are read from their text.
#![tactic(auto)]

#[cfg(test)]
mod reading;
