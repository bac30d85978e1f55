//! Tests of tables: the structures of each type, those of types of later releases, the largest table, and tables in pieces.
#![tactic(auto)]

#[cfg(test)]
mod cuttings;
#[cfg(test)]
mod largest;
#[cfg(test)]
mod later_types;
#[cfg(test)]
mod pieces;
#[cfg(test)]
mod structures;
