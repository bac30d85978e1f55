//! Tests of the formats: streams and lists, fields of texts, generic addresses, tables, items of AML, packages of performance control, and scripts.
#![tactic(auto)]

#[cfg(test)]
mod addresses;
#[cfg(test)]
mod changing;
#[cfg(test)]
mod fields;
#[cfg(test)]
mod items;
#[cfg(test)]
mod packages;
#[cfg(test)]
mod scripts;
#[cfg(test)]
mod streams;
#[cfg(test)]
mod table_texts;
#[cfg(test)]
mod tables;
