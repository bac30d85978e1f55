//! Definitions alone: when a fault may be reported, and which readings a clock gives.
#![tactic(auto)]
