//! Definitions alone: devices, the channel as one thread sees it, and its histories.
#![tactic(auto)]
