//! What an asking end keeps beside each record, and never prints.

use crate::Reserved;

/// Beside a record: the places of its readings among those that the end took, and how long its caller looked.
#[derive(Clone, Copy, Debug, PartialEq, Eq)]
pub struct Note {
    /// The number of the reading at which the command was posted, counted from 0 since the end was started.
    pub post_at: u64,
    /// The number of the reading at which its completion was seen, counted alike.
    pub done_at: u64,
    /// How many looks had seen the command incomplete when its caller first gave it up. 0 if no caller did.
    pub looks: u32,
}

/// The notes of an asking end, one beside each record.
pub type Notes = Reserved<Note>;
