//! A table. Its length and its checksum follow from the rest.
use crate::subspaces::Subspaces;

/// The header's fields (ACPI 6.5, 5.2.6 and 14.1) and the structures.
#[derive(Debug, Drop)]
pub struct Table {
    pub revision: u8,
    pub oem_id: [u8; 6],
    pub oem_table: [u8; 8],
    pub oem_revision: u32,
    pub creator: [u8; 4],
    pub creator_revision: u32,
    /// Bit 0: the platform can raise an interrupt.
    pub flags: u32,
    pub reserved: [u8; 8],
    pub subspaces: Subspaces,
}
