//! Items of AML (ACPI 6.5, 20.2): integers, buffers, and packages of both, with their spelling. Bytes are read as the item that they
//! begin with, or as the first thing that is wrong in them, and an item is written as the bytes that spell it.
//! Packages of performance control (`_CPC`) are read and written with it.
#![tactic(auto)]

mod fault;
mod item;
mod number;
mod reading;
mod window;
mod worked;
mod writing;

pub use fault::{AmlError, AmlFault, AmlKind, ReadError};
pub use item::{Buffer, Element, Form, Int, Item, Items, Len};
pub use reading::{item_from, item_laws, read_item};
pub use worked::{worked_faults, worked_items};
pub use writing::item_to;
