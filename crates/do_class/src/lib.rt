//! The class table: classes with their slots and methods, found by name and by selector.
#![tactic(auto)]

mod fault;
mod ids;
mod indexed;
mod method;
mod packet;
mod table;

pub use fault::ClassFault;
pub use ids::{ClassId, MethodId, Slot, Slots};
pub use method::{Method, Methods};
pub use packet::{Copied, CopyList, Name, NameList, Packet, Part, Parts};
pub use table::ClassTable;
