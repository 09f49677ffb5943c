//! Faults of worlds as rows write them.

use call_rows::text_value;
use do_base::Value;
use do_document::WorldFault;
use std::alloc::Global;
use std::test::Fail;

/// A fault as it is printed.
pub(crate) fn fault_value(alloc: Global, fault: &WorldFault) -> Result<Value, Fail> {
    let printed = format!(in alloc; "{fault}")?;
    text_value(alloc, printed.as_bytes())
}

/// A word where there is no fault, or the fault as it is printed.
pub(crate) fn outcome(
    alloc: Global,
    word: &[u8],
    found: Result<(), WorldFault>,
) -> Result<Value, Fail> {
    match found {
        Ok(()) => text_value(alloc, word),
        Err(fault) => fault_value(alloc, &fault),
    }
}
