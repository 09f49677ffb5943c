//! The methods that objects have.
ghost use Rattle.std.specs.{Prelude.{◌≡◌, option_map}, Option.option_copied};
ghost use Rattle.do_class.specs.Table.{signature_of};
ghost use Rattle.do_machine.specs.Context.{method_for};
ghost use Rattle.do_rules.specs.Judged.{found_of};

use do_base::Text;
use do_class::{ClassId, ClassTable, MethodId};
use do_sig::Signature;

/// A method that an object has, with its signature.
#[derive(Drop)]
pub struct Found<'t> {
    /// The method.
    pub id: MethodId,
    /// Its signature, of the class table.
    pub signature: &'t Signature,
}

/// The method that an object of a class has for a selector.
///
/// None where the class is not known or the table has no such class, and where the class has no
/// method for the selector, in which case the object does not understand the message.
pub(crate) fn method_for<'t>(
    table: &'t ClassTable,
    class: Option<ClassId>,
    selector: &Text,
) -> Option<Found<'t>>
    ensures { option_map found_of result ≡ method_for table.now class selector.now }
{
    let Some(class) = class else {
        return None;
    };
    if class.0 >= table.count() {
        return None;
    }
    match table.find(class, selector) {
        Some(id) => Some(Found {
            id,
            signature: table.signature(id),
        }),
        None => None,
    }
}

/// The signature of a method.
pub(crate) fn signature_of(table: &ClassTable, method: MethodId) -> Option<&Signature>
    ensures { option_copied result ≡ signature_of table.now method }
{
    if table.has_method(method) {
        Some(table.signature(method))
    } else {
        None
    }
}
