//! A class of one method.

ghost use Rattle.std.specs.Prelude.{◌≡◌, IfOk, length};
ghost use Rattle.do_class.specs.Class.{AreMethods};

use do_base::Text;
use do_class::{ClassTable, Method, Methods, Slots};
use do_grammar::{colons_in, is_selector};
use do_sig::Signature;
use std::alloc::Global;
use std::test::Fail;

/// The one method of a class.
fn one_method(alloc: Global, selector: &[u8], types: &[u8]) -> Result<Methods, Fail>
    ensures { IfOk result AreMethods }
{
    let selector = Text::from_slice(alloc, selector)?;
    let signature = Signature::read(alloc, types)?;
    if !is_selector(selector.as_slice()) || colons_in(selector.as_slice()) != signature.args() {
        return Err(Fail::from("no method"));
    }
    let mut methods = Methods::new(alloc);
    methods.push(Method {
        selector,
        signature,
    })?;
    Ok(methods)
}

/// A table of one class, of one method.
pub(crate) fn table(alloc: Global, selector: &[u8], types: &[u8]) -> Result<ClassTable, Fail> {
    let mut table = ClassTable::new(alloc);
    let name = Text::from_slice(alloc, b"Server")?;
    let methods = one_method(alloc, selector, types)?;
    table.add_class(name, Slots::new(alloc), methods)?;
    Ok(table)
}
