ghost use Rattle.std.specs.{Prelude.{◌≡◌, ◌++◌, length, map, IfOk, OnOk}, List.All};
ghost use Rattle.std.specs.Option.{option_to_list};
ghost use Rattle.do_sig.specs.MethodTypes.{IsMethodType};
ghost use Rattle.do_class.specs.Class.{AreMethods};
ghost use Rattle.do_class_kinds.specs.Methods.{AreTyped, method_said};
ghost use Rattle.do_class_kinds.specs.Native.{native_methods, spellings};

use crate::kind::Kind;
use do_base::Text;
use do_class::{Method, Methods};
use do_sig::{EncFault, Signature};
use std::alloc::{AllocError, Global};

/// The methods of the server of names: selectors, and the types of arguments and results.
const NAMES: [(&str, &str); 3] = [
    ("register:port:", "B@:*S"),
    ("lookup:", "S@:*"),
    ("unregister:", "B@:*"),
];

/// The methods of a pasteboard.
const PASTEBOARD: [(&str, &str); 8] = [
    ("declareTypes:owner:", "q@:@@"),
    ("addTypes:owner:", "q@:@@"),
    ("setData:forType:count:", "B@:@*q"),
    ("dataForType:", "@@:*"),
    ("types", "@@:"),
    ("changeCount", "q@:"),
    ("availableTypeFromArray:", "@@:@"),
    ("pasteboardNamed:", "@@:*"),
];

/// The methods of the server of services.
const SERVICES: [(&str, &str); 5] = [
    ("addService:", "B@:@"),
    ("removeService:", "B@:*"),
    ("services", "@@:"),
    ("serviceNamed:", "@@:*"),
    ("performService:pasteboard:error:", "B@:*@o^@"),
];

/// The methods of a center.
const CENTER: [(&str, &str); 4] = [
    (
        "addObserver:selector:name:object:suspensionBehavior:",
        "v@:@*@@q",
    ),
    ("removeObserver:name:object:", "v@:@@@"),
    ("setSuspended:for:", "v@:B@"),
    (
        "postNotificationName:object:userInfo:deliverImmediately:",
        "v@:*@@B",
    ),
];

/// The method that every checker has.
const CHECKER: [(&str, &str); 1] = [("guard:", "v@:@")];

/// The selector and the types of each method that a kind has by itself.
fn spellings(kind: Kind) -> &'static [(&'static str, &'static str)]
    ensures { map (λ m. (m.0.now, m.1.now)) result.now ≡ spellings kind }
{
    match kind {
        Kind::Script => &[],
        Kind::Names => &NAMES,
        Kind::Pasteboard => &PASTEBOARD,
        Kind::Services => &SERVICES,
        Kind::Center => &CENTER,
        Kind::Checker => &CHECKER,
    }
}

/// Adds the method of a selector and types; none where the types spell no signature.
fn push_method(methods: &mut Methods, selector: &str, types: &str) -> Result<(), AllocError>
    ensures value { OnOk result (methods.new
        ≡ methods.old ++ option_to_list (method_said selector.now types.now)) }
    ensures typed { AreTyped methods.old → OnOk result (AreTyped methods.new) }
{
    let alloc = methods.allocator();
    match Signature::read(alloc, types.as_bytes()) {
        Ok(signature) => {
            let selector = Text::from_slice(alloc, selector.as_bytes())?;
            methods.push(Method {
                selector,
                signature,
            })
        }
        Err(EncFault::Memory) => Err(AllocError),
        Err(_) => Ok(()),
    }
}

/// The methods that a native class has by itself, in order; of a checker `guard:` alone.
///
/// A class of scripts has no methods but its own, so there are none for `Script`. An error means
/// that memory ran out. Selectors follow the classes after which a kind is made; the types are this
/// project's own.
pub fn native_methods(alloc: Global, kind: Kind) -> Result<Methods, AllocError>
    ensures value { IfOk result (λ methods. methods ≡ native_methods kind) }
    ensures all { IfOk result (λ methods. length methods ≡ length (spellings kind)) }
    ensures limits { IfOk result AreMethods }
    ensures typed { IfOk result AreTyped }
{
    let mut methods = Methods::new(alloc);
    let spelled = spellings(kind);
    for (selector, types) in spelled {
        push_method(&mut methods, *selector, *types)?;
    }
    Ok(methods)
}
