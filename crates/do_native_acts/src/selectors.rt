ghost use Rattle.std.specs.{Prelude.{◌≡◌, IfSome, IsTrue}, Option.option_copied};
ghost use Rattle.do_grammar.specs.Names.{is_selector};
ghost use Rattle.do_native_acts.specs.Places.{selector_in};

use do_base::Text;
use do_behave::Invocation;
use do_class::ClassTable;

/// The selector of the method that an invocation runs; none where the invocation has not 16 locals,
/// or the table has no such method.
#[tactic(auto, using(crate::proofs::MethodMissing::missing_steps))]
pub fn selector_in<'a>(table: &'a ClassTable, inv: &Invocation) -> Option<&'a Text>
    ensures value { option_copied result ≡ selector_in table.now inv.now }
    ensures selects { IfSome result (λ selector. IsTrue (is_selector selector.now)) }
{
    let is_known = table.has_method(inv.method);
    if inv.locals.len() == 16 && is_known {
        Some(table.selector(inv.method))
    } else {
        None
    }
}
