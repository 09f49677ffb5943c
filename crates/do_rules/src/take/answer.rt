//! What came as the answer to a call, as the answer that its invocation uses.
ghost use Rattle.std.specs.Prelude.{◌≡◌, IfOk};
ghost use Rattle.do_machine.specs.take.Awaiting.{method_answer, values_answer};

use crate::effect::given;
use crate::node::methods::signature_of;
use crate::run::arguments::outs_take;
use do_base::{Exc, Value, Values, copy_value};
use do_behave::{Answer, Waited};
use do_class::ClassTable;
use do_sig::Signature;
use std::alloc::{AllocError, Global};

/// The answer of a result and out values.
fn given_answer(value: &Value, outs: Values) -> Result<Answer, AllocError>
    ensures { IfOk result (λ a. a ≡ Answer.Given value.now outs) }
{
    match copy_value(value) {
        Ok(result) => Ok(Answer::Given { result, outs }),
        Err(error) => {
            drop(outs);
            Err(error)
        }
    }
}

/// A result and out values that fit the method that was called.
fn method_answer(
    alloc: Global,
    signature: &Signature,
    value: &Value,
    outs: &[Value],
) -> Result<Answer, AllocError>
    ensures { IfOk result (λ a. a ≡ method_answer signature.now value.now outs.now) }
{
    if !signature.result_fits(value) {
        return Ok(Answer::Raised(Exc::TypeFault));
    }
    let mut values = Values::new(alloc);
    let done = values.extend_from_slice(outs);
    let outs = given(values, done)?;
    if !outs_take(signature, &outs) {
        drop(outs);
        return Ok(Answer::Raised(Exc::TypeFault));
    }
    given_answer(value, outs)
}

/// What values are as an answer.
pub(crate) fn values_answer(
    table: &ClassTable,
    values: &Values,
    what: Waited,
) -> Result<Answer, AllocError>
    ensures { IfOk result (λ a. a ≡ values_answer table.now values.now what) }
{
    match what {
        Waited::Method(method) => {
            let [value, outs @ ..] = values.as_slice() else {
                return Ok(Answer::Raised(Exc::TypeFault));
            };
            match signature_of(table, method) {
                Some(signature) => method_answer(values.allocator(), signature, value, outs),
                None => Ok(Answer::Raised(Exc::TypeFault)),
            }
        }
        Waited::Root => {
            let [value] = values.as_slice() else {
                return Ok(Answer::Raised(Exc::TypeFault));
            };
            given_answer(value, Values::new(values.allocator()))
        }
    }
}
