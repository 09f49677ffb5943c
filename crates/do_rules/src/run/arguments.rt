//! The values of a send and of an answer, as the signature has them.
ghost use Rattle.std.specs.Prelude.{◌≡◌, ◌∷◌, ◌++◌, [], IfOk, OnOk, drop, if◌then◌else◌, map};
ghost use Rattle.do_sig.specs.{Calls.{encoding_fits, is_oneway, qualifiers_of}, Fits.each_takes};
ghost use Rattle.do_machine.specs.run.Send.{inputs, inputs_by, outs_by, outs_of};

use crate::effect::Done;
use crate::lists::copied;
use do_base::{ExactClone, Flags, Items, Value, Values, copy_value};
use do_machine::SendAct;
use do_sig::Signature;
use std::alloc::{AllocError, Global};

/// Which arguments are copied.
#[tactic(auto, using(crate::proofs::Arguments::qualifier_steps))]
pub(crate) fn copy_marks(alloc: Global, signature: &Signature) -> Result<Flags, AllocError>
    ensures { IfOk result (λ flags. flags ≡ map (λ q. q.copy) (qualifiers_of signature.now)) }
{
    let mut marks = Flags::new(alloc);
    for k in 0..signature.args() {
        marks.push(signature.qualifier(k).copy)?;
    }
    Ok(marks)
}

/// What is passed of a value: nil, where it does not go in.
fn input(goes_in: bool, value: &Value) -> Result<Value, AllocError>
    ensures { IfOk result (λ v. v ≡ (if goes_in then value.now else Value.Nil)) }
{
    if goes_in {
        copy_value(value)
    } else {
        Ok(Value::Nil)
    }
}

/// Appends values as they are passed, the first of them beside the argument at a place.
fn push_passed(inputs: &mut Values, signature: &Signature, k: usize, values: &[Value]) -> Done
    ensures { OnOk result (inputs.new
        ≡ inputs.old ++ inputs_by (drop k signature.now.args) values.now) }
{
    if k >= signature.args() {
        return Ok(());
    }
    let [value, values @ ..] = values else {
        return Ok(());
    };
    inputs.push(input(signature.qualifier(k).goes_in, value)?)?;
    push_passed(inputs, signature, k + 1, values)
}

/// The values of a send as they are passed.
pub(crate) fn inputs(signature: &Signature, send: &SendAct) -> Result<Values, AllocError>
    ensures { IfOk result (λ vs. vs ≡ inputs signature.now send.now) }
{
    let mut values = Values::new(send.args.allocator());
    push_passed(&mut values, signature, 0, send.args.as_slice())?;
    Ok(values)
}

/// Appends a copy of a member whose argument comes out.
fn push_if<T: ExactClone>(outs: &mut Items<T>, comes_out: bool, item: &T) -> Done
    ensures { OnOk result (outs.new ≡ outs.old ++ (if comes_out then item.now ∷ [] else [])) }
{
    if !comes_out {
        return Ok(());
    }
    outs.push(copied(item)?)
}

/// Appends those members that stand beside arguments that come out, the first of them beside the
/// argument at a place.
fn push_outs<T: ExactClone>(
    outs: &mut Items<T>,
    signature: &Signature,
    k: usize,
    items: &[T],
) -> Done
    ensures { OnOk result (outs.new ≡ outs.old
        ++ outs_by (is_oneway signature.now) (drop k signature.now.args) items.now) }
{
    if k >= signature.args() {
        return Ok(());
    }
    let [item, rest @ ..] = items else {
        return Ok(());
    };
    push_if(outs, signature.qualifier(k).comes_out, item)?;
    push_outs(outs, signature, k + 1, rest)
}

/// Of a list with one member for each argument those that come out.
pub(crate) fn outs_of<T: ExactClone>(
    signature: &Signature,
    items: &Items<T>,
) -> Result<Items<T>, AllocError>
    ensures { IfOk result (λ xs. xs ≡ outs_of signature.now items.now) }
{
    let mut outs = Items::new(items.allocator());
    push_outs(&mut outs, signature, 0, items.as_slice())?;
    Ok(outs)
}

/// Whether values are as many as the arguments from one on that come out, and fit them.
#[tactic(auto, using(crate::proofs::Arguments::argument_steps))]
fn outs_take_from(signature: &Signature, k: usize, outs: &[Value]) -> bool
    ensures { result ≡ each_takes (map encoding_fits
        (outs_by (is_oneway signature.now) (drop k signature.now.args) (drop k signature.now.args)))
        outs.now }
{
    if k >= signature.args() {
        return match outs {
            [] => true,
            [_, ..] => false,
        };
    }
    if !signature.qualifier(k).comes_out {
        return outs_take_from(signature, k + 1, outs);
    }
    let [value, outs @ ..] = outs else {
        return false;
    };
    if !signature.fits(value, k) {
        return false;
    }
    outs_take_from(signature, k + 1, outs)
}

/// Whether values are as many as the arguments that come out, and fit them.
pub(crate) fn outs_take(signature: &Signature, outs: &Values) -> bool
    ensures { result ≡ each_takes
        (map encoding_fits (outs_of signature.now signature.now.args)) outs.now }
{
    outs_take_from(signature, 0, outs.as_slice())
}
