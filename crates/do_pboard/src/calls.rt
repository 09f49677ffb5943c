//! The calls of a core, as one type.
ghost use Rattle.std.specs.Prelude.{◌≡◌, ◌∷◌, List, IfOk, IfErr, OnOk, OnErr, Some, slice_get};
ghost use Rattle.do_grammar.specs.Words.{◌>>?◌};
ghost use Rattle.do_behave.specs.Steps.{local};
ghost use Rattle.do_native_acts.specs.{Faults.FaultOf, Rows.list_in, Types.types_in};
ghost use Rattle.do_pboard.specs.Calls.{IsCall, adds_types, asks_available, call_in, does};
ghost use Rattle.do_pboard.specs.{Calls.{limit_of, sets_data, text_or_nil}, Changes.available};
ghost use Rattle.do_pboard.specs.{History.after, declared.calls.Call.{Call, TheVariants.Declare}};

use crate::board::Board;
use do_base::{Oid, Text, Texts, Value};
use do_behave::Invocation;
use do_native_acts::{
    CoreFault, as_number, local_number, local_owner, local_text, read_list, show_list, types_in,
};
use std::alloc::AllocError;

/// A call of a core.
#[derive(Debug, Drop)]
pub enum Call {
    /// Declares types in place of others.
    Declare {
        types: Texts,
        owner: Option<Oid>,
    },
    /// Adds types to those that are declared.
    AddTypes {
        types: Texts,
        owner: Option<Oid>,
    },
    /// Keeps data of a type.
    SetData {
        content: Text,
        kind: Text,
        count: i64,
    },
    /// Asks for the first declared type among texts.
    Available {
        types: Texts,
    },
    /// Asks for the declared types.
    Types,
    /// Asks for the change count.
    ChangeCount,
    /// Keeps a pasteboard under a name.
    Keep {
        name: Text,
        board: Oid,
    },
}

/// The types that a local holds.
pub(crate) fn local_types(inv: &Invocation, k: u8) -> Result<Option<Texts>, AllocError>
    ensures { IfOk result (λ types. types ≡ (local inv.now k >>? types_in)) }
{
    match inv.local(k) {
        Some(value) => types_in(value),
        None => Ok(None),
    }
}

/// The call that adds types.
fn adds_types(inv: &Invocation) -> Result<Option<Call>, AllocError>
    ensures { IfOk result (λ call. call ≡ adds_types inv.now) }
{
    let Some(types) = local_types(inv, 0)? else {
        return Ok(None);
    };
    match local_owner(inv, 1) {
        Some(owner) => Ok(Some(Call::AddTypes { types, owner })),
        None => Ok(None),
    }
}

/// The call that keeps data of a type.
fn sets_data(inv: &Invocation) -> Result<Option<Call>, AllocError>
    ensures { IfOk result (λ call. call ≡ sets_data inv.now) }
{
    let Some(content) = local_text(inv, 0) else {
        return Ok(None);
    };
    let Some(kind) = local_text(inv, 1) else {
        return Ok(None);
    };
    let Some(count) = local_number(inv, 2) else {
        return Ok(None);
    };
    let content = content.clone()?;
    let kind = kind.clone()?;
    Ok(Some(Call::SetData {
        content,
        kind,
        count,
    }))
}

/// The call that asks for a type.
fn asks_available(inv: &Invocation) -> Result<Option<Call>, AllocError>
    ensures { IfOk result (λ call. call ≡ asks_available inv.now) }
{
    let Some(value) = inv.local(0) else {
        return Ok(None);
    };
    match read_list::<Text>(value)? {
        Some(types) => Ok(Some(Call::Available { types })),
        None => Ok(None),
    }
}

/// The call that a selector and the arguments make, of those that only answer; none where there is
/// none.
pub(crate) fn call_in(selector: &Text, inv: &Invocation) -> Result<Option<Call>, AllocError>
    ensures { IfOk result (λ call. call ≡ call_in selector.now inv.now) }
{
    if selector.is(b"addTypes:owner:") {
        return adds_types(inv);
    }
    if selector.is(b"setData:forType:count:") {
        return sets_data(inv);
    }
    if selector.is(b"availableTypeFromArray:") {
        return asks_available(inv);
    }
    if selector.is(b"types") {
        return Ok(Some(Call::Types));
    }
    if selector.is(b"changeCount") {
        return Ok(Some(Call::ChangeCount));
    }
    Ok(None)
}

/// The first of these texts that is a declared type, or nil.
fn available_in(board: &Board, types: &Texts) -> Result<Value, AllocError>
    ensures { IfOk result (λ value.
        value ≡ text_or_nil (available board.now types.now >>? λ k. slice_get types.now k)) }
{
    let Some(at) = board.available(types) else {
        return Ok(Value::Nil);
    };
    match types.get(at) {
        Some(kind) => Ok(Value::Text(kind.clone()?)),
        None => Ok(Value::Nil),
    }
}

/// Declares types, and answers with the change count.
fn declare(board: &mut Board, types: Texts, owner: Option<Oid>) -> Result<Value, CoreFault>
    requires { IsCall (Declare types owner) }
    ensures done { IfOk result (λ answer.
        does board.old (Declare types owner) ≡ Some (board.new, answer)) }
    ensures fault { IfErr result (FaultOf 9223372036854775807
        (does board.old (Declare types owner))) }
    ensures err { OnErr result (board.new ≡ board.old) }
{
    if !board.can_declare() {
        return Err(CoreFault::Full(9_223_372_036_854_775_807));
    }
    match board.declare(types, owner) {
        Ok((count, _)) => Ok(Value::Num(count)),
        Err(AllocError) => Err(CoreFault::Memory),
    }
}

impl Board {
    /// Does a call, and gives its answer as a value.
    // What calls in a row come to is proved once, at the one return of `perform`, and not at each
    // arm here.
    fn answer(&mut self, call: Call) -> Result<Value, CoreFault>
        requires { IsCall call }
        ensures done { IfOk result (λ answer. does self.old call ≡ Some (self.new, answer)) }
        ensures fault { IfErr result (FaultOf (limit_of call) (does self.old call)) }
        ensures err { OnErr result (self.new ≡ self.old) }
    {
        match call {
            Call::Declare { types, owner } => declare(self, types, owner),
            Call::AddTypes { types, owner } => match self.add_types(types, owner) {
                Ok(count) => Ok(Value::Num(count)),
                Err(fault) => Err(fault),
            },
            Call::SetData {
                content,
                kind,
                count,
            } => Ok(as_number(self.set_data(content, &kind, count))),
            Call::Available { types } => Ok(available_in(self, &types)?),
            Call::Types => Ok(show_list::<Text>(&self.types()?)?),
            Call::ChangeCount => Ok(Value::Num(self.change_count())),
            Call::Keep { name, board } => match self.keep(name, board) {
                Ok(kept) => Ok(Value::Obj(kept)),
                Err(fault) => Err(fault),
            },
        }
    }

    /// Does a call, and gives its answer as a value: a change count, 1 or 0 for yes or no, a text,
    /// an object, a list of texts, or nil for none. On any error the pasteboard is unchanged.
    pub fn perform(&mut self, call: Call) -> Result<Value, CoreFault>
        requires { IsCall call }
        ensures done { IfOk result (λ answer. does self.old call ≡ Some (self.new, answer)) }
        ensures fault { IfErr result (FaultOf (limit_of call) (does self.old call)) }
        ensures history { (h : List Call) → self.old ≡ after h
            → OnOk result (self.new ≡ after (call ∷ h)) }
        ensures err { OnErr result (self.new ≡ self.old) }
    {
        self.answer(call)
    }
}
