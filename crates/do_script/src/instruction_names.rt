ghost use Rattle.std.specs.Prelude.{◌≡◌, map};
ghost use Rattle.do_script.specs.InstructionNames.{form_in, form_of};

use crate::form::{Form, OneLocal, ThreeLocals, TwoLocals};

/// The instructions by name, each with the form of its operands.
pub(crate) const INSTRUCTION_NAMES: [(&[u8], Form); 27] = [
    (b"nil", Form::One(OneLocal::Nil)),
    (b"num", Form::Number),
    (b"text", Form::Text),
    (b"self", Form::One(OneLocal::Own)),
    (b"move", Form::Two(TwoLocals::Move)),
    (b"get", Form::Get),
    (b"set", Form::Set),
    (b"add", Form::Three(ThreeLocals::Add)),
    (b"sub", Form::Three(ThreeLocals::Subtract)),
    (b"mul", Form::Three(ThreeLocals::Multiply)),
    (b"less", Form::Three(ThreeLocals::Less)),
    (b"same", Form::Three(ThreeLocals::Same)),
    (b"jump", Form::Jump),
    (b"ifnot", Form::IfNot),
    (b"list", Form::One(OneLocal::List)),
    (b"push", Form::Two(TwoLocals::Push)),
    (b"item", Form::Three(ThreeLocals::Item)),
    (b"count", Form::Two(TwoLocals::Count)),
    (b"new", Form::New),
    (b"send", Form::Send),
    (b"root", Form::Two(TwoLocals::Root)),
    (b"vend", Form::One(OneLocal::Vend)),
    (b"say", Form::One(OneLocal::Say)),
    (b"return", Form::One(OneLocal::Return)),
    (b"raise", Form::One(OneLocal::Raise)),
    (b"catch", Form::Catch),
    (b"nocatch", Form::Nothing),
];

/// The form of the first row of a name.
fn form_among(rows: &[(&[u8], Form)], name: &[u8]) -> Option<Form>
    ensures { result ≡ form_in (map (λ row. (row.0.now, row.1)) rows.now) name.now }
{
    for (word, form) in rows {
        if *word == name {
            return Some(*form);
        }
    }
    None
}

/// The form of the instruction of a name.
#[tactic(auto, unfolding(crate::specs::InstructionNames::form_of))]
pub(crate) fn form_named(name: &[u8]) -> Option<Form>
    ensures { result ≡ form_of name.now }
{
    form_among(&INSTRUCTION_NAMES, name)
}
