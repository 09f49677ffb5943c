//! The built-in world `:counter`: a client at node 7001, whose root asks for the root of a counter
//! at node 7002 and sends it a number to add.
ghost use Rattle.std.specs.Prelude.{◌≡◌, ◌<◌, ◌≤◌, ◌∷◌, [], ◌++◌, length, IfOk, OnOk, IsNone};
ghost use Rattle.std.specs.Prelude.{IsTrue, codes, false};
ghost use Rattle.do_class.specs.{Class.AreMethods, Table.class_named};
ghost use Rattle.do_grammar.specs.Names.{is_selector, colons};
ghost use Rattle.do_world.specs.Counter.{add_code, class_names, counter_classes, counter_codes};
ghost use Rattle.do_world.specs.Counter.{counter_kinds, counter_nodes, counter_rules};
ghost use Rattle.do_world.specs.{Counter.{counter_world, go_code, number_to_number}, Sound.IsSound};

use crate::codes::code_of;
use crate::world::World;
use do_base::{NodeId, Text};
use do_behave::{ClassCodes, Codes, Program};
use do_check::Rules;
use do_class::{ClassFault, ClassId, ClassTable, Method, Methods, Slot, Slots};
use do_class_kinds::{Kind, Kinds, RuleTable};
use do_machine::{Seat, Seats};
use do_script::{Code, Names};
use do_sig::{Scalar, Signature};
use std::alloc::{AllocError, Global};

/// The signature of a method that takes a number and gives a number.
fn number_to_number(alloc: Global) -> Result<Signature, AllocError>
    ensures { IfOk result (λ signature. signature ≡ number_to_number) }
{
    Signature::simple(alloc, Some(Scalar::LongLong), &[Scalar::LongLong])
}

/// One method, which takes a number and gives a number.
#[tactic(auto, using(crate::proofs::CounterClasses::counter_steps))]
fn one_method(alloc: Global, selector: &[u8]) -> Result<Methods, AllocError>
    requires selects { IsTrue (is_selector selector.now) }
    requires colons { colons selector.now ≡ 1 }
    ensures value { IfOk result (λ methods.
        methods ≡ record { selector = selector.now; signature = number_to_number } ∷ []) }
    ensures limits { IfOk result AreMethods }
{
    let selector = Text::from_slice(alloc, selector)?;
    let signature = number_to_number(alloc)?;
    let mut methods = Methods::new(alloc);
    methods.push(Method {
        selector,
        signature,
    })?;
    Ok(methods)
}

/// Adds a class whose name is new, with one method that takes a number and gives a number.
fn add_class(
    alloc: Global,
    table: &mut ClassTable,
    name: &[u8],
    slots: Slots,
    selector: &[u8],
) -> Result<(), AllocError>
    requires room { length table.old < 256 }
    requires name { IsNone (class_named table.old name.now) }
    requires slots { length slots ≤ 16 }
    requires selector { IsTrue (is_selector selector.now) }
    requires colons { colons selector.now ≡ 1 }
    ensures { OnOk result (table.new ≡ table.old ++ record {
      name = name.now;
      slots = slots;
      methods = record { selector = selector.now; signature = number_to_number } ∷ [];
    } ∷ []) }
{
    let name = Text::from_slice(alloc, name)?;
    let methods = one_method(alloc, selector)?;
    match table.add_class(name, slots, methods) {
        Ok(_) => Ok(()),
        Err(ClassFault::Memory) => Err(AllocError),
        Err(ClassFault::NameTaken) => unreachable!(),
        Err(ClassFault::TooManySlots(_)) => unreachable!(),
    }
}

/// The slots of a counter.
fn counter_slots(alloc: Global) -> Result<Slots, AllocError>
    ensures { IfOk result (λ slots. slots ≡ record { name = codes "value"; copy = false } ∷ []) }
{
    let mut slots = Slots::new(alloc);
    slots.push(Slot {
        name: Text::from_slice(alloc, b"value")?,
        copy: false,
    })?;
    Ok(slots)
}

/// The classes: 0 is `Counter` with a slot and `add:`, 1 is `Client` with `go:`.
#[tactic(auto, using(crate::proofs::CounterClasses::counter_steps))]
fn counter_table(alloc: Global) -> Result<ClassTable, AllocError>
    ensures { IfOk result (λ table. table ≡ counter_classes) }
{
    let mut table = ClassTable::new(alloc);
    let slots = counter_slots(alloc)?;
    add_class(alloc, &mut table, b"Counter", slots, b"add:")?;
    add_class(alloc, &mut table, b"Client", Slots::new(alloc), b"go:")?;
    Ok(table)
}

/// A node of a port that is not 0, with the class of its root.
fn seat(port: u16, root: u32) -> Seat
    requires { 0 < port }
    ensures { result ≡ record { node = port; root = record { 0 = root } } }
{
    match NodeId::new(port) {
        Some(node) => Seat {
            node,
            root: ClassId(root),
        },
        None => unreachable!(),
    }
}

/// The nodes: 7001 with a client, 7002 with a counter.
fn counter_nodes(alloc: Global) -> Result<Seats, AllocError>
    ensures { IfOk result (λ nodes. nodes ≡ counter_nodes) }
{
    let mut nodes = Seats::new(alloc);
    nodes.push(seat(7001, 1))?;
    nodes.push(seat(7002, 0))?;
    Ok(nodes)
}

/// The names of the classes.
fn class_names(alloc: Global) -> Result<Names, AllocError>
    ensures { IfOk result (λ names. names ≡ class_names) }
{
    let mut names = Names::new(alloc);
    names.push(Text::from_slice(alloc, b"Counter")?)?;
    names.push(Text::from_slice(alloc, b"Client")?)?;
    Ok(names)
}

/// A counter's `add:` adds the number that it is sent to its value, and returns the sum.
fn add_code(alloc: Global, classes: &Names) -> Result<Code, AllocError>
    requires { classes.now ≡ class_names }
    ensures { IfOk result (λ code. code ≡ add_code) }
{
    let mut slots = Names::new(alloc);
    slots.push(Text::from_slice(alloc, b"value")?)?;
    let text = b"get l1 value\nadd l1 l1 l0\nset value l1\nreturn l1";
    code_of(alloc, text, &slots, classes)
}

/// A client's `go:` sends `add:` with its number to the root of 7002, and shows and returns what
/// comes back.
fn go_code(alloc: Global, classes: &Names) -> Result<Code, AllocError>
    requires { classes.now ≡ class_names }
    ensures { IfOk result (λ code. code ≡ go_code) }
{
    let text = b"num l1 7002\nroot l2 l1\nsend l3 l2 add: l0\nsay l3\nreturn l3";
    code_of(alloc, text, &Names::new(alloc), classes)
}

/// The codes of a class with one method.
fn one_code(alloc: Global, code: Code) -> Result<ClassCodes, AllocError>
    ensures { IfOk result (λ codes. codes ≡ code ∷ []) }
{
    let mut codes = ClassCodes::new(alloc);
    codes.push(code)?;
    Ok(codes)
}

/// The codes of the methods of both classes.
fn counter_codes(alloc: Global) -> Result<Codes, AllocError>
    ensures { IfOk result (λ codes. codes ≡ counter_codes) }
{
    let classes = class_names(alloc)?;
    let mut codes = Codes::new(alloc);
    codes.push(one_code(alloc, add_code(alloc, &classes)?)?)?;
    codes.push(one_code(alloc, go_code(alloc, &classes)?)?)?;
    Ok(codes)
}

/// The kinds of both classes, which are scripts.
fn counter_kinds(alloc: Global) -> Result<Kinds, AllocError>
    ensures { IfOk result (λ kinds. kinds ≡ counter_kinds) }
{
    let mut kinds = Kinds::new(alloc);
    kinds.push(Kind::Script)?;
    kinds.push(Kind::Script)?;
    Ok(kinds)
}

/// The rules of both classes: none.
fn counter_rules(alloc: Global) -> Result<RuleTable, AllocError>
    ensures { IfOk result (λ rules. rules ≡ counter_rules) }
{
    let mut rules = RuleTable::new(alloc);
    rules.push(Rules::new(alloc))?;
    rules.push(Rules::new(alloc))?;
    Ok(rules)
}

/// The world `:counter`: node 7001 has a client as its root, and 7002 a counter.
///
/// The client's `go:` takes a number, sends it to the counter with `add:`, and shows and returns
/// the counter's new value. A machine can open with it. Fails where memory ran out.
pub fn counter(alloc: Global) -> Result<World, AllocError>
    ensures value { IfOk result (λ world. world ≡ counter_world) }
    ensures sound { IfOk result IsSound }
{
    let table = counter_table(alloc)?;
    let kinds = counter_kinds(alloc)?;
    let rules = counter_rules(alloc)?;
    let nodes = counter_nodes(alloc)?;
    let codes = counter_codes(alloc)?;
    let program = Program::new(&table, codes);
    Ok(World {
        table,
        kinds,
        rules,
        program,
        nodes,
    })
}
