use do_base::{Locals, Text};

/// One instruction of a method's code, which is one act of an invocation.
///
/// Locals are numbered from 0 to 15, slots by their place in the class's list of slots, classes by
/// their place in the list of classes, and the places to go on at from 0 to the number of
/// instructions, where the method ends. The language is this project's own.
#[derive(Debug, PartialEq, Eq, Drop)]
pub enum Instruction {
    /// `nil D`: nil.
    Nil {
        into: u8,
    },
    /// `num D NUMBER`: a number of 64 bits, in decimal digits, behind a `-` where it is below 0.
    Number {
        into: u8,
        number: i64,
    },
    /// `text D "TEXT"`: a text of at most `LONGEST_TEXT` bytes.
    Text {
        into: u8,
        text: Text,
    },
    /// `self D`: the object whose method runs.
    Own {
        into: u8,
    },
    /// `move D S`: what another local holds.
    Move {
        into: u8,
        from: u8,
    },
    /// `get D SLOT`: what a slot of the own object holds.
    Get {
        into: u8,
        slot: usize,
    },
    /// `set SLOT S`: writes a slot of the own object.
    Set {
        slot: usize,
        from: u8,
    },
    /// `add D A B`: the sum.
    Add {
        into: u8,
        left: u8,
        right: u8,
    },
    /// `sub D A B`: the difference.
    Subtract {
        into: u8,
        left: u8,
        right: u8,
    },
    /// `mul D A B`: the product.
    Multiply {
        into: u8,
        left: u8,
        right: u8,
    },
    /// `less D A B`: 1 where the first number is below the second, else 0.
    Less {
        into: u8,
        left: u8,
        right: u8,
    },
    /// `same D A B`: 1 where the values are equal, else 0.
    Same {
        into: u8,
        left: u8,
        right: u8,
    },
    /// `jump @L`: goes on at a place.
    Jump {
        to: usize,
    },
    /// `ifnot A @L`: goes on at a place where the local holds nil or 0.
    IfNot {
        test: u8,
        to: usize,
    },
    /// `list D`: an empty list.
    List {
        into: u8,
    },
    /// `push D S`: appends a value to a list.
    Push {
        list: u8,
        item: u8,
    },
    /// `item D A I`: the item of a list at an index.
    Item {
        into: u8,
        list: u8,
        index: u8,
    },
    /// `count D A`: how many items a list has, or bytes a text.
    Count {
        into: u8,
        of: u8,
    },
    /// `new D CLASS`: a new object.
    New {
        into: u8,
        class: usize,
    },
    /// `send D T SELECTOR A..`: sends a message, with one local for each colon of the selector.
    Send {
        into: u8,
        target: u8,
        selector: Text,
        from: Locals,
    },
    /// `root D P`: the root of the node with that port.
    Root {
        into: u8,
        port: u8,
    },
    /// `vend S`: makes a value the root of its node.
    Vend {
        value: u8,
    },
    /// `say S`: shows a value.
    Say {
        value: u8,
    },
    /// `return S`: ends the method with a result.
    Return {
        value: u8,
    },
    /// `raise S`: ends the method with an exception.
    Raise {
        value: u8,
    },
    /// `catch D @L`: sets the handler.
    Catch {
        into: u8,
        to: usize,
    },
    /// `nocatch`: removes the handler.
    EndCatch,
}
