//! Where something stands in a document, and faults at such a place.
//!
//! A path is written as a text when a fault is found, and the place is a value of its own until
//! then. So a good document takes no memory for paths.
ghost use Rattle.std.specs.Prelude.{◌≡◌, ◌⊎◌, ◌++◌, IfOk, OnOk};
ghost use Rattle.do_document.specs.Paths.{front, in_class, numbered, path};

use crate::fault::WorldFault;
use do_base::Text;
use do_grammar::push_dec;
use std::alloc::{AllocError, Global};

/// A table of a document. Classes, the members of a class's list and nodes are counted from 0.
#[derive(Clone, Copy, Debug)]
pub enum Place {
    /// The document itself.
    Top,
    /// A class.
    Class(usize),
    /// A method, by the number of its class and its own.
    Method(usize, usize),
    /// A method that a checker's class allows, by the number of its class and its own.
    Allowed(usize, usize),
    /// A method that a checker's class denies, by the number of its class and its own.
    Denied(usize, usize),
    /// A node.
    Node(usize),
}

/// Adds a member of a list, counted from 0.
#[tactic(auto, unfolding(crate::specs::Paths::numbered))]
fn push_numbered(out: &mut Text, list: &[u8], k: usize) -> Result<(), AllocError>
    ensures { OnOk result (out.new ≡ out.old ++ numbered list.now k) }
{
    out.push_bytes(list)?;
    out.push(b'[')?;
    push_dec(out, k as u64)?;
    out.push(b']')
}

/// Adds what stands in front of the keys of a member of a class's list.
fn push_in_class(out: &mut Text, class: usize, list: &[u8], k: usize) -> Result<(), AllocError>
    ensures { OnOk result (out.new ≡ out.old ++ in_class class list.now k) }
{
    push_numbered(out, b"class", class)?;
    out.push(b'.')?;
    push_numbered(out, list, k)?;
    out.push(b'.')
}

impl Place {
    /// Adds what stands in front of the table's keys.
    fn push_front(self, out: &mut Text) -> Result<(), AllocError>
        ensures { OnOk result (out.new ≡ out.old ++ front self) }
    {
        match self {
            Place::Top => Ok(()),
            Place::Class(class) => {
                push_numbered(out, b"class", class)?;
                out.push(b'.')
            }
            Place::Method(class, k) => push_in_class(out, class, b"method", k),
            Place::Allowed(class, k) => push_in_class(out, class, b"allow", k),
            Place::Denied(class, k) => push_in_class(out, class, b"deny", k),
            Place::Node(node) => {
                push_numbered(out, b"node", node)?;
                out.push(b'.')
            }
        }
    }

    /// The path of a key of the table.
    #[tactic(auto, unfolding(crate::specs::Paths::path))]
    pub fn path(self, alloc: Global, key: &str) -> Result<Text, AllocError>
        ensures { IfOk result (λ at. at ≡ path self key.now) }
    {
        let mut at = Text::new(alloc);
        self.push_front(&mut at)?;
        at.push_bytes(key.as_bytes())?;
        Ok(at)
    }

    /// A key that must stand in the table and does not.
    pub fn missing(self, alloc: Global, key: &str) -> WorldFault
        ensures { (result ≡ WorldFault.Memory) ⊎ (result ≡ WorldFault.Missing (path self key.now)) }
    {
        match self.path(alloc, key) {
            Ok(at) => WorldFault::Missing(at),
            Err(_) => WorldFault::Memory,
        }
    }

    /// What stands at a key is wrong.
    pub fn wrong(self, alloc: Global, key: &str) -> WorldFault
        ensures { (result ≡ WorldFault.Memory) ⊎ (result ≡ WorldFault.Wrong (path self key.now)) }
    {
        match self.path(alloc, key) {
            Ok(at) => WorldFault::Wrong(at),
            Err(_) => WorldFault::Memory,
        }
    }

    /// The path of a member of the list at a key.
    fn member_path(self, alloc: Global, key: &str, k: usize) -> Result<Text, AllocError>
        ensures { IfOk result (λ at. at ≡ numbered (path self key.now) k) }
    {
        let list = self.path(alloc, key)?;
        let mut at = Text::new(alloc);
        push_numbered(&mut at, list.as_slice(), k)?;
        Ok(at)
    }

    /// A member of the list at a key is wrong.
    pub fn wrong_member(self, alloc: Global, key: &str, k: usize) -> WorldFault
        ensures { (result ≡ WorldFault.Memory)
            ⊎ (result ≡ WorldFault.Wrong (numbered (path self key.now) k)) }
    {
        match self.member_path(alloc, key, k) {
            Ok(at) => WorldFault::Wrong(at),
            Err(_) => WorldFault::Memory,
        }
    }
}
