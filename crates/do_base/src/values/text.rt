//! Texts, which are bytes of any kind.
//!
//! A text shares its bytes by a counted pointer (`Rc`) to a vector, so that copying a text
//! takes no memory. The shared buffers of the crate `bytes` can be cut without a copy as well,
//! which no value needs. But they cannot grow in place: a text that is built byte by byte would
//! need a second type. A text whose bytes are shared copies them once before it changes, and
//! taking over a vector takes memory for the count.
ghost use Rattle.std.specs.Prelude.{◌≡◌, ◌<◌, [], ◌∷◌, ◌++◌, length, slice_set, ◌↔◌, IsTrue, IfOk};
ghost use Rattle.std.specs.Prelude.{OnErr, OnOk};

use crate::lists::exact::{ExactClone, ExactEq};
use crate::lists::items::Items;
use std::alloc::{AllocError, Global};
use std::cmp::Ordering;
use std::fmt;
use std::marker::Model;
use std::rc::Rc;

/// A text: bytes of any kind, which contracts see as the list of them.
///
/// It keeps the allocator that it was made with, and compares byte by byte. The type itself keeps
/// no limit on how many bytes there are. A clone shares the bytes and takes no memory; a text whose
/// bytes are shared copies them before it changes. Most calls have the names of those of `Vec`;
/// `push_bytes` and `is` are this project's.
#[derive(Drop)]
pub struct Text {
    bytes: Option<Rc<Vec<u8>, Global>>,
    alloc: Global,
}

/// How many bytes a text may have where a limit on texts is kept: of values, of exceptions, and of
/// what schedules and worlds quote.
pub const LONGEST_TEXT: usize = 1_048_575;

/// A word of the command line, as bytes.
pub type Word = Text;

/// A list of texts.
pub type Texts = Items<Text>;

impl Model for Text {
    ghost use Rattle.std.specs.{Prelude.{List, ℕ}, Option.option_map};
    ghost use Rattle.do_base.specs.values.Shared.{or_empty};

    ghost Value = { List ℕ };

    ghost view = { λ t. or_empty (option_map (λ rc. rc.value.items) t.bytes) };
}

impl Text {
    /// An empty text, for which no memory is taken.
    pub fn new(alloc: Global) -> Text
        ensures { result ≡ [] }
    {
        Text { bytes: None, alloc }
    }

    /// A text of these bytes.
    pub fn from_slice(alloc: Global, bytes: &[u8]) -> Result<Text, AllocError>
        ensures { IfOk result (λ t. t ≡ bytes.now) }
    {
        let bytes = Vec::from_slice(alloc, bytes)?;
        let shared = Rc::new(alloc, bytes)?;
        Ok(Text {
            bytes: Some(shared),
            alloc,
        })
    }

    /// Takes over the bytes of a `Vec` with no copy; memory is taken for the count of sharers
    /// alone.
    pub fn from_vec(alloc: Global, bytes: Vec<u8>) -> Result<Text, AllocError>
        ensures { IfOk result (λ t. t ≡ bytes.items) }
    {
        let shared = Rc::new(alloc, bytes)?;
        Ok(Text {
            bytes: Some(shared),
            alloc,
        })
    }

    /// The allocator that the text was made with.
    pub fn allocator(&self) -> Global {
        self.alloc
    }

    /// The bytes, to be read.
    pub fn as_slice(&self) -> &[u8]
        ensures { result.now ≡ self.now }
    {
        match &self.bytes {
            None => &[],
            Some(bytes) => bytes.as_ref().as_slice(),
        }
    }

    /// How many bytes there are.
    pub fn len(&self) -> usize
        ensures { result ≡ length self.now }
    {
        self.as_slice().len()
    }

    /// Whether there is no byte.
    pub fn is_empty(&self) -> bool
        ensures { IsTrue result ↔ (self.now ≡ []) }
    {
        self.as_slice().is_empty()
    }

    /// Appends a byte. If memory runs out, the text is unchanged.
    #[inline(always)]
    pub fn push(&mut self, byte: u8) -> Result<(), AllocError>
        ensures ok { OnOk result (self.new ≡ self.old ++ byte ∷ []) }
        ensures err { OnErr result (self.new ≡ self.old) }
    {
        if let Some(bytes) = &mut self.bytes {
            if let Some(own) = Rc::get_mut(bytes) {
                own.push(byte)?;
                return Ok(());
            }
        }
        self.push_bytes_anew(&[byte])
    }

    /// Appends these bytes. If memory runs out, the text is unchanged.
    #[inline(always)]
    pub fn push_bytes(&mut self, bytes: &[u8]) -> Result<(), AllocError>
        ensures ok { OnOk result (self.new ≡ self.old ++ bytes.now) }
        ensures err { OnErr result (self.new ≡ self.old) }
    {
        if let Some(old) = &mut self.bytes {
            if let Some(own) = Rc::get_mut(old) {
                return own.extend_from_slice(bytes);
            }
        }
        self.push_bytes_anew(bytes)
    }

    /// Appends bytes to an empty text, or to one whose bytes are shared, in a block of its own.
    #[inline(never)]
    fn push_bytes_anew(&mut self, bytes: &[u8]) -> Result<(), AllocError>
        ensures ok { OnOk result (self.new ≡ self.old ++ bytes.now) }
        ensures err { OnErr result (self.new ≡ self.old) }
    {
        match &mut self.bytes {
            None => {
                let bytes = Vec::from_slice(self.alloc, bytes)?;
                self.bytes = Some(Rc::new(self.alloc, bytes)?);
            }
            Some(old) => Rc::make_mut(old)?.extend_from_slice(bytes)?,
        }
        Ok(())
    }

    /// Puts a byte at a place, counted from 0. If memory runs out, the text is unchanged.
    pub fn set(&mut self, at: usize, byte: u8) -> Result<(), AllocError>
        requires { at < length self.old }
        ensures ok { OnOk result (self.new ≡ slice_set self.old at byte) }
        ensures err { OnErr result (self.new ≡ self.old) }
    {
        if let Some(bytes) = &mut self.bytes {
            Rc::make_mut(bytes)?[at] = byte;
        }
        Ok(())
    }

    /// Gives the bytes as a `Vec`. They are copied only where they are shared; `AllocError` comes
    /// where memory ran out for that copy.
    pub fn into_vec(self) -> Result<Vec<u8>, AllocError>
        ensures { IfOk result (λ bytes. bytes.items ≡ self) }
    {
        match self.bytes {
            None => Ok(Vec::new(self.alloc)),
            Some(bytes) => Rc::unwrap_or_clone(bytes),
        }
    }

    /// Makes room for `more` bytes. An empty text takes none. No clause says how much room there
    /// is: it serves speed alone.
    pub fn reserve(&mut self, more: usize) -> Result<(), AllocError>
        ensures { self.new ≡ self.old }
    {
        if let Some(bytes) = &mut self.bytes {
            Rc::make_mut(bytes)?.reserve(more)?;
        }
        Ok(())
    }

    /// Takes out every byte.
    pub fn clear(&mut self)
        ensures { self.new ≡ [] }
    {
        self.bytes = None;
    }

    /// Whether the text has just these bytes.
    pub fn is(&self, bytes: &[u8]) -> bool
        ensures { IsTrue result ↔ (self.now ≡ bytes.now) }
    {
        self.as_slice() == bytes
    }
}

impl Clone for Text {
    ghost is_clone = { λ x y. y ≡ x };

    fn clone(&self) -> Result<Text, AllocError> {
        let bytes = match &self.bytes {
            None => None,
            Some(bytes) => Some(bytes.clone()?),
        };
        Ok(Text {
            bytes,
            alloc: self.alloc,
        })
    }
}

impl ExactClone for Text {
    ghost exact_clone = { λ x y e. e };
}

impl PartialEq for Text {
    ghost use Rattle.std.specs.{Cmp.Lexicographic.pointwise, Prelude.◌==◌};
    ghost use Rattle.std.{specs.Cmp.partial_equiv_from_equiv, proofs.lemmas.Cmp.nat_list_eq_equiv};

    ghost eq = { pointwise ◌==◌ };

    ghost laws = { partial_equiv_from_equiv nat_list_eq_equiv };

    fn eq(&self, other: &Text) -> bool {
        self.as_slice() == other.as_slice()
    }
}

impl Eq for Text {
    ghost use Rattle.std.proofs.lemmas.Cmp.{nat_list_eq_equiv};

    ghost laws = { nat_list_eq_equiv };
}

impl Ord for Text {
    ghost use Rattle.std.specs.{Prelude.refl, Ordering.nat_cmp};
    ghost use Rattle.std.specs.Cmp.Lexicographic.{slice_cmp, nat_list_cmp_total, texts_ties};

    ghost cmp = { slice_cmp nat_cmp };

    ghost total = { nat_list_cmp_total };

    ghost matches_partial_cmp = { λ x y. refl };

    ghost matches_eq = { texts_ties };

    fn cmp(&self, other: &Text) -> Ordering {
        self.as_slice().cmp(other.as_slice())
    }
}

impl PartialOrd for Text {
    ghost use Rattle.std.specs.Ordering.{nat_cmp, as_partial_cmp};
    ghost use Rattle.std.specs.Cmp.Lexicographic.{slice_cmp, texts_po};

    ghost partial_cmp = { as_partial_cmp (slice_cmp nat_cmp) };

    ghost laws = { texts_po };

    fn partial_cmp(&self, other: &Text) -> Option<Ordering> {
        Some(self.cmp(other))
    }
}

impl ExactEq for Text {
    ghost use Rattle.std.proofs.{Common.rules, lemmas.Slice.Eq.bytes_eq-Decides};

    ghost exact_eq = { bytes_eq-Decides };
}

impl fmt::Debug for Text {
    fn fmt<W: fmt::Write>(&self, f: &mut fmt::Formatter<W>) -> fmt::Result {
        self.as_slice().fmt(f)
    }
}
