use do_base::Text;
use indexmap::Equivalent;
use std::hash::{Hash, Hasher};
use std::marker::Model;

/// A name as a key of a table, which contracts see as its bytes.
#[derive(Drop)]
pub(crate) struct Key {
    text: Text,
}

impl Model for Key {
    ghost use Rattle.std.specs.Prelude.{List, ℕ};

    ghost Value = { List ℕ };

    ghost view = { λ k. k.text };
}

impl Key {
    ghost use Rattle.std.specs.Prelude.{◌≡◌};

    /// The key of a name.
    pub(crate) fn new(text: Text) -> Key
        ensures { result ≡ text }
    {
        Key { text }
    }

    /// The name.
    pub(crate) fn text(&self) -> &Text
        ensures { result.now ≡ self.now }
    {
        &self.text
    }
}

impl PartialEq for Key {
    ghost use Rattle.std.specs.{Cmp.Lexicographic.pointwise, Prelude.◌==◌};
    ghost use Rattle.std.{specs.Cmp.partial_equiv_from_equiv, proofs.lemmas.Cmp.nat_list_eq_equiv};

    ghost eq = { pointwise ◌==◌ };

    ghost laws = { partial_equiv_from_equiv nat_list_eq_equiv };

    fn eq(&self, other: &Key) -> bool {
        self.text == other.text
    }
}

impl Eq for Key {
    ghost use Rattle.std.proofs.lemmas.Cmp.{nat_list_eq_equiv};

    ghost laws = { nat_list_eq_equiv };
}

impl Hash for Key {
    ghost use Rattle.std.specs.Hash as fed;
    ghost use Rattle.std.{proofs.Common.ap, specs.Cmp.Lexicographic.bytes_decides};

    ghost hash_input = { fed.slice fed.u8 };

    ghost respects_eq = { λ x y same. ap (fed.slice fed.u8) ((bytes_decides x y).0 same) };

    fn hash<H: Hasher>(&self, state: &mut H) {
        self.text.as_slice().hash(state);
    }
}

/// A key is found by its bytes, so that a look-up copies no name.
impl Equivalent<Key> for &[u8] {
    ghost use Rattle.std.specs.Hash as fed;
    ghost use Rattle.std.{specs.Prelude.◌==◌, proofs.Common.ap};
    ghost use Rattle.std.specs.Cmp.Lexicographic.{pointwise, bytes_decides, nat_list_eq_equiv};

    ghost equivalent = { λ q k. pointwise ◌==◌ q.now k };

    ghost respects_hash = { λ q k same. ap (fed.slice fed.u8) ((bytes_decides q.now k).0 same) };

    ghost respects_eq = { λ q x y. nat_list_eq_equiv.congr q.now x y };

    fn equivalent(&self, key: &Key) -> bool {
        *self == key.text.as_slice()
    }
}
