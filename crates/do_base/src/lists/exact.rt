//! Types whose copies are equal, and types whose `==` is equality.
ghost use Rattle.std.specs.Prelude.{◌≡◌, ◌↔◌, IsTrue};

/// A type whose clones equal what they were cloned from.
///
/// Most types say so in one line. It is what a list asks of its items to be cloned exactly. The
/// form is this project's own.
pub trait ExactClone: Clone + Drop {
    ghost exact_clone: { (x y : Self) → Self.is_clone x y → y ≡ x };
}

/// A type whose `==` holds exactly at equal values.
///
/// It is what a list asks of its items to search for one of them. The form is this project's own.
pub trait ExactEq: PartialEq {
    ghost exact_eq: { (x y : Self) → IsTrue (Self.eq x y) ↔ (x ≡ y) };
}

impl ExactClone for bool {
    ghost exact_clone = { λ x y e. e };
}

impl ExactClone for u8 {
    ghost exact_clone = { λ x y e. e };
}

impl ExactClone for u16 {
    ghost exact_clone = { λ x y e. e };
}

impl ExactClone for u32 {
    ghost exact_clone = { λ x y e. e };
}

impl ExactClone for u64 {
    ghost exact_clone = { λ x y e. e };
}

impl ExactClone for usize {
    ghost exact_clone = { λ x y e. e };
}

impl ExactClone for i32 {
    ghost exact_clone = { λ x y e. e };
}

impl ExactClone for i64 {
    ghost exact_clone = { λ x y e. e };
}

impl<T: ExactClone> ExactClone for Option<T> {
    ghost use Rattle.std.proofs.Common.{rules};

    ghost exact_clone = { λ x y h. Prim.search (rules, T.ExactClone.exact_clone) };
}

impl<A: ExactClone, B: ExactClone> ExactClone for (A, B) {
    ghost use Rattle.std.proofs.Common.{rules};

    ghost exact_clone = { λ x y h.
        Prim.search (rules, A.ExactClone.exact_clone, B.ExactClone.exact_clone) };
}

impl ExactEq for bool {
    ghost use Rattle.std.specs.Cmp.{booleans_Decides};

    ghost exact_eq = { booleans_Decides };
}

impl ExactEq for u8 {
    ghost use Rattle.std.specs.Cmp.{unsigned_Decides};

    ghost exact_eq = { unsigned_Decides };
}

impl ExactEq for u16 {
    ghost use Rattle.std.specs.Cmp.{unsigned_Decides};

    ghost exact_eq = { unsigned_Decides };
}

impl ExactEq for u32 {
    ghost use Rattle.std.specs.Cmp.{unsigned_Decides};

    ghost exact_eq = { unsigned_Decides };
}

impl ExactEq for u64 {
    ghost use Rattle.std.specs.Cmp.{unsigned_Decides};

    ghost exact_eq = { unsigned_Decides };
}

impl ExactEq for usize {
    ghost use Rattle.std.specs.Cmp.{unsigned_Decides};

    ghost exact_eq = { unsigned_Decides };
}

impl ExactEq for i32 {
    ghost use Rattle.std.specs.Cmp.{signed_Decides};

    ghost exact_eq = { signed_Decides };
}

impl ExactEq for i64 {
    ghost use Rattle.std.specs.Cmp.{signed_Decides};

    ghost exact_eq = { signed_Decides };
}

impl<T: ExactEq> ExactEq for Option<T> {
    ghost use Rattle.std.proofs.Common.{rules};

    ghost exact_eq = { λ x y. Prim.search (rules, T.ExactEq.exact_eq) };
}
