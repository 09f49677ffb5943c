ghost use Rattle.std.specs.Prelude.{◌≡◌, List, ℕ, IfOk};

use do_base::Text;
use std::alloc::AllocError;

/// A row that a table is made of: a name and the value under it.
pub trait Entry<V> {
    ghost entry: { Self → List ℕ × V };

    /// The name.
    fn name(&self) -> Result<Text, AllocError>
        ensures { IfOk result (λ name. name ≡ (entry self.now).0) };

    /// The value that is kept under the name.
    fn kept(&self) -> Result<V, AllocError>
        ensures { IfOk result (λ value. value ≡ (entry self.now).1) };
}
