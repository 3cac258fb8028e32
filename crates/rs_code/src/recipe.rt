//! Which rows are made of given rows, and how.

ghost use Rattle.std.specs.Prelude.{◌≡◌};
ghost use Rattle.rs_code.specs.Recipes.{made_count};

use crate::basis::Basis;

/// Which rows are made of given rows, and how. What a row is depends on its index alone, and not on
/// how it is made.
#[derive(Clone, Copy)]
pub enum Recipe<'a> {
    /// The rows at these targets, of the rows at a basis' points, by what each of them counts for.
    ByWeights(&'a Basis, &'a [u16]),
    /// By the transform: of so many originals, so many recovery rows.
    Transformed(u16, u16),
}

impl<'a> Recipe<'a> {
    /// How many rows are made.
    pub fn count(&self) -> usize
        ensures { result ≡ made_count self.now }
    {
        match self {
            Recipe::ByWeights(_, targets) => targets.len(),
            Recipe::Transformed(_, m) => usize::from(*m),
        }
    }
}
