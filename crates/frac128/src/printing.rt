//! Fractions written as text.

ghost use Rattle.frac128.specs.Text.{frac_text, IsReading};
ghost use Rattle.std.specs.Prelude.{◌≡◌, IfOk, string_bytes};

use crate::frac::Frac;
use crate::reading::{FracFault, read_frac};
use std::alloc::{AllocError, Global};

impl Frac {
    /// `num/den` in lowest terms, and `num` alone where the denominator is 1.
    pub fn print(&self, alloc: Global) -> Result<String, AllocError>
        ensures text { IfOk result (λ text. string_bytes text ≡ frac_text self.now) }
        ensures reads_back { IfOk result (λ text. IsReading (string_bytes text) self.now) }
    {
        let num = self.num();
        let den = self.den();
        if den == 1 {
            format!(in alloc; "{num}")
        } else {
            format!(in alloc; "{num}/{den}")
        }
    }

    /// What reading the printed fraction gives, which is the fraction itself.
    pub fn read_printed(&self, alloc: Global) -> Result<Result<Frac, FracFault>, AllocError>
        ensures { IfOk result (λ again. again ≡ Ok self.now) }
    {
        let text = self.print(alloc)?;
        Ok(read_frac(text.as_bytes()))
    }
}
