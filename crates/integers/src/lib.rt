//! The algebra of whole numbers: a theory that proofs stand on, and a few of its facts as tests in
//! code.
#![tactic(auto)]

ghost use Rattle.integers.specs.Divisibility.{AreCoprime};
ghost use Rattle.integers.specs.Lexicographic.{IsLexPositive};
ghost use Rattle.std.specs.Prelude.{◌≡◌, ◌↔◌, ◌*ℤ◌, IsTrue};

pub mod number_laws;

/// Whether `a / b` and `c / d` are one number, by cross products. Both denominators are meant to be
/// other than 0.
pub fn is_same_fraction(a: i64, b: i64, c: i64, d: i64) -> bool
    ensures { IsTrue result ↔ (a *ℤ d ≡ c *ℤ b) }
{
    wide_product(a, d) == wide_product(c, b)
}

// The product, which no two 64-bit numbers take out of 128 bits.
fn wide_product(a: i64, b: i64) -> i128
    ensures { result ≡ a *ℤ b }
{
    i128::from(a) * i128::from(b)
}

/// Whether no number but 1 divides both `a` and `b`.
pub fn are_coprime(a: u64, b: u64) -> bool
    ensures { IsTrue result ↔ AreCoprime a b }
{
    let mut x = a;
    let mut y = b;
    while y != 0 {
        let rest = x % y;
        x = y;
        y = rest;
    }
    x == 1
}

/// Whether the first number other than 0 is positive; a list of zeros has none.
pub fn is_lex_positive(xs: &[i64]) -> bool
    ensures { IsTrue result ↔ IsLexPositive xs.now }
{
    for x in xs {
        if *x != 0 {
            return *x > 0;
        }
    }
    false
}
