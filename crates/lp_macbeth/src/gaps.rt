//! Differences of two elements as coefficients of the gaps between neighbours, the bottom gap first.

ghost use Rattle.std.specs.Prelude.{◌≡◌, ◌++◌, ◌-◌, ◌&&◌, nat_le, nat_lt, ◌-ℤ◌, pos, get_or, replicate, IfOk};
ghost use Rattle.judgement_matrix.specs.Matrix.{IsPair};
ghost use Rattle.lp_macbeth.specs.Gaps.{gap_coefs, opposite};
ghost use Rattle.lp_macbeth.specs.Rows.{cross_coefs};

use frac128::NoMemory;

/// Adds a number so many times.
pub(crate) fn push_copies(coefs: &mut Vec<i128>, value: i128, count: usize) -> Result<(), NoMemory>
    ensures { IfOk result (λ _. coefs.new.items ≡ coefs.old.items ++ replicate count value) }
{
    for _place in 0..count {
        coefs.push(value)?;
    }
    Ok(())
}

/// Adds the coefficients of the difference of elements `p` and `q` among `n`.
pub(crate) fn push_difference(
    coefs: &mut Vec<i128>,
    n: usize,
    p: usize,
    q: usize,
) -> Result<(), NoMemory>
    requires { IsPair n p q }
    ensures { IfOk result (λ _. coefs.new.items ≡ coefs.old.items ++ gap_coefs n p q) }
{
    push_copies(coefs, 0, n - q)?;
    push_copies(coefs, 1, q - p)?;
    push_copies(coefs, 0, p - 1)
}

/// Adds the coefficients of that difference with the other sign.
pub(crate) fn push_opposite(
    coefs: &mut Vec<i128>,
    n: usize,
    p: usize,
    q: usize,
) -> Result<(), NoMemory>
    requires { IsPair n p q }
    ensures { IfOk result (λ _. coefs.new.items ≡ coefs.old.items ++ opposite (gap_coefs n p q)) }
{
    push_copies(coefs, 0, n - q)?;
    push_copies(coefs, -1, q - p)?;
    push_copies(coefs, 0, p - 1)
}

// Whether the gap at a place, from 0, is between the elements.
fn is_between(n: usize, p: usize, q: usize, place: usize) -> bool
    requires { IsPair n p q }
    ensures { result ≡ (nat_le (n - q) place && nat_lt place (n - p)) }
{
    n - q <= place && place < n - p
}

// The coefficient of the gap at a place, from 0, where the second difference is taken off the first.
fn cross_coef(n: usize, left: (usize, usize), right: (usize, usize), place: usize) -> i128
    requires left { IsPair n left.0 left.1 }
    requires right { IsPair n right.0 right.1 }
    ensures { result ≡ get_or (gap_coefs n left.0 left.1) place (pos 0)
        -ℤ get_or (gap_coefs n right.0 right.1) place (pos 0) }
{
    let above = is_between(n, left.0, left.1, place);
    let below = is_between(n, right.0, right.1, place);
    if above == below {
        return 0;
    }
    if above { 1 } else { -1 }
}

/// Adds the coefficients by which the difference of the first two elements exceeds that of the other two.
pub(crate) fn push_cross(
    coefs: &mut Vec<i128>,
    n: usize,
    left: (usize, usize),
    right: (usize, usize),
) -> Result<(), NoMemory>
    requires left { IsPair n left.0 left.1 }
    requires right { IsPair n right.0 right.1 }
    ensures { IfOk result (λ _. coefs.new.items
        ≡ coefs.old.items ++ cross_coefs n left.0 left.1 right.0 right.1) }
{
    for place in 0..n - 1 {
        coefs.push(cross_coef(n, left, right, place))?;
    }
    Ok(())
}
