//! The pairs of elements in pair order, and those whose ranges lie below a category.

ghost use Rattle.std.specs.Prelude.{◌≡◌, ℕ, ◌+◌, ◌-◌, ◌++◌, ◌<◌, ◌≤◌, ◌∷◌, [], map, IfOk};
ghost use Rattle.std.specs.List.{flat_map, range_with_len};
ghost use Rattle.integers.specs.Counting.{numbers_from};
ghost use Rattle.judgement_matrix.specs.declared.matrix.TheConstants.{LIMIT};
ghost use Rattle.judgement_matrix.specs.Matrix.{IsPair, pairs as all_pairs, range_at};
ghost use Rattle.judgement_matrix.specs.Range.{IsRange};
ghost use Rattle.lp_macbeth.specs.Pairs.{ArePairs, row, under};

use frac128::{List, NoMemory};
use judgement_matrix::{Matrix, Range};
use std::alloc::Global;

/// The pairs of `n` elements in pair order.
pub fn element_pairs(alloc: Global, n: u8) -> Result<Vec<(u8, u8)>, NoMemory>
    requires { n ≤ LIMIT }
    ensures { IfOk result (λ pairs. pairs.items ≡ all_pairs n) }
{
    let mut pairs = Vec::new(alloc);
    for p in 1..n {
        push_row(&mut pairs, n, p)?;
    }
    Ok(pairs)
}

// Adds the pairs whose upper element is `p`.
fn push_row(pairs: &mut Vec<(u8, u8)>, n: u8, p: u8) -> Result<(), NoMemory>
    requires above { p < n }
    requires most { n ≤ LIMIT }
    ensures { IfOk result (λ _. pairs.new.items ≡ pairs.old.items ++ row n p) }
{
    for q in p + 1..n + 1 {
        pairs.push((p, q))?;
    }
    Ok(())
}

/// For each category from 0 to 6 the pairs whose ranges lie below it, in pair order.
pub(crate) fn under_each(
    alloc: Global,
    matrix: &Matrix,
    pairs: &[(u8, u8)],
) -> Result<Vec<List<(u8, u8)>>, NoMemory>
    requires { ArePairs matrix.now.size pairs.now }
    ensures { IfOk result (λ lists. lists.items
        ≡ map (λ (i : ℕ). under matrix.now pairs.now i) (numbers_from 0 7)) }
{
    let mut lists = Vec::new(alloc);
    for category in 0..7 {
        lists.push(List::make(pairs_under(alloc, matrix, pairs, category)?))?;
    }
    Ok(lists)
}

// The pairs whose ranges lie below a category.
fn pairs_under(
    alloc: Global,
    matrix: &Matrix,
    pairs: &[(u8, u8)],
    category: u8,
) -> Result<Vec<(u8, u8)>, NoMemory>
    requires { ArePairs matrix.now.size pairs.now }
    ensures { IfOk result (λ some. some.items ≡ under matrix.now pairs.now category) }
{
    let mut some = Vec::new(alloc);
    for pair in pairs {
        push_under(&mut some, matrix, *pair, category)?;
    }
    Ok(some)
}

// Adds the pair, if its range lies below the category.
fn push_under(
    some: &mut Vec<(u8, u8)>,
    matrix: &Matrix,
    pair: (u8, u8),
    category: u8,
) -> Result<(), NoMemory>
    requires { IsPair matrix.now.size pair.0 pair.1 }
    ensures { IfOk result (λ _. some.new.items
        ≡ some.old.items ++ under matrix.now (pair ∷ []) category) }
{
    if range(matrix, pair).hi < category {
        some.push(pair)?;
    }
    Ok(())
}

/// The range of a pair.
pub(crate) fn range(matrix: &Matrix, pair: (u8, u8)) -> Range
    requires { IsPair matrix.now.size pair.0 pair.1 }
    ensures value { result ≡ range_at matrix.now pair.0 pair.1 }
    ensures range { IsRange result }
{
    matrix.get(usize::from(pair.0), usize::from(pair.1)).0
}
