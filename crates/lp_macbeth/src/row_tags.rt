//! The tags of rows by their positions.

ghost use Rattle.std.specs.Prelude.{◌≡◌, ◌+◌, ◌<◌, length, sum, take, get_or, slice_get, map, Some, All, IfOk};
ghost use Rattle.judgement_matrix.specs.Matrix.{IsPair, pairs as all_pairs};
ghost use Rattle.judgement_matrix.specs.Rows.{cross_rows};
ghost use Rattle.lp_macbeth.specs.Rows.{judged_rows};
ghost use Rattle.lp_macbeth.specs.RowTags.{AreTables, cross_counts as counts_of, under_lists, pairs_below as below};

use crate::pairs::{element_pairs, range, under_each};
use crate::tags::{push_lower, push_zero};
use frac128::{List, NoMemory};
use judgement_matrix::{Matrix, Tag};
use std::alloc::Global;

/// The tags of the rows of `problem(matrix)` at these positions. Those of Cross, which may be very many, are not listed.
pub fn tags_at(alloc: Global, matrix: &Matrix, positions: &[usize]) -> Result<Vec<Tag>, NoMemory>
    requires { All (λ i. i < length (judged_rows matrix.now)) positions.now }
    ensures { IfOk result (λ tags. map Some tags.items
        ≡ map (slice_get (judged_rows matrix.now)) positions.now) }
{
    let tables = row_tables(alloc, matrix)?;
    let mut tags = Vec::new(alloc);
    for position in positions {
        tags.push(tag_at(matrix, &tables, *position))?;
    }
    Ok(tags)
}

// What tells a row's tag by its position.
#[derive(Drop)]
struct RowTables {
    // The tags of Lower and Zero.
    single: List<Tag>,
    // In pair order.
    pairs: List<(u8, u8)>,
    // How many rows of Cross each pair has.
    counts: List<usize>,
    // For each category the pairs below it.
    under: Vec<List<(u8, u8)>>,
}

// The tables of a matrix.
fn row_tables(alloc: Global, matrix: &Matrix) -> Result<RowTables, NoMemory>
    ensures { IfOk result (AreTables matrix.now) }
{
    let pairs = element_pairs(alloc, matrix.size() as u8)?;
    let mut single = Vec::new(alloc);
    push_lower(&mut single, matrix, pairs.as_slice())?;
    push_zero(&mut single, matrix, pairs.as_slice())?;
    let under = under_each(alloc, matrix, pairs.as_slice())?;
    let counts = cross_counts(alloc, matrix, pairs.as_slice(), under.as_slice())?;
    Ok(RowTables {
        single: List::make(single),
        pairs: List::make(pairs),
        counts: List::make(counts),
        under,
    })
}

// How many rows of Cross each pair has.
fn cross_counts(
    alloc: Global,
    matrix: &Matrix,
    pairs: &[(u8, u8)],
    under: &[List<(u8, u8)>],
) -> Result<Vec<usize>, NoMemory>
    requires pairs { pairs.now ≡ all_pairs matrix.now.size }
    requires under { under.now ≡ under_lists matrix.now }
    ensures { IfOk result (λ counts. counts.items ≡ counts_of matrix.now) }
{
    let mut counts = Vec::new(alloc);
    for pair in pairs {
        counts.push(pairs_below(matrix, under, *pair).len())?;
    }
    Ok(counts)
}

// The pairs whose ranges lie wholly below that of a pair.
fn pairs_below<'a>(matrix: &Matrix, under: &'a [List<(u8, u8)>], pair: (u8, u8)) -> &'a [(u8, u8)]
    requires pair { IsPair matrix.now.size pair.0 pair.1 }
    requires under { under.now ≡ under_lists matrix.now }
    ensures { result.now ≡ below matrix.now pair }
{
    let lo = range(matrix, pair).lo;
    under[usize::from(lo)].as_slice()
}

// The tag of the row at a position.
fn tag_at(matrix: &Matrix, tables: &RowTables, position: usize) -> Tag
    requires tables { AreTables matrix.now tables.now }
    requires row { position < length (judged_rows matrix.now) }
    ensures { slice_get (judged_rows matrix.now) position ≡ Some result }
{
    let single = tables.single.as_slice();
    if position < single.len() {
        return single[position];
    }
    cross_tag(matrix, tables, position - single.len())
}

// The tag of the row of Cross at a position among these.
fn cross_tag(matrix: &Matrix, tables: &RowTables, position: usize) -> Tag
    requires tables { AreTables matrix.now tables.now }
    requires row { position < length (cross_rows matrix.now) }
    ensures { slice_get (cross_rows matrix.now) position ≡ Some result }
{
    let (place, left_over) = part_at(tables.counts.as_slice(), position);
    let left = tables.pairs.as_slice()[place];
    let rights = pairs_below(matrix, tables.under.as_slice(), left);
    prove!(left_over < rights.len());
    let right = rights[left_over];
    Tag::Cross(left.0, left.1, right.0, right.1)
}

// In which of parts so long a position falls, and how far into it.
fn part_at(lengths: &[usize], position: usize) -> (usize, usize)
    requires { position < sum lengths.now }
    ensures part { result.0 < length lengths.now }
    ensures within { result.1 < get_or lengths.now result.0 0 }
    ensures before { sum (take result.0 lengths.now) + result.1 ≡ position }
{
    let mut place = 0;
    let mut left_over = position;
    while lengths[place] <= left_over {
        left_over -= lengths[place];
        place += 1;
    }
    (place, left_over)
}
