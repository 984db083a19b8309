//! The values that one element of a scale may have while the others stay.

ghost use Rattle.std.specs.Prelude.{◌≡◌, ◌≢◌, ℕ, ◌≤◌, ◌<◌, ℤ, pos, negsuc, ◌≤ℤ◌, length, nat_le, nat_lt, ◌==◌, IfOk, OnOk, OnErr};
ghost use Rattle.integers.specs.Fraction.{fraction_of};
ghost use Rattle.judgement_matrix.specs.Matrix.{IsPair, pairs, range_at};
ghost use Rattle.judgement_matrix.specs.Rows.{IsTagAmong, lower_rows, zero_rows, cross_rows_under, cross_rows, order_rows, rows};
ghost use Rattle.judgement_matrix.specs.Values.{fraction_at, checked_gap};
ghost use Rattle.value_scale.specs.Slack.{MeetValues, IsSlackOf, IsTooWideToWork, presence, gap_coefficient, coefficient, bound, vacated, checked_side, checked_end};
ghost use Rattle.value_scale.specs.Narrowing.{checked_slack, from_next, from_end, lesser, up_to_end, with_row, with_row_where, with_rows};

use frac128::laws::are_fractions;
use frac128::{Frac, TooWide};
use judgement_matrix::{Matrix, Tag};
use std::cmp::Ordering;

/// The values from `low` on and, where there is an upper end, up to it.
#[derive(Clone, Copy, Debug, PartialEq, Eq)]
pub struct Interval {
    pub low: Frac,
    pub high: Option<Frac>,
}

// Whether the element stands at `p`, as a number.
fn presence_at(element: usize, p: usize) -> i128
    ensures value { result ≡ presence element p }
    ensures least { pos 0 ≤ℤ result }
    ensures most { result ≤ℤ pos 1 }
{
    if p == element { 1 } else { 0 }
}

// The coefficient of the element's value in how far `p` is above `q`.
fn gap_coefficient_of(element: usize, p: usize, q: usize) -> i128
    ensures value { result ≡ gap_coefficient element p q }
    ensures least { negsuc 0 ≤ℤ result }
    ensures most { result ≤ℤ pos 1 }
{
    presence_at(element, p) - presence_at(element, q)
}

// The coefficient of the element's value in the left side of a row.
fn coefficient_of(element: usize, tag: Tag) -> i128
    ensures value { result ≡ coefficient element tag }
    ensures least { negsuc 1 ≤ℤ result }
    ensures most { result ≤ℤ pos 2 }
{
    match tag {
        Tag::Lower(p, q) => gap_coefficient_of(element, usize::from(p), usize::from(q)),
        Tag::Zero(p, q) => gap_coefficient_of(element, usize::from(q), usize::from(p)),
        Tag::Cross(p, q, y, z) => {
            let above = gap_coefficient_of(element, usize::from(p), usize::from(q));
            above - gap_coefficient_of(element, usize::from(y), usize::from(z))
        }
        Tag::Order(p) => gap_coefficient_of(element, usize::from(p), usize::from(p) + 1),
    }
}

// What the left side of a row has to reach.
fn bound_of(matrix: &Matrix, tag: Tag) -> i128
    requires { IsTagAmong matrix.now.size tag }
    ensures value { result ≡ bound matrix.now tag }
    ensures least { negsuc 5 ≤ℤ result }
    ensures most { result ≤ℤ pos 6 }
{
    match tag {
        Tag::Lower(p, q) => {
            let (range, _) = matrix.get(usize::from(p), usize::from(q));
            i128::from(range.lo)
        }
        Tag::Cross(p, q, y, z) => {
            let (left, _) = matrix.get(usize::from(p), usize::from(q));
            let (right, _) = matrix.get(usize::from(y), usize::from(z));
            i128::from(left.lo) - i128::from(right.hi)
        }
        Tag::Zero(_, _) | Tag::Order(_) => 0,
    }
}

// The value of `p`, with 0 in place of that of the element.
fn value_without(values: &[Frac], element: usize, p: usize) -> Frac
    requires element { (1 ≤ element) × (element ≤ length values.now) }
    requires within { (1 ≤ p) × (p ≤ length values.now) }
    ensures { result ≡ fraction_at (vacated values.now element) p }
{
    if p == element {
        Frac::whole(0)
    } else {
        values[p - 1]
    }
}

// How far `p` is above `q` then.
fn gap_without(values: &[Frac], element: usize, p: usize, q: usize) -> Result<Frac, TooWide>
    requires element { (1 ≤ element) × (element ≤ length values.now) }
    requires pair { IsPair (length values.now) p q }
    ensures { result ≡ checked_gap (vacated values.now element) p q }
{
    value_without(values, element, p).sub(&value_without(values, element, q))
}

// The left side of a row then.
fn side_without(values: &[Frac], element: usize, tag: Tag) -> Result<Frac, TooWide>
    requires element { (1 ≤ element) × (element ≤ length values.now) }
    requires tag { IsTagAmong (length values.now) tag }
    ensures { result ≡ checked_side (vacated values.now element) tag }
{
    match tag {
        Tag::Lower(p, q) => gap_without(values, element, usize::from(p), usize::from(q)),
        Tag::Zero(p, q) => {
            let gap = gap_without(values, element, usize::from(p), usize::from(q))?;
            Frac::whole(0).sub(&gap)
        }
        Tag::Cross(p, q, y, z) => {
            let above = gap_without(values, element, usize::from(p), usize::from(q))?;
            above.sub(&gap_without(values, element, usize::from(y), usize::from(z))?)
        }
        Tag::Order(p) => gap_without(values, element, usize::from(p), usize::from(p) + 1),
    }
}

// The value of the element at which a row is just met.
fn end_of(matrix: &Matrix, values: &[Frac], element: usize, tag: Tag) -> Result<Frac, TooWide>
    requires each { length values.now ≡ matrix.now.size }
    requires element { (1 ≤ element) × (element ≤ matrix.now.size) }
    requires tag { IsTagAmong matrix.now.size tag }
    requires in_it { coefficient element tag ≢ pos 0 }
    ensures { result ≡ checked_end matrix.now values.now element tag }
{
    let rest = side_without(values, element, tag)?;
    let room = Frac::whole(bound_of(matrix, tag)).sub(&rest)?;
    room.div(&Frac::whole(coefficient_of(element, tag)))
}

// What is left of an interval from an end on.
fn from_end(end: Frac, interval: Interval) -> Interval
    ensures { result ≡ from_end end interval }
{
    if interval.low.cmp(&end) == Ordering::Less {
        Interval {
            low: end,
            high: interval.high,
        }
    } else {
        interval
    }
}

// The less of an end and an upper end that is there.
fn lesser(end: Frac, high: Option<Frac>) -> Frac
    ensures { result ≡ lesser end high }
{
    match high {
        Some(high) if end.cmp(&high) != Ordering::Less => high,
        _ => end,
    }
}

// What is left of an interval up to an end.
fn up_to_end(end: Frac, interval: Interval) -> Interval
    ensures { result ≡ up_to_end end interval }
{
    Interval {
        low: interval.low,
        high: Some(lesser(end, interval.high)),
    }
}

// What is left of an interval by one row.
fn with_row(
    matrix: &Matrix,
    values: &[Frac],
    element: usize,
    tag: Tag,
    interval: Interval,
) -> Result<Interval, TooWide>
    requires each { length values.now ≡ matrix.now.size }
    requires element { (1 ≤ element) × (element ≤ matrix.now.size) }
    requires tag { IsTagAmong matrix.now.size tag }
    ensures { result ≡ with_row matrix.now values.now element tag interval }
{
    let coefficient = coefficient_of(element, tag);
    if coefficient > 0 {
        Ok(from_end(end_of(matrix, values, element, tag)?, interval))
    } else if coefficient < 0 {
        Ok(up_to_end(end_of(matrix, values, element, tag)?, interval))
    } else {
        Ok(interval)
    }
}

// What is left of an interval by the lower row of a pair, if it has one.
fn with_lower(
    matrix: &Matrix,
    values: &[Frac],
    element: usize,
    p: u8,
    q: u8,
    interval: Interval,
) -> Result<Interval, TooWide>
    requires each { length values.now ≡ matrix.now.size }
    requires element { (1 ≤ element) × (element ≤ matrix.now.size) }
    requires pair { IsPair matrix.now.size p q }
    ensures { result ≡ with_row_where (nat_le 1 (range_at matrix.now p q).lo) matrix.now values.now element (Tag.Lower p q) interval }
{
    let (range, _) = matrix.get(usize::from(p), usize::from(q));
    if range.lo > 0 {
        with_row(matrix, values, element, Tag::Lower(p, q), interval)
    } else {
        Ok(interval)
    }
}

// By all of them.
fn with_lower_rows(
    matrix: &Matrix,
    values: &[Frac],
    element: usize,
    interval: Interval,
) -> Result<Interval, TooWide>
    requires each { length values.now ≡ matrix.now.size }
    requires element { (1 ≤ element) × (element ≤ matrix.now.size) }
    ensures { result ≡ with_rows matrix.now values.now element (lower_rows matrix.now) interval }
{
    let mut left = interval;
    for (p, q) in matrix.pairs() {
        left = with_lower(matrix, values, element, p, q, left)?;
    }
    Ok(left)
}

// What is left of an interval by the zero row of a pair, if it has one.
fn with_zero(
    matrix: &Matrix,
    values: &[Frac],
    element: usize,
    p: u8,
    q: u8,
    interval: Interval,
) -> Result<Interval, TooWide>
    requires each { length values.now ≡ matrix.now.size }
    requires element { (1 ≤ element) × (element ≤ matrix.now.size) }
    requires pair { IsPair matrix.now.size p q }
    ensures { result ≡ with_row_where ((range_at matrix.now p q).hi == 0) matrix.now values.now element (Tag.Zero p q) interval }
{
    let (range, _) = matrix.get(usize::from(p), usize::from(q));
    if range.hi == 0 {
        with_row(matrix, values, element, Tag::Zero(p, q), interval)
    } else {
        Ok(interval)
    }
}

// By all of them.
fn with_zero_rows(
    matrix: &Matrix,
    values: &[Frac],
    element: usize,
    interval: Interval,
) -> Result<Interval, TooWide>
    requires each { length values.now ≡ matrix.now.size }
    requires element { (1 ≤ element) × (element ≤ matrix.now.size) }
    ensures { result ≡ with_rows matrix.now values.now element (zero_rows matrix.now) interval }
{
    let mut left = interval;
    for (p, q) in matrix.pairs() {
        left = with_zero(matrix, values, element, p, q, left)?;
    }
    Ok(left)
}

// What is left of an interval by the cross row of two pairs, if they have one.
fn with_cross(
    matrix: &Matrix,
    values: &[Frac],
    element: usize,
    left: (u8, u8),
    right: (u8, u8),
    interval: Interval,
) -> Result<Interval, TooWide>
    requires each { length values.now ≡ matrix.now.size }
    requires element { (1 ≤ element) × (element ≤ matrix.now.size) }
    requires left { IsPair matrix.now.size left.0 left.1 }
    requires right { IsPair matrix.now.size right.0 right.1 }
    ensures { let there = nat_lt (range_at matrix.now right.0 right.1).hi (range_at matrix.now left.0 left.1).lo in
        result ≡ with_row_where there matrix.now values.now element (Tag.Cross left.0 left.1 right.0 right.1) interval }
{
    let (above, _) = matrix.get(usize::from(left.0), usize::from(left.1));
    let (below, _) = matrix.get(usize::from(right.0), usize::from(right.1));
    if below.hi < above.lo {
        with_row(
            matrix,
            values,
            element,
            Tag::Cross(left.0, left.1, right.0, right.1),
            interval,
        )
    } else {
        Ok(interval)
    }
}

// By those of one pair.
fn with_cross_rows_under(
    matrix: &Matrix,
    values: &[Frac],
    element: usize,
    pair: (u8, u8),
    interval: Interval,
) -> Result<Interval, TooWide>
    requires each { length values.now ≡ matrix.now.size }
    requires element { (1 ≤ element) × (element ≤ matrix.now.size) }
    requires pair { IsPair matrix.now.size pair.0 pair.1 }
    ensures { result
        ≡ with_rows matrix.now values.now element (cross_rows_under matrix.now pair (pairs matrix.now.size)) interval }
{
    let mut left = interval;
    for other in matrix.pairs() {
        left = with_cross(matrix, values, element, pair, other, left)?;
    }
    Ok(left)
}

// By all of them.
#[tactic(auto, using(crate::proofs::NarrowingLemmas::with_rows_append))]
fn with_cross_rows(
    matrix: &Matrix,
    values: &[Frac],
    element: usize,
    interval: Interval,
) -> Result<Interval, TooWide>
    requires each { length values.now ≡ matrix.now.size }
    requires element { (1 ≤ element) × (element ≤ matrix.now.size) }
    ensures { result ≡ with_rows matrix.now values.now element (cross_rows matrix.now) interval }
{
    let mut left = interval;
    for pair in matrix.pairs() {
        left = with_cross_rows_under(matrix, values, element, pair, left)?;
    }
    Ok(left)
}

// By all order rows.
fn with_order_rows(
    matrix: &Matrix,
    values: &[Frac],
    element: usize,
    interval: Interval,
) -> Result<Interval, TooWide>
    requires each { length values.now ≡ matrix.now.size }
    requires element { (1 ≤ element) × (element ≤ matrix.now.size) }
    ensures { result ≡ with_rows matrix.now values.now element (order_rows matrix.now) interval }
{
    let size = matrix.size() as u8;
    let mut left = interval;
    for p in 1..size {
        left = with_row(matrix, values, element, Tag::Order(p), left)?;
    }
    Ok(left)
}

// What all rows leave, from the value of the next element on: the order rows ask for that.
#[tactic(auto, using(crate::proofs::NarrowingLemmas::with_rows_in_order))]
fn with_all_rows(
    matrix: &Matrix,
    values: &[Frac],
    element: usize,
    next: Frac,
) -> Result<Interval, TooWide>
    requires each { length values.now ≡ matrix.now.size }
    requires element { (1 ≤ element) × (element ≤ matrix.now.size) }
    ensures { result ≡ with_rows matrix.now values.now element (rows matrix.now) (from_next next) }
{
    let mut left = Interval {
        low: next,
        high: None,
    };
    left = with_lower_rows(matrix, values, element, left)?;
    left = with_zero_rows(matrix, values, element, left)?;
    left = with_cross_rows(matrix, values, element, left)?;
    with_order_rows(matrix, values, element, left)
}

/// The values that the element, counted from 1, may have while the others stay and the scale still meets the matrix. The
/// last element stands at 0. For another one each constraint with its value in it gives an end, worked in fractions: it
/// refuses where one of these is too wide. It takes no memory.
pub fn slack(matrix: &Matrix, values: &[Frac], element: usize) -> Result<Interval, TooWide>
    requires element { (1 ≤ element) × (element ≤ matrix.now.size) }
    requires met { MeetValues matrix.now values.now }
    ensures fits { OnOk result (¬ IsTooWideToWork matrix.now values.now element) }
    ensures too_wide { OnErr result (IsTooWideToWork matrix.now values.now element) }
    ensures slack { IfOk result (IsSlackOf matrix.now values.now element) }
    ensures worked { result ≡ checked_slack matrix.now values.now element }
{
    // For the proofs alone: the denominators are positive.
    are_fractions(values);
    if element == matrix.size() {
        return Ok(Interval {
            low: Frac::whole(0),
            high: Some(Frac::whole(0)),
        });
    }
    with_all_rows(matrix, values, element, values[element])
}
