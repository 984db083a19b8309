//! Whether a scale meets a matrix, and which constraint it fails first.
ghost use Rattle.std.specs.Prelude.{◌≡◌, ℕ, ◌+◌, ◌≤◌, ◌↔◌, ℤ, pos, ◌-ℤ◌, ◌*ℤ◌, int_lt, length, List, Ok, IfOk, nat_lt, nat_le, ◌==◌};
ghost use Rattle.integers.specs.Fraction.{AreFractions, IsWriting};
ghost use Rattle.judgement_matrix.specs.Matrix.{IsPair, pairs, range_at};
ghost use Rattle.judgement_matrix.specs.Scale.{IsMetBy};
ghost use Rattle.judgement_matrix.specs.Rows.{lower_rows, zero_rows, cross_rows, order_rows, rows, IsFitAmong};
ghost use Rattle.judgement_matrix.specs.Values.{AreValues, checked_gap, IsAnswer};
ghost use Rattle.judgement_matrix.specs.Walk.{row_fails, fails_where, first_stop, cross_rows_under};

use crate::matrix::Matrix;
use crate::tag::{Fit, Tag};
use frac128::{Frac, TooWide, compare};
use std::cmp::Ordering;

// Tells that each denominator is positive. What a fraction keeps is told where it is read: this is for the proofs alone.
fn are_fractions(values: &[Frac])
    ensures { AreFractions values.now }
{
    for value in values {
        let _ = value.den();
    }
}

// How far the first of two elements stands above the second.
fn gap(values: &[Frac], p: u8, q: u8) -> Result<Frac, TooWide>
    requires { IsPair (length values.now) p q }
    ensures { result ≡ checked_gap values.now p q }
{
    values[usize::from(p) - 1].sub(&values[usize::from(q) - 1])
}

// Whether the value is less than a whole number.
fn is_below(value: &Frac, bound: u8) -> bool
    ensures { result ≡ int_lt value.now.num (pos bound *ℤ value.now.den) }
{
    compare(value.num(), value.den(), i128::from(bound), 1) == Ordering::Less
}

impl Matrix {
    /// Whether the scale of these values, in the order of the elements, meets the judgements, and which constraint it fails
    /// first, in row order. It refuses where a difference that a constraint up to this one is worked with is out of the range
    /// of fractions. It takes no memory.
    pub fn meets(&self, values: &[Frac]) -> Result<Fit, TooWide>
        requires { AreValues self.now values.now }
        ensures answer { IsAnswer self.now values.now result }
        ensures meets { IfOk result (λ fit. (w : List ℤ) (n : ℤ) → IsWriting values.now w n
            → (fit ≡ Fit.Meets) ↔ IsMetBy self.now w n) }
        ensures among { IfOk result (λ fit. IsFitAmong self.now.size fit) }
    {
        are_fractions(values);
        match self.first_failing(values)? {
            Some(tag) => Ok(Fit::Fails(tag)),
            None => Ok(Fit::Meets),
        }
    }

    // The first row that fails.
    #[tactic(auto, using(crate::proofs::SearchLemmas::search_rows))]
    fn first_failing(&self, values: &[Frac]) -> Result<Option<Tag>, TooWide>
        requires { AreValues self.now values.now }
        ensures { result ≡ first_stop (row_fails self.now values.now) (rows self.now) }
    {
        if let Some(tag) = self.first_lower(values)? {
            return Ok(Some(tag));
        }
        if let Some(tag) = self.first_zero(values)? {
            return Ok(Some(tag));
        }
        if let Some(tag) = self.first_cross(values)? {
            return Ok(Some(tag));
        }
        self.first_order(values)
    }

    // The first lower row that fails.
    fn first_lower(&self, values: &[Frac]) -> Result<Option<Tag>, TooWide>
        requires { AreValues self.now values.now }
        ensures { result ≡ first_stop (row_fails self.now values.now) (lower_rows self.now) }
    {
        for (p, q) in self.pairs() {
            if self.fails_lower(values, p, q)? {
                return Ok(Some(Tag::Lower(p, q)));
            }
        }
        Ok(None)
    }

    // The first zero row that fails.
    fn first_zero(&self, values: &[Frac]) -> Result<Option<Tag>, TooWide>
        requires { AreValues self.now values.now }
        ensures { result ≡ first_stop (row_fails self.now values.now) (zero_rows self.now) }
    {
        for (p, q) in self.pairs() {
            if self.fails_zero(values, p, q)? {
                return Ok(Some(Tag::Zero(p, q)));
            }
        }
        Ok(None)
    }

    // The first cross row that fails.
    #[tactic(auto, using(crate::proofs::SearchLemmas::search_append))]
    fn first_cross(&self, values: &[Frac]) -> Result<Option<Tag>, TooWide>
        requires { AreValues self.now values.now }
        ensures { result ≡ first_stop (row_fails self.now values.now) (cross_rows self.now) }
    {
        for (p, q) in self.pairs() {
            if let Some(tag) = self.first_cross_under(values, p, q)? {
                return Ok(Some(tag));
            }
        }
        Ok(None)
    }

    // The first cross row of one pair that fails. A pair whose range begins at 0 lies above no other.
    fn first_cross_under(&self, values: &[Frac], p: u8, q: u8) -> Result<Option<Tag>, TooWide>
        requires pair { IsPair self.now.size p q }
        requires values { AreValues self.now values.now }
        ensures { result
            ≡ first_stop (row_fails self.now values.now) (cross_rows_under self.now (p, q) (pairs self.now.size)) }
    {
        let (left, _) = self.get(usize::from(p), usize::from(q));
        if left.lo == 0 {
            return Ok(None);
        }
        for (x, y) in self.pairs() {
            if self.fails_cross(values, p, q, x, y)? {
                return Ok(Some(Tag::Cross(p, q, x, y)));
            }
        }
        Ok(None)
    }

    // The first order row that fails.
    fn first_order(&self, values: &[Frac]) -> Result<Option<Tag>, TooWide>
        requires { AreValues self.now values.now }
        ensures { result ≡ first_stop (row_fails self.now values.now) (order_rows self.now) }
    {
        let size = self.size() as u8;
        for p in 1..size {
            if gap(values, p, p + 1)?.num() < 0 {
                return Ok(Some(Tag::Order(p)));
            }
        }
        Ok(None)
    }

    // Whether the pair was judged different and the values fail its least category.
    fn fails_lower(&self, values: &[Frac], p: u8, q: u8) -> Result<bool, TooWide>
        requires pair { IsPair self.now.size p q }
        requires values { AreValues self.now values.now }
        ensures { result
            ≡ fails_where (nat_le 1 (range_at self.now p q).lo) (row_fails self.now values.now (Tag.Lower p q)) }
    {
        let (range, _) = self.get(usize::from(p), usize::from(q));
        if range.lo == 0 {
            return Ok(false);
        }
        let value = gap(values, p, q)?;
        Ok(is_below(&value, range.lo))
    }

    // Whether the pair is judged equal and the values fail it.
    fn fails_zero(&self, values: &[Frac], p: u8, q: u8) -> Result<bool, TooWide>
        requires pair { IsPair self.now.size p q }
        requires values { AreValues self.now values.now }
        ensures { result
            ≡ fails_where ((range_at self.now p q).hi == 0) (row_fails self.now values.now (Tag.Zero p q)) }
    {
        let (range, _) = self.get(usize::from(p), usize::from(q));
        if range.hi > 0 {
            return Ok(false);
        }
        Ok(gap(values, p, q)?.num() > 0)
    }

    // Whether the first pair was judged wholly above the second and the values fail it.
    fn fails_cross(&self, values: &[Frac], p: u8, q: u8, x: u8, y: u8) -> Result<bool, TooWide>
        requires left { IsPair self.now.size p q }
        requires right { IsPair self.now.size x y }
        requires values { AreValues self.now values.now }
        ensures { result ≡ fails_where (nat_lt (range_at self.now x y).hi (range_at self.now p q).lo)
            (row_fails self.now values.now (Tag.Cross p q x y)) }
    {
        let (left, _) = self.get(usize::from(p), usize::from(q));
        let (right, _) = self.get(usize::from(x), usize::from(y));
        if right.hi >= left.lo {
            return Ok(false);
        }
        let value = gap(values, p, q)?.sub(&gap(values, x, y)?)?;
        Ok(is_below(&value, left.lo - right.hi))
    }
}
