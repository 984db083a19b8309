ghost use Rattle.std.specs.Prelude.{◌≡◌, ◌≤◌, ◌-◌, IfOk, OnOk};
ghost use Rattle.judgement_matrix.specs.Matrix.{IsPair};

use crate::fractions::fraction;
use frac128::{Frac, TooWide};
use judgement_matrix::{Fit, Matrix, Range, Tag};
use std::alloc::Global;
use std::test::Fail;

// Judges a pair, if a range is given.
fn judge(matrix: &mut Matrix, p: usize, q: usize, range: Option<(u8, u8)>) -> Result<(), Fail>
    requires { IsPair matrix.old.size p q }
    ensures { OnOk result (matrix.new.size ≡ matrix.old.size) }
{
    if let Some((lo, hi)) = range {
        matrix.set(p, q, Range::make(lo, hi).ok_or("no range")?);
    }
    Ok(())
}

// Three elements, with the ranges of the first and the second, the first and the third, and the second and the third.
fn matrix_of(alloc: Global, ranges: [Option<(u8, u8)>; 3]) -> Result<Matrix, Fail>
    ensures { IfOk result (λ matrix. matrix.size ≡ 3) }
{
    let mut matrix = Matrix::new(alloc, 3)?;
    judge(&mut matrix, 1, 2, ranges[0])?;
    judge(&mut matrix, 1, 3, ranges[1])?;
    judge(&mut matrix, 2, 3, ranges[2])?;
    Ok(matrix)
}

#[test]
fn ranges(rt: HostRuntime) {
    for (lo, hi, is_range) in [
        (0, 0, true),
        (0, 6, true),
        (6, 6, true),
        (2, 3, true),
        (3, 2, false),
        (0, 7, false),
        (7, 7, false),
    ] {
        assert_eq!(rt; Range::make(lo, hi).is_some(), is_range, "at {lo} to {hi}");
    }
}

// Whether these ranges make the matrix.
fn is_of(alloc: Global, matrix: &Matrix, ranges: [Option<(u8, u8)>; 3]) -> Result<bool, Fail> {
    Ok(matrix_of(alloc, ranges)? == *matrix)
}

#[test]
fn judgements(rt: HostRuntime) -> Result<(), Fail> {
    let mut matrix = matrix_of(rt.alloc(), [Some((3, 4)), None, Some((1, 2))])?;
    assert_eq!(rt; matrix.get(1, 2), (Range { lo: 3, hi: 4 }, true));
    assert_eq!(rt; matrix.get(1, 3), (Range::full(), false));
    assert_eq!(rt; matrix.get(2, 3), (Range { lo: 1, hi: 2 }, true));
    matrix.clear(2, 3);
    assert!(rt; is_of(rt.alloc(), &matrix, [Some((3, 4)), None, None])?);
    Ok(())
}

#[test]
fn copies(rt: HostRuntime) -> Result<(), Fail> {
    let ranges = [Some((3, 4)), None, Some((1, 2))];
    let copy = matrix_of(rt.alloc(), ranges)?.copy()?;
    assert!(rt; is_of(rt.alloc(), &copy, ranges)?);
    Ok(())
}

// Whether it is found of a matrix of these ranges that the values of the two upper elements meet it or fail it so.
fn is_found(
    alloc: Global,
    ranges: [Option<(u8, u8)>; 3],
    first: &str,
    second: &str,
    want: Result<Fit, TooWide>,
) -> Result<bool, Fail> {
    let values = [fraction(first)?, fraction(second)?, Frac::whole(0)];
    Ok(matrix_of(alloc, ranges)?.meets(&values) == want)
}

#[test]
fn fits(rt: HostRuntime) -> Result<(), Fail> {
    let most = "170141183460469231731687303715884105727";
    let least = "-170141183460469231731687303715884105727";
    let single = [Some((3, 3)), Some((4, 4)), Some((2, 2))];
    let equal = [Some((0, 0)), Some((2, 2)), Some((2, 2))];
    let several = [Some((3, 4)), None, Some((1, 2))];
    let last = [None, None, Some((2, 2))];
    let same = [Some((0, 0)), None, None];
    let nothing = [None, None, None];
    let cross = Tag::Cross(1, 2, 2, 3);
    for (ranges, first, second, want) in [
        (single, "11/2", "2", Ok(Fit::Meets)),
        (single, "9/2", "2", Ok(Fit::Fails(Tag::Lower(1, 2)))),
        (equal, "9/4", "9/4", Ok(Fit::Meets)),
        (equal, "10/4", "9/4", Ok(Fit::Fails(Tag::Zero(1, 2)))),
        (several, "16/3", "13/6", Ok(Fit::Meets)),
        (several, "31/5", "3", Ok(Fit::Fails(cross))),
        (nothing, "0", "0", Ok(Fit::Meets)),
        (nothing, "1/7", "1/6", Ok(Fit::Fails(Tag::Order(1)))),
        (single, most, least, Err(TooWide)),
        (same, most, least, Err(TooWide)),
        (last, most, least, Ok(Fit::Fails(Tag::Lower(2, 3)))),
    ] {
        let is_found = is_found(rt.alloc(), ranges, first, second, want)?;
        assert!(rt; is_found, "at {first} and {second}");
    }
    Ok(())
}

// More than any place.
const NONE: usize = 25;

// The matrix of elements that bear the numbers from 1 on, but for the number `gone` and for the element at the place `new`,
// which bears none and of whose pairs nothing is judged.
fn numbered(alloc: Global, size: usize, gone: usize, new: usize) -> Result<Matrix, Fail>
    requires least { 1 ≤ size }
    requires most { size ≤ 24 }
    ensures { IfOk result (λ matrix. matrix.size ≡ size) }
{
    let mut matrix = Matrix::new(alloc, size)?;
    for p in 1..size {
        for q in p + 1..size + 1 {
            if p != new && q != new {
                let category = category(number(p, gone, new), number(q, gone, new));
                judge(&mut matrix, p, q, Some((category, category)))?;
            }
        }
    }
    Ok(matrix)
}

// The number of the element at a place.
fn number(place: usize, gone: usize, new: usize) -> usize
    requires { place ≤ 24 }
    ensures { result ≤ 25 }
{
    let number = if place > new { place - 1 } else { place };
    if number < gone { number } else { number + 1 }
}

// Some category for a pair of numbers, of which neighbours have others.
fn category(p: usize, q: usize) -> u8
    requires first { p ≤ 25 }
    requires second { q ≤ 25 }
    ensures { result ≤ 6 }
{
    ((5 * p + 3 * q) % 7) as u8
}

// Whether a matrix of this size without an element is that of the others.
fn is_removed(alloc: Global, size: usize, element: usize) -> Result<bool, Fail>
    requires size { (2 ≤ size) × (size ≤ 24) }
    requires element { (1 ≤ element) × (element ≤ size) }
{
    let mut matrix = numbered(alloc, size, NONE, NONE)?;
    matrix.remove(element);
    Ok(numbered(alloc, size - 1, element, NONE)? == matrix)
}

#[test]
fn removals(rt: HostRuntime) -> Result<(), Fail> {
    for (size, element) in [
        (2, 1),
        (2, 2),
        (5, 1),
        (5, 3),
        (5, 5),
        (24, 1),
        (24, 12),
        (24, 24),
    ] {
        let is_removed = is_removed(rt.alloc(), size, element)?;
        assert!(rt; is_removed, "{size} without {element}");
    }
    Ok(())
}

// Whether a matrix of this size that grows gets an element above the last of which nothing is judged.
fn is_grown(alloc: Global, size: usize) -> Result<bool, Fail>
    requires { (1 ≤ size) × (size ≤ 23) }
{
    let mut matrix = numbered(alloc, size, NONE, NONE)?;
    matrix.grow()?;
    Ok(numbered(alloc, size + 1, NONE, size)? == matrix)
}

#[test]
fn growth(rt: HostRuntime) -> Result<(), Fail> {
    for size in [1, 2, 5, 23] {
        let is_grown = is_grown(rt.alloc(), size)?;
        assert!(rt; is_grown, "one more than {size}");
    }
    Ok(())
}
