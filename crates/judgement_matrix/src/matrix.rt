//! Matrices of judgements.
ghost use Rattle.std.specs.Prelude.{◌≡◌, All, ℕ, true, ◌-◌, ◌<◌, ◌≤◌, false, length, IfOk, OnOk, OnErr, ◌+◌, pos, ◌+ℤ◌, ◌≤ℤ◌};
ghost use Rattle.judgement_matrix.specs.Range.{IsRange, full};
ghost use Rattle.judgement_matrix.specs.Matrix.{IsCell, IsMatrix, IsSize, IsPair, pairs, pairs_before, place, cell_at, unjudged, judged, cleared};
ghost use Rattle.judgement_matrix.specs.Change.{grown_from, grown, grown_cell, without_from, without};
ghost use Rattle.judgement_matrix.specs.Repair.{IsLawfulStep, AreLawfulSteps, IsLawfulShift, moved, moved_cell, moved_cells, shifted};
ghost use Rattle.std.specs.Cmp.{partial_equiv_from_equiv};
ghost use Rattle.judgement_matrix.specs.Same.{same_judgements, same_judgements_are_equivalent};
ghost use Rattle.judgement_matrix.specs.declared.matrix.TheConstants.{LIMIT};

use crate::pairs::Pairs;
use crate::range::Range;
use crate::shift::Shift;
pub use std::alloc::AllocError as NoMemory;
use std::alloc::Global;
use std::cmp::Ordering;
use std::marker::Model;

/// The most elements of a matrix.
pub const LIMIT: usize = 24;

/// The judgements of the pairs of 1 to 24 elements.
#[derive(Debug, Drop)]
pub struct Matrix {
    size: u8,
    cells: Vec<(Range, bool)>,
}

impl Model for Matrix {
    ghost use Rattle.judgement_matrix.specs.Matrix.{Judgements, IsMatrix};

    ghost Value = { Judgements };

    ghost view = { λ m. record { size = m.size; cells = m.cells.items } };

    ghost invariant = { λ m. IsMatrix (record { size = m.size; cells = m.cells.items }) };
}

// How many pairs `size` elements have.
fn pair_count(size: usize) -> usize
    requires { IsSize size }
    ensures value { result ≡ length (pairs size) }
    ensures before { result ≡ pairs_before size (size - 1) }
    ensures most { result ≤ pairs_before LIMIT (LIMIT - 1) }
{
    size * (size - 1) / 2
}

// The place of a pair in pair order, from 0.
fn place_of(size: usize, p: usize, q: usize) -> usize
    requires pair { IsPair size p q }
    requires most { size ≤ LIMIT }
    ensures value { result ≡ place size p q }
    ensures within { result < length (pairs size) }
{
    let above = p - 1;
    above * size - above * p / 2 + (q - p - 1)
}

// Where element `q` of one more than `n` elements was before element `n` was put in.
fn grown_from(n: usize, q: usize) -> Option<usize>
    ensures { result ≡ grown_from n q }
{
    match q.cmp(&n) {
        Ordering::Less => Some(q),
        Ordering::Equal => None,
        Ordering::Greater => Some(q - 1),
    }
}

// Where element `q` was before element `p` went.
fn without_from(p: usize, q: usize) -> usize
    requires { q < 65536 }
    ensures { result ≡ without_from p q }
{
    if q < p { q } else { q + 1 }
}

// Moves the cells of the pairs that are left to their places, and drops the rest.
fn drop_element(cells: &mut Vec<(Range, bool)>, size: u8, p: usize)
    requires least { 2 ≤ size }
    requires most { size ≤ LIMIT }
    requires each { length cells.old.items ≡ length (pairs size) }
    ensures { cells.new.items ≡ (without (record { size = size; cells = cells.old.items }) p).cells }
{
    let mut place = 0;
    for (x, y) in Pairs::of(size - 1) {
        let from = place_of(
            usize::from(size),
            without_from(p, usize::from(x)),
            without_from(p, usize::from(y)),
        );
        cells[place] = cells[from];
        place += 1;
    }
    cells.truncate(place);
}

// A category moved by a step that leaves it a category.
fn moved(category: u8, by: i8) -> u8
    requires least { pos 0 ≤ℤ (pos category +ℤ by) }
    requires most { (pos category +ℤ by) ≤ℤ pos 6 }
    ensures value { result ≡ moved category by }
    ensures number { pos result ≡ pos category +ℤ by }
{
    (i16::from(category) + i16::from(by)) as u8
}

// A cell moved by a step.
fn moved_cell(cell: (Range, bool), by: i8) -> (Range, bool)
    requires { IsLawfulStep cell by }
    ensures { result ≡ moved_cell cell by }
{
    let (range, is_judged) = cell;
    let lo = moved(range.lo, by);
    let hi = moved(range.hi, by);
    (Range { lo, hi }, is_judged)
}

// Moves each cell by its step.
fn move_cells(cells: &mut Vec<(Range, bool)>, steps: &[i8])
    requires cells { All IsCell cells.old.items }
    requires lawful { AreLawfulSteps cells.old.items steps.now }
    ensures { cells.new.items ≡ moved_cells cells.old.items steps.now }
{
    for (place, by) in steps.iter().enumerate() {
        cells[place] = moved_cell(cells[place], *by);
    }
}

impl Matrix {
    /// A matrix of `n` elements in which nothing is judged.
    pub fn new(alloc: Global, n: usize) -> Result<Matrix, NoMemory>
        requires { IsSize n }
        ensures { IfOk result (λ m. m ≡ unjudged n) }
    {
        let cells = vec![in alloc; (Range::full(), false); pair_count(n)]?;
        Ok(Matrix {
            size: n as u8,
            cells,
        })
    }

    /// The number of elements.
    pub fn size(&self) -> usize
        ensures value { result ≡ self.now.size }
        ensures matrix { IsMatrix self.now }
        ensures least { 1 ≤ result }
        ensures most { result ≤ LIMIT }
    {
        usize::from(self.size)
    }

    /// The range of the pair of elements `p` and `q`, which count from 1, and whether it was judged.
    pub fn get(&self, p: usize, q: usize) -> (Range, bool)
        requires { IsPair self.now.size p q }
        ensures cell { result ≡ cell_at self.now p q }
        ensures range { IsRange result.0 }
        ensures unjudged { result.1 ≡ false → result.0 ≡ full }
    {
        let (range, is_judged) = self.cells[place_of(self.size(), p, q)];
        // The fact that every range keeps is told where it is read.
        let _ = &range.lo;
        (range, is_judged)
    }

    /// The place of the pair of elements `p` and `q`, which count from 1, in pair order, from 0.
    pub fn place(&self, p: usize, q: usize) -> usize
        requires { IsPair self.now.size p q }
        ensures value { result ≡ place self.now.size p q }
        ensures within { result < length self.now.cells }
    {
        place_of(self.size(), p, q)
    }

    /// Judges the pair of elements `p` and `q`, which count from 1.
    pub fn set(&mut self, p: usize, q: usize, range: Range)
        requires { IsPair self.old.size p q }
        ensures { self.new ≡ judged self.old p q range }
    {
        let place = place_of(self.size(), p, q);
        self.cells[place] = (range, true);
    }

    /// Takes back what was judged of the pair of elements `p` and `q`, which count from 1.
    pub fn clear(&mut self, p: usize, q: usize)
        requires { IsPair self.old.size p q }
        ensures { self.new ≡ cleared self.old p q }
    {
        let place = place_of(self.size(), p, q);
        self.cells[place] = (Range::full(), false);
    }

    /// Puts a new element just above the last one; its pairs are not judged.
    pub fn grow(&mut self) -> Result<(), NoMemory>
        requires { self.old.size < LIMIT }
        ensures ok { OnOk result (self.new ≡ grown self.old) }
        ensures err { OnErr result (self.new ≡ self.old) }
    {
        let alloc = *self.cells.allocator();
        self.cells = self.grown_cells(alloc)?;
        self.size += 1;
        Ok(())
    }

    // The cells of a matrix with a new element just above the last one.
    fn grown_cells(&self, alloc: Global) -> Result<Vec<(Range, bool)>, NoMemory>
        requires { self.now.size < LIMIT }
        ensures { IfOk result (λ cells. cells.items ≡ (grown self.now).cells) }
    {
        let mut cells = Vec::new(alloc);
        for (p, q) in Pairs::of(self.size() as u8 + 1) {
            cells.push(self.grown_cell(usize::from(p), usize::from(q)))?;
        }
        Ok(cells)
    }

    // The cell of a pair of which one element may be the new one.
    fn grown_cell(&self, p: usize, q: usize) -> (Range, bool)
        requires { IsPair (self.now.size + 1) p q }
        ensures { result ≡ grown_cell self.now (p, q) }
    {
        let size = self.size();
        match (grown_from(size, p), grown_from(size, q)) {
            (Some(p), Some(q)) => self.get(p, q),
            _ => (Range::full(), false),
        }
    }

    /// Takes element `p`, which counts from 1, and its pairs out.
    pub fn remove(&mut self, p: usize)
        requires element { (1 ≤ p) × (p ≤ self.old.size) }
        requires another { 2 ≤ self.old.size }
        ensures { self.new ≡ without self.old p }
    {
        drop_element(&mut self.cells, self.size, p);
        self.size -= 1;
    }

    /// An equal matrix with memory of its own.
    pub fn copy(&self) -> Result<Matrix, NoMemory>
        ensures { IfOk result (λ matrix. matrix ≡ self.now) }
    {
        Ok(Matrix {
            size: self.size,
            cells: self.cells.clone()?,
        })
    }

    /// The judgements after a shift.
    pub fn shifted(&self, shift: &Shift) -> Result<Matrix, NoMemory>
        requires { IsLawfulShift self.now shift.now.by }
        ensures { IfOk result (λ matrix. matrix ≡ shifted self.now shift.now.by) }
    {
        let mut after = self.copy()?;
        after.move_by(shift.by.as_slice());
        Ok(after)
    }

    // Moves the range of each pair by its step.
    fn move_by(&mut self, steps: &[i8])
        requires { IsLawfulShift self.old steps.now }
        ensures { self.new ≡ shifted self.old steps.now }
    {
        move_cells(&mut self.cells, steps);
    }

    /// The pairs of elements, in pair order.
    pub fn pairs(&self) -> Pairs
        ensures { result ≡ pairs self.now.size }
    {
        Pairs::of(self.size)
    }
}

impl PartialEq for Matrix {
    ghost eq = { same_judgements };

    ghost laws = { partial_equiv_from_equiv same_judgements_are_equivalent };

    fn eq(&self, other: &Matrix) -> bool {
        self.size == other.size && self.cells == other.cells
    }
}

impl Eq for Matrix {
    ghost laws = { same_judgements_are_equivalent };
}
