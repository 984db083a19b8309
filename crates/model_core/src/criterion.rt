//! Criteria, and what changes in one.
ghost use Rattle.std.specs.Prelude.{◌≡◌, ◌+◌, ◌-◌, ◌<◌, ◌≤◌, length, IfOk, IfSome, Some, slice_get, refl, false};
ghost use Rattle.word_table.specs.Words.{AreApart, are_apart};
ghost use Rattle.judgement_matrix.specs.Matrix.{IsPair, judged, cleared};
ghost use Rattle.judgement_matrix.specs.declared.matrix.TheConstants.{LIMIT};
ghost use Rattle.model_core.specs.State.{IsCriterion, is_reserved};
ghost use Rattle.judgement_matrix.specs.declared.reach.TheConstants.{LEAST_REACH, MOST_REACH};
ghost use Rattle.model_core.specs.Finding.{find_element};
ghost use Rattle.model_core.specs.Edits.{new_criterion, moved, regrouped};

use crate::limits::NEW_REACH;
use crate::name::{Name, NoMemory};
use crate::roster::{Change, Named, Roster};
use indexmap::IndexSet;
use judgement_matrix::{LEAST_REACH, MOST_REACH, Matrix, Range};
use std::alloc::Global;
use std::marker::Model;

/// A criterion: its name, its elements in the listed order, the good and the neutral one, the judgements, the reach and
/// the group that it belongs to. Elements count from 1, groups from 0.
#[derive(Drop)]
pub struct Criterion {
    name: Name,
    elements: Roster<Name>,
    good: usize,
    neutral: usize,
    matrix: Matrix,
    reach: u32,
    group: Option<usize>,
}

impl Model for Criterion {
    ghost use Rattle.model_core.specs.State.{CriterionState, IsCriterion};

    ghost Value = { CriterionState };

    ghost view = { λ c. record { name = c.name; elements = c.elements; good = c.good; neutral = c.neutral; matrix = c.matrix; reach = c.reach; group = c.group } };

    ghost invariant = { λ c. IsCriterion (record { name = c.name; elements = c.elements; good = c.good; neutral = c.neutral; matrix = c.matrix; reach = c.reach; group = c.group }) };
}

impl Criterion {
    /// A criterion of these elements in which nothing is judged.
    pub(crate) fn new(alloc: Global, name: Name, elements: &[Name]) -> Result<Criterion, NoMemory>
        requires few { (2 ≤ length elements.now) × (length elements.now ≤ LIMIT) }
        requires apart { AreApart elements.now }
        requires free { is_reserved name ≡ false }
        ensures { IfOk result (λ criterion. criterion ≡ new_criterion name elements.now) }
    {
        Ok(Criterion {
            elements: Roster::of(alloc, elements)?,
            good: 1,
            neutral: elements.len(),
            matrix: Matrix::new(alloc, elements.len())?,
            reach: NEW_REACH,
            group: None,
            name,
        })
    }

    /// Its name.
    pub fn name(&self) -> &Name
        ensures value { result.now ≡ self.now.name }
        ensures free { is_reserved self.now.name ≡ false }
    {
        &self.name
    }

    /// The number of elements.
    pub fn elements(&self) -> usize
        ensures each { result ≡ length self.now.elements }
        ensures few { (2 ≤ result) × (result ≤ LIMIT) }
        ensures apart { AreApart self.now.elements }
        ensures keeps { IsCriterion self.now }
    {
        self.elements.len()
    }

    /// The name of an element, which counts from 1.
    pub fn element(&self, at: usize) -> &Name
        requires { (1 ≤ at) × (at ≤ length self.now.elements) }
        ensures { slice_get self.now.elements (at - 1) ≡ Some result.now }
    {
        self.elements.get(at - 1)
    }

    /// Where the element with this name stands, from 1.
    pub fn find_element(&self, name: &[u8]) -> Option<usize>
        ensures place { result ≡ find_element self.now name.now }
        ensures within { IfSome result (λ at. (1 ≤ at) × (at ≤ length self.now.elements)) }
        ensures few { length self.now.elements ≤ LIMIT }
    {
        match self.elements.find(name) {
            None => None,
            Some(at) => Some(at + 1),
        }
    }

    /// The element that stands for good.
    pub fn good(&self) -> usize
        ensures value { result ≡ self.now.good }
        ensures place { (1 ≤ result) × (result < self.now.neutral) }
        ensures within { result ≤ length self.now.elements }
    {
        self.good
    }

    /// The element that stands for neutral.
    pub fn neutral(&self) -> usize
        ensures value { result ≡ self.now.neutral }
        ensures place { (self.now.good < result) × (result ≤ length self.now.elements) }
    {
        self.neutral
    }

    /// The judgements of its elements.
    pub fn matrix(&self) -> &Matrix
        ensures value { result.now ≡ self.now.matrix }
        ensures size { result.now.size ≡ length self.now.elements }
    {
        &self.matrix
    }

    /// The greatest span of an open scale.
    pub fn reach(&self) -> u32
        ensures value { result ≡ self.now.reach }
        ensures bounds { (LEAST_REACH ≤ result) × (result ≤ MOST_REACH) }
    {
        self.reach
    }

    /// The group that it belongs to, or the root.
    pub fn group(&self) -> Option<usize>
        ensures { result ≡ self.now.group }
    {
        self.group
    }

    // Its name and its elements, copied.
    fn copied_names(&self) -> Result<(Name, Roster<Name>), NoMemory>
        ensures name { IfOk result (λ copy. copy.0 ≡ self.now.name) }
        ensures elements { IfOk result (λ copy. copy.1 ≡ self.now.elements) }
    {
        let name = self.name.copy()?;
        Ok((name, self.elements.copy()?))
    }
}

impl Named for Criterion {
    ghost name = { λ c. c.name };

    fn found_by(&self) -> &Name {
        &self.name
    }

    fn copy(&self) -> Result<Criterion, NoMemory> {
        let matrix = self.matrix.copy()?;
        let (name, elements) = self.copied_names()?;
        Ok(Criterion {
            name,
            elements,
            good: self.good,
            neutral: self.neutral,
            matrix,
            reach: self.reach,
            group: self.group,
        })
    }
}

/// Another good and another neutral element.
#[derive(Drop)]
pub(crate) struct References {
    pub(crate) good: usize,
    pub(crate) neutral: usize,
}

impl Change<Criterion> for References {
    ghost can = { λ change c. IsPair (length c.elements) change.good change.neutral };

    ghost after = { λ change c. record c { good = change.good; neutral = change.neutral } };

    fn make(self, item: &mut Criterion) {
        item.good = self.good;
        item.neutral = self.neutral;
    }

    ghost keeps_name = { λ change c. refl };
}

/// A judgement of a pair of elements.
#[derive(Drop)]
pub(crate) struct Judgement {
    pub(crate) upper: usize,
    pub(crate) lower: usize,
    pub(crate) range: Range,
}

impl Change<Criterion> for Judgement {
    ghost can = { λ change c. IsPair (length c.elements) change.upper change.lower };

    ghost after = { λ change c. record c { matrix = judged c.matrix change.upper change.lower change.range } };

    fn make(self, item: &mut Criterion) {
        item.matrix.set(self.upper, self.lower, self.range);
    }

    ghost keeps_name = { λ change c. refl };
}

/// A pair of elements that is judged no more.
#[derive(Drop)]
pub(crate) struct Clearing {
    pub(crate) upper: usize,
    pub(crate) lower: usize,
}

impl Change<Criterion> for Clearing {
    ghost can = { λ change c. IsPair (length c.elements) change.upper change.lower };

    ghost after = { λ change c. record c { matrix = cleared c.matrix change.upper change.lower } };

    fn make(self, item: &mut Criterion) {
        item.matrix.clear(self.upper, self.lower);
    }

    ghost keeps_name = { λ change c. refl };
}

/// Another matrix.
#[derive(Drop)]
pub(crate) struct Judgements(pub(crate) Matrix);

impl Change<Criterion> for Judgements {
    ghost can = { λ change c. change.0.size ≡ length c.elements };

    ghost after = { λ change c. record c { matrix = change.0 } };

    fn make(self, item: &mut Criterion) {
        item.matrix = self.0;
    }

    ghost keeps_name = { λ change c. refl };
}

/// Another reach.
#[derive(Drop)]
pub(crate) struct Reach(pub(crate) u32);

impl Change<Criterion> for Reach {
    ghost can = { λ change c. (LEAST_REACH ≤ change.0) × (change.0 ≤ MOST_REACH) };

    ghost after = { λ change c. record c { reach = change.0 } };

    fn make(self, item: &mut Criterion) {
        item.reach = self.0;
    }

    ghost keeps_name = { λ change c. refl };
}

/// Another group, or the root.
#[derive(Drop)]
pub(crate) struct Place(pub(crate) Option<usize>);

impl Change<Criterion> for Place {
    ghost can = { λ change c. Unit {0} };

    ghost after = { λ change c. record c { group = change.0 } };

    fn make(self, item: &mut Criterion) {
        item.group = self.0;
    }

    ghost keeps_name = { λ change c. refl };
}

/// Whether no two of these names are equal: each is looked up in a set of those before it.
pub(crate) fn are_apart(alloc: Global, names: &[Name]) -> Result<bool, NoMemory>
    ensures { IfOk result (λ apart. apart ≡ are_apart names.now) }
{
    let mut seen: IndexSet<&[u8]> = IndexSet::new(alloc);
    for name in names {
        let is_new = seen.insert(name.as_bytes())?;
        if !is_new {
            return Ok(false);
        }
    }
    Ok(true)
}

/// What follows for a criterion from a group that goes: its own place moves up, and what belonged to it goes to its parent.
#[derive(Clone, Copy)]
pub(crate) struct Regrouping {
    pub(crate) gone: usize,
    pub(crate) above: Option<usize>,
}

impl Change<Criterion> for Regrouping {
    ghost can = { λ change c. Unit {0} };

    ghost after = { λ change c. regrouped change.gone change.above c };

    fn make(self, item: &mut Criterion) {
        item.group = moved(self.gone, self.above, item.group);
    }

    ghost keeps_name = { λ change c. refl };
}

/// Where a group stands after another one went.
pub(crate) fn moved(gone: usize, above: Option<usize>, group: Option<usize>) -> Option<usize>
    ensures { result ≡ moved gone above group }
{
    match group {
        None => None,
        Some(at) if at == gone => above,
        Some(at) if at > gone => Some(at - 1),
        Some(at) => Some(at),
    }
}
