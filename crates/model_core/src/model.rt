//! The model and its look-ups.
ghost use Rattle.std.specs.Prelude.{◌≡◌, ◌+◌, ◌-◌, ◌<◌, ◌≤◌, ◌↔◌, length, IfOk, IfSome, IsTrue, ◌==◌, position, slice_get, slice_index_or, Some, None, []};
ghost use Rattle.std.specs.List.{position_or_len};
ghost use Rattle.judgement_matrix.specs.declared.matrix.TheConstants.{LIMIT};
ghost use Rattle.model_core.specs.Lists.{AreNamedApart};
ghost use Rattle.model_core.specs.State.{AreGroups, empty_model};
ghost use Rattle.model_core.specs.Finding.{find_option, find_criterion, find_group, find_element, criterion_at, place_in, weigh_place, matrix_size, LiesUnder};

use crate::criterion::Criterion;
use crate::group::Group;
use crate::limits::{CRITERIA, GROUPS, OPTIONS};
use crate::name::{Name, NoMemory};
use crate::roster::Roster;
use crate::row::Row;
use judgement_matrix::Matrix;
use std::alloc::Global;

/// Options, criteria, groups, performances and the weighting. Options, criteria and groups count from 0; elements of a
/// criterion and places of the weighting count from 1.
#[derive(Drop)]
pub struct Model {
    pub(crate) options: Roster<Name>,
    pub(crate) criteria: Roster<Criterion>,
    pub(crate) groups: Roster<Group>,
    pub(crate) rows: Vec<Row>,
    pub(crate) order: Vec<usize>,
    pub(crate) weighting: Matrix,
}

impl std::marker::Model for Model {
    ghost use Rattle.model_core.specs.State.{ModelState, IsModel};

    ghost Value = { ModelState };

    ghost view = { λ m. record { options = m.options; criteria = m.criteria; groups = m.groups; performances = m.rows.items; order = m.order.items; weighting = m.weighting } };

    ghost invariant = { λ m. IsModel (record { options = m.options; criteria = m.criteria; groups = m.groups; performances = m.rows.items; order = m.order.items; weighting = m.weighting }) };
}

impl Model {
    /// A model without options, criteria and groups.
    pub fn empty(alloc: Global) -> Result<Model, NoMemory>
        ensures { IfOk result (λ m. m ≡ empty_model) }
    {
        let weighting = Matrix::new(alloc, 1)?;
        Ok(Model {
            options: Roster::new(alloc),
            criteria: Roster::new(alloc),
            groups: Roster::new(alloc),
            rows: Vec::new(alloc),
            order: Vec::new(alloc),
            weighting,
        })
    }

    /// An equal model with memory of its own.
    pub fn copy(&self) -> Result<Model, NoMemory>
        ensures { IfOk result (λ copy. copy ≡ self.now) }
    {
        let weighting = self.weighting.copy()?;
        let (rows, order) = self.copied_rows()?;
        let (options, criteria, groups) = self.copied_lists()?;
        Ok(Model {
            options,
            criteria,
            groups,
            rows,
            order,
            weighting,
        })
    }

    // The things with names, copied.
    fn copied_lists(&self) -> Result<(Roster<Name>, Roster<Criterion>, Roster<Group>), NoMemory>
        ensures options { IfOk result (λ copy. copy.0 ≡ self.now.options) }
        ensures criteria { IfOk result (λ copy. copy.1 ≡ self.now.criteria) }
        ensures groups { IfOk result (λ copy. copy.2 ≡ self.now.groups) }
    {
        let options = self.options.copy()?;
        let criteria = self.criteria.copy()?;
        Ok((options, criteria, self.groups.copy()?))
    }

    // The performances and the weighting order, copied.
    fn copied_rows(&self) -> Result<(Vec<Row>, Vec<usize>), NoMemory>
        ensures rows { IfOk result (λ copy. copy.0.items ≡ self.now.performances) }
        ensures order { IfOk result (λ copy. copy.1.items ≡ self.now.order) }
    {
        let order = self.order.clone()?;
        Ok((copied(&self.rows)?, order))
    }

    /// The number of options.
    pub fn options(&self) -> usize
        ensures each { result ≡ length self.now.options }
        ensures few { result ≤ OPTIONS }
        ensures apart { AreNamedApart (λ option. option) self.now.options }
    {
        self.options.len()
    }

    /// The name of an option.
    pub fn option(&self, at: usize) -> &Name
        requires { at < length self.now.options }
        ensures { slice_get self.now.options at ≡ Some result.now }
    {
        self.options.get(at)
    }

    /// Where the option with this name stands.
    pub fn find_option(&self, name: &[u8]) -> Option<usize>
        ensures place { result ≡ find_option self.now name.now }
        ensures within { IfSome result (λ at. at < length self.now.options) }
    {
        self.options.find(name)
    }

    /// The number of criteria.
    pub fn criteria(&self) -> usize
        ensures each { result ≡ length self.now.criteria }
        ensures few { result ≤ CRITERIA }
        ensures apart { AreNamedApart (λ criterion. criterion.name) self.now.criteria }
    {
        self.criteria.len()
    }

    /// A criterion.
    pub fn criterion(&self, at: usize) -> &Criterion
        requires { at < length self.now.criteria }
        ensures criterion { slice_get self.now.criteria at ≡ Some result.now }
        ensures placed { IfSome result.now.group (λ group. group < length self.now.groups) }
    {
        self.criteria.get(at)
    }

    /// Where the criterion with this name stands.
    pub fn find_criterion(&self, name: &[u8]) -> Option<usize>
        ensures place { result ≡ find_criterion self.now name.now }
        ensures within { IfSome result (λ at. at < length self.now.criteria) }
    {
        self.criteria.find(name)
    }

    /// Where an element of a criterion stands by its name, from 1.
    pub fn find_element(&self, criterion: usize, name: &[u8]) -> Option<usize>
        requires { criterion < length self.now.criteria }
        ensures place { result ≡ find_element (criterion_at self.now criterion) name.now }
        ensures within { IfSome result (λ at.
            (1 ≤ at) × (at ≤ length (criterion_at self.now criterion).elements)) }
        ensures few { IfSome result (λ at. at ≤ LIMIT) }
    {
        self.criteria.get(criterion).find_element(name)
    }

    /// The element that an option performs on a criterion, from 1.
    pub fn performance(&self, option: usize, criterion: usize) -> Option<usize>
        requires option { option < length self.now.options }
        requires criterion { criterion < length self.now.criteria }
        ensures value { result ≡ slice_index_or (slice_index_or self.now.performances option []) criterion None }
        ensures element { IfSome result (λ at.
            (1 ≤ at) × (at ≤ length (criterion_at self.now criterion).elements)) }
    {
        self.rows[option].get(criterion)
    }

    /// The place of a criterion in the weighting by its name, from 1. `none` is the all-neutral profile, which stands last.
    pub fn weigh_place(&self, name: &[u8]) -> Option<usize>
        ensures place { result ≡ weigh_place self.now name.now }
        ensures within { IfSome result (λ at. (1 ≤ at) × (at ≤ length self.now.criteria + 1)) }
    {
        if name == b"none".as_slice() {
            return Some(self.criteria.len() + 1);
        }
        match self.criteria.find(name) {
            None => None,
            Some(criterion) => Some(self.place_of(criterion)),
        }
    }

    /// The criterion at a place of the weighting, which counts from 1.
    pub fn order(&self, place: usize) -> usize
        requires { (1 ≤ place) × (place ≤ length self.now.criteria) }
        ensures value { slice_get self.now.order (place - 1) ≡ Some result }
        ensures within { result < length self.now.criteria }
    {
        self.order[place - 1]
    }

    /// The judgements of the weighting: its elements are the swings of the criteria in the weighting order, and last the
    /// all-neutral profile.
    pub fn weighting(&self) -> &Matrix
        ensures value { result.now ≡ self.now.weighting }
        ensures size { result.now.size ≡ length self.now.criteria + 1 }
    {
        &self.weighting
    }

    /// The size of the matrix of a criterion by its name, or for `weighting` that of the weighting.
    pub fn matrix_size(&self, name: &[u8]) -> Option<usize>
        ensures size { result ≡ matrix_size self.now name.now }
        ensures within { IfSome result (λ size. (1 ≤ size) × (size ≤ LIMIT)) }
    {
        if name == b"weighting".as_slice() {
            return Some(self.weighting.size());
        }
        match self.criteria.find(name) {
            None => None,
            Some(criterion) => Some(self.criteria.get(criterion).elements()),
        }
    }

    /// The number of groups.
    pub fn groups(&self) -> usize
        ensures each { result ≡ length self.now.groups }
        ensures few { result ≤ GROUPS }
        ensures apart { AreNamedApart (λ group. group.name) self.now.groups }
        ensures parents { AreGroups self.now.groups }
    {
        self.groups.len()
    }

    /// A group.
    pub fn group(&self, at: usize) -> &Group
        requires { at < length self.now.groups }
        ensures group { slice_get self.now.groups at ≡ Some result.now }
        ensures parent { IfSome result.now.parent (λ parent. parent < at) }
    {
        self.groups.get(at)
    }

    /// Where the group with this name stands.
    pub fn find_group(&self, name: &[u8]) -> Option<usize>
        ensures place { result ≡ find_group self.now name.now }
        ensures within { IfSome result (λ at. at < length self.now.groups) }
    {
        self.groups.find(name)
    }

    /// Whether a criterion lies under a group: its own group is this one, or one that belongs to it at any remove.
    pub fn under(&self, criterion: usize, group: usize) -> bool
        requires criterion { criterion < length self.now.criteria }
        requires group { group < length self.now.groups }
        ensures { IsTrue result ↔ LiesUnder self.now.groups (criterion_at self.now criterion).group group }
    {
        let mut at = self.criterion(criterion).group();
        while let Some(place) = at {
            if place == group {
                return true;
            }
            at = self.group(place).parent();
        }
        false
    }

    /// The place of a criterion in the weighting, from 1.
    pub fn place_of(&self, criterion: usize) -> usize
        requires { criterion < length self.now.criteria }
        ensures place { result ≡ place_in self.now.order criterion }
        ensures within { (1 ≤ result) × (result ≤ length self.now.criteria) }
    {
        first_place(&self.order, criterion) + 1
    }
}

// Where the first of these numbers stands that is this one, or how many they are.
fn first_place(numbers: &[usize], number: usize) -> usize
    ensures { result ≡ position_or_len (λ other. other == number) numbers.now }
{
    place_in(numbers, number).unwrap_or(numbers.len())
}

fn place_in(numbers: &[usize], number: usize) -> Option<usize>
    ensures { result ≡ position (λ other. other == number) numbers.now }
{
    numbers.iter().position(|other| *other == number)
}

fn copied(rows: &Vec<Row>) -> Result<Vec<Row>, NoMemory>
    ensures { IfOk result (λ copy. copy.items ≡ rows.now.items) }
{
    let mut copy = Vec::new(*rows.allocator());
    for row in rows {
        copy.push(row.copy())?;
    }
    Ok(copy)
}
