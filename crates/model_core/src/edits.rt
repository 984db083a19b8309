//! The edits of a model. Each tests first, and then makes one change; a refused edit leaves the model as it was.
ghost use Rattle.std.specs.Prelude.{◌≡◌, ◌+◌, ◌<◌, ◌≤◌, length, IfOk, IfSome, Some, None, map, option_map, OnOk, OnErr, All, ◌==◌, not, false};
ghost use Rattle.std.specs.List.{list_all};
ghost use Rattle.judgement_matrix.specs.Matrix.{IsPair, judged, cleared};
ghost use Rattle.judgement_matrix.specs.declared.matrix.TheConstants.{LIMIT};
ghost use Rattle.model_core.specs.State.{is_reserved};
ghost use Rattle.model_core.specs.Finding.{find_option, find_criterion, find_group, criterion_at, matrix_size};
ghost use Rattle.frac128.specs.Chain.{found_or};
ghost use Rattle.model_core.specs.Edits.{Edits, places_of, is_permutation, are_numbers_apart, pair_of, weigh_pair, group_named, with_option, without_option, with_criterion, without_criterion, with_change, with_performance, with_order, with_weighting, with_group, without_group, add_option, drop_option, add_criterion, drop_criterion, set_refs, judge, unjudge, perform, set_order, weigh, unweigh, set_reach, set_matrix, add_group, drop_group, place};

use crate::criterion::{Criterion, are_apart};
use crate::edit::EditFault;
use crate::group::Group;
use crate::limits::{CRITERIA, GROUPS, OPTIONS};
use crate::model::Model;
use crate::name::{Name, NoMemory};
use judgement_matrix::{LEAST_REACH, LIMIT, MOST_REACH, Matrix, Range};

impl Model {
    /// Adds the last option, which performs on no criterion.
    pub fn add_option(&mut self, name: Name) -> Result<(), EditFault>
        ensures { Edits self.old (add_option name) result self.new }
    {
        if self.find_option(name.as_bytes()).is_some() {
            return Err(EditFault::NameTaken);
        }
        if self.options() >= OPTIONS {
            return Err(EditFault::LimitReached);
        }
        if self.push_option(name).is_err() {
            return Err(EditFault::NoMemory);
        }
        Ok(())
    }

    /// Drops an option and its performances. It takes no memory.
    pub fn drop_option(&mut self, name: &[u8]) -> Result<(), EditFault>
        ensures { Edits self.old (drop_option name.now) result self.new }
    {
        let option = self.option_named(name)?;
        self.remove_option(option);
        Ok(())
    }

    /// Adds the last criterion, last also in the weighting order. Its first element is good, its last one neutral, its reach
    /// 1,000; nothing is judged; it stands at the root.
    pub fn add_criterion(&mut self, name: Name, elements: Vec<Name>) -> Result<(), EditFault>
        requires several { 2 ≤ length elements.items }
        requires free { is_reserved name ≡ false }
        ensures { Edits self.old (add_criterion name elements.items) result self.new }
    {
        if self.find_criterion(name.as_bytes()).is_some() {
            return Err(EditFault::NameTaken);
        }
        let Ok(apart) = are_apart(self.allocator(), &elements) else {
            return Err(EditFault::NoMemory);
        };
        if !apart {
            return Err(EditFault::NameTaken);
        }
        if self.criteria() >= CRITERIA {
            return Err(EditFault::LimitReached);
        }
        if elements.len() > LIMIT {
            return Err(EditFault::LimitReached);
        }
        let Ok(criterion) = Criterion::new(self.allocator(), name, &elements) else {
            return Err(EditFault::NoMemory);
        };
        if self.push_criterion(criterion).is_err() {
            return Err(EditFault::NoMemory);
        }
        Ok(())
    }

    /// Drops a criterion, its performances and its element of the weighting. It takes no memory.
    pub fn drop_criterion(&mut self, name: &[u8]) -> Result<(), EditFault>
        ensures { Edits self.old (drop_criterion name.now) result self.new }
    {
        let criterion = self.criterion_named(name)?;
        self.remove_criterion(criterion);
        Ok(())
    }

    /// Sets the good and the neutral element of a criterion. It takes no memory.
    pub fn set_refs(&mut self, name: &[u8], good: &[u8], neutral: &[u8]) -> Result<(), EditFault>
        ensures { Edits self.old (set_refs name.now good.now neutral.now) result self.new }
    {
        let criterion = self.criterion_named(name)?;
        let (good, neutral) = self.pair_of(criterion, good, neutral)?;
        self.set_refs_at(criterion, good, neutral);
        Ok(())
    }

    /// Judges a pair of elements of a criterion. It takes no memory.
    pub fn judge(&mut self, name: &[u8], x: &[u8], y: &[u8], range: Range) -> Result<(), EditFault>
        ensures { Edits self.old (judge name.now x.now y.now range) result self.new }
    {
        let criterion = self.criterion_named(name)?;
        let (upper, lower) = self.pair_of(criterion, x, y)?;
        self.judge_at(criterion, upper, lower, range);
        Ok(())
    }

    /// Takes back what was judged of a pair of elements of a criterion. It takes no memory.
    pub fn unjudge(&mut self, name: &[u8], x: &[u8], y: &[u8]) -> Result<(), EditFault>
        ensures { Edits self.old (unjudge name.now x.now y.now) result self.new }
    {
        let criterion = self.criterion_named(name)?;
        let (upper, lower) = self.pair_of(criterion, x, y)?;
        self.clear_at(criterion, upper, lower);
        Ok(())
    }

    /// Sets or replaces the performance of an option on a criterion.
    pub fn perform(&mut self, option: &[u8], name: &[u8], element: &[u8]) -> Result<(), EditFault>
        ensures { Edits self.old (perform option.now name.now element.now) result self.new }
    {
        let option = self.option_named(option)?;
        let criterion = self.criterion_named(name)?;
        let Some(element) = self.find_element(criterion, element) else {
            return Err(EditFault::UnknownElement);
        };
        self.perform_at(option, criterion, element);
        Ok(())
    }

    /// Sets the weighting order; all judgements of the weighting are taken back.
    pub fn set_order(&mut self, names: &[Name]) -> Result<(), EditFault>
        ensures { Edits self.old (set_order names.now) result self.new }
    {
        let Ok(places) = self.places_of(names) else {
            return Err(EditFault::NoMemory);
        };
        let Some(order) = places else {
            return Err(EditFault::UnknownCriterion);
        };
        if !is_permutation(self.criteria(), &order) {
            return Err(EditFault::NotPermutation);
        }
        let Ok(weighting) = Matrix::new(self.allocator(), self.criteria() + 1) else {
            return Err(EditFault::NoMemory);
        };
        self.set_order_to(order, weighting);
        Ok(())
    }

    /// Judges a pair of criteria in the weighting, by their swings from neutral to good; `none` is the all-neutral profile.
    /// It takes no memory.
    pub fn weigh(&mut self, x: &[u8], y: &[u8], range: Range) -> Result<(), EditFault>
        ensures { Edits self.old (weigh x.now y.now range) result self.new }
    {
        let (upper, lower) = self.weigh_pair(x, y)?;
        self.weigh_at(upper, lower, range);
        Ok(())
    }

    /// Takes back what was judged of a pair of criteria in the weighting. It takes no memory.
    pub fn unweigh(&mut self, x: &[u8], y: &[u8]) -> Result<(), EditFault>
        ensures { Edits self.old (unweigh x.now y.now) result self.new }
    {
        let (upper, lower) = self.weigh_pair(x, y)?;
        self.unweigh_at(upper, lower);
        Ok(())
    }

    /// Sets the reach of a criterion. It takes no memory.
    pub fn set_reach(&mut self, name: &[u8], reach: u32) -> Result<(), EditFault>
        requires { (LEAST_REACH ≤ reach) × (reach ≤ MOST_REACH) }
        ensures { Edits self.old (set_reach name.now reach) result self.new }
    {
        let criterion = self.criterion_named(name)?;
        self.set_reach_at(criterion, reach);
        Ok(())
    }

    /// Replaces the matrix of a criterion, or for `weighting` that of the weighting, by one of equal size. It takes no memory.
    pub fn set_matrix(&mut self, name: &[u8], matrix: Matrix) -> Result<(), EditFault>
        requires { IfSome (matrix_size self.old name.now) (λ size. matrix.size ≡ size) }
        ensures { Edits self.old (set_matrix name.now matrix) result self.new }
    {
        if name == b"weighting".as_slice() {
            self.set_weighting(matrix);
            return Ok(());
        }
        let criterion = self.criterion_named(name)?;
        self.set_matrix_at(criterion, matrix);
        Ok(())
    }

    /// Adds the last group, which belongs to the one named or to the root.
    pub fn add_group(&mut self, name: Name, parent: Option<Name>) -> Result<(), EditFault>
        ensures { Edits self.old (add_group name parent) result self.new }
    {
        let parent = self.parent_named(&parent)?;
        if self.find_group(name.as_bytes()).is_some() {
            return Err(EditFault::NameTaken);
        }
        if self.groups() >= GROUPS {
            return Err(EditFault::LimitReached);
        }
        if self.push_group(Group::new(name, parent)).is_err() {
            return Err(EditFault::NoMemory);
        }
        Ok(())
    }

    /// Drops a group; its groups and criteria belong to its parent. It takes no memory.
    pub fn drop_group(&mut self, name: &[u8]) -> Result<(), EditFault>
        ensures { Edits self.old (drop_group name.now) result self.new }
    {
        let Some(group) = self.find_group(name) else {
            return Err(EditFault::UnknownGroup);
        };
        self.remove_group(group);
        Ok(())
    }

    /// Puts a criterion into a group, or to the root. It takes no memory.
    pub fn place(&mut self, name: &[u8], group: Option<&[u8]>) -> Result<(), EditFault>
        ensures { Edits self.old (place name.now (option_map (λ name. name.now) group.entry)) result self.new }
    {
        let criterion = self.criterion_named(name)?;
        let group = self.group_named(group)?;
        self.place_at(criterion, group);
        Ok(())
    }

    // The place of an option.
    fn option_named(&self, name: &[u8]) -> Result<usize, EditFault>
        ensures place { result ≡ found_or EditFault.UnknownOption (find_option self.now name.now) }
        ensures within { IfOk result (λ at. at < length self.now.options) }
    {
        self.find_option(name).ok_or(EditFault::UnknownOption)
    }

    // The place of a criterion.
    fn criterion_named(&self, name: &[u8]) -> Result<usize, EditFault>
        ensures place { result ≡ found_or EditFault.UnknownCriterion (find_criterion self.now name.now) }
        ensures within { IfOk result (λ at. at < length self.now.criteria) }
    {
        self.find_criterion(name).ok_or(EditFault::UnknownCriterion)
    }

    // The root, or the place of a group.
    fn group_named(&self, name: Option<&[u8]>) -> Result<Option<usize>, EditFault>
        ensures place { result ≡ group_named self.now (option_map (λ bytes. bytes.now) name.entry) }
        ensures within { IfOk result (λ group. IfSome group (λ at. at < length self.now.groups)) }
    {
        let Some(name) = name else {
            return Ok(None);
        };
        match self.find_group(name) {
            None => Err(EditFault::UnknownGroup),
            Some(at) => Ok(Some(at)),
        }
    }

    // The root, or the place of the group with this name.
    fn parent_named(&self, name: &Option<Name>) -> Result<Option<usize>, EditFault>
        ensures place { result ≡ group_named self.now name.now }
        ensures within { IfOk result (λ group. IfSome group (λ at. at < length self.now.groups)) }
    {
        match name {
            None => Ok(None),
            Some(name) => self.group_named(Some(name.as_bytes())),
        }
    }

    // The places of the criteria of these names, where each has one.
    fn places_of(&self, names: &[Name]) -> Result<Option<Vec<usize>>, NoMemory>
        ensures places { IfOk result (λ found. option_map (λ v. v.items) found ≡ places_of self.now names.now) }
        ensures within { IfOk result (λ found. IfSome found (λ v.
            All (λ c. c < length self.now.criteria) v.items)) }
    {
        let mut places = Vec::new(self.allocator());
        for name in names {
            let Some(place) = self.find_criterion(name.as_bytes()) else {
                return Ok(None);
            };
            places.push(place)?;
        }
        Ok(Some(places))
    }

    // The places of two elements of a criterion, the first listed above the second.
    fn pair_of(&self, criterion: usize, x: &[u8], y: &[u8]) -> Result<(usize, usize), EditFault>
        requires { criterion < length self.now.criteria }
        ensures pair { result ≡ pair_of (criterion_at self.now criterion) x.now y.now }
        ensures within { IfOk result (λ pair.
            IsPair (length (criterion_at self.now criterion).elements) pair.0 pair.1) }
    {
        let Some(upper) = self.find_element(criterion, x) else {
            return Err(EditFault::UnknownElement);
        };
        let Some(lower) = self.find_element(criterion, y) else {
            return Err(EditFault::UnknownElement);
        };
        if upper >= lower {
            return Err(EditFault::AgainstOrder);
        }
        Ok((upper, lower))
    }

    // The places of two criteria in the weighting, the first above the second.
    fn weigh_pair(&self, x: &[u8], y: &[u8]) -> Result<(usize, usize), EditFault>
        ensures pair { result ≡ weigh_pair self.now x.now y.now }
        ensures within { IfOk result (λ pair. IsPair (length self.now.criteria + 1) pair.0 pair.1) }
    {
        let Some(upper) = self.weigh_place(x) else {
            return Err(EditFault::UnknownCriterion);
        };
        let Some(lower) = self.weigh_place(y) else {
            return Err(EditFault::UnknownCriterion);
        };
        if upper >= lower {
            return Err(EditFault::AgainstOrder);
        }
        Ok((upper, lower))
    }
}

// Whether each of the first numbers, as many as told, stands once.
fn is_permutation(count: usize, numbers: &[usize]) -> bool
    ensures { result ≡ is_permutation count numbers.now }
{
    numbers.len() == count && are_numbers_apart(numbers)
}

fn are_numbers_apart(numbers: &[usize]) -> bool
    ensures { result ≡ are_numbers_apart numbers.now }
{
    match numbers.split_first() {
        None => true,
        Some((first, rest)) => differs_from_all(*first, rest) && are_numbers_apart(rest),
    }
}

fn differs_from_all(number: usize, numbers: &[usize]) -> bool
    ensures { result ≡ list_all (λ other. not (number == other)) numbers.now }
{
    numbers.iter().all(|other| number != *other)
}
