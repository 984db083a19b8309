//! Changes of a model at known places: what the edits do once they have found them.
ghost use Rattle.std.specs.Prelude.{◌≡◌, ◌+◌, ◌<◌, ◌≤◌, length, IfOk, IfSome, None, map, remove, ◌++◌, ◌∷◌, [], OnOk, OnErr, All, nat_lt, ◌-◌, if◌then◌else◌};
ghost use Rattle.judgement_matrix.specs.Change.{grown};
ghost use Rattle.judgement_matrix.specs.Matrix.{Judgements, IsPair, judged, cleared, unjudged};
ghost use Rattle.judgement_matrix.specs.declared.matrix.TheConstants.{LIMIT};
ghost use Rattle.integers.specs.Counting.{IsOrder};
ghost use Rattle.model_core.specs.State.{parent_of};
ghost use Rattle.model_core.specs.Finding.{find_option, find_criterion, find_group, criterion_at};
ghost use Rattle.model_core.specs.Edits.{with_option, without_option, with_criterion, without_criterion, with_change, with_performance, with_order, with_weighting, with_group, without_group, order_without, new_criterion};

use crate::criterion::{Clearing, Criterion, Judgement, Place, Reach, References, Regrouping};
use crate::edit::EditFault;
use crate::group::Group;
use crate::limits::{CRITERIA, GROUPS, OPTIONS};
use crate::model::Model;
use crate::name::{Name, NoMemory};
use crate::row::Row;
use judgement_matrix::{LEAST_REACH, MOST_REACH, Matrix, Range};
use std::alloc::Global;

impl Model {
    // The last option.
    pub(crate) fn push_option(&mut self, name: Name) -> Result<(), NoMemory>
        requires absent { find_option self.old name ≡ None }
        requires room { length self.old.options < OPTIONS }
        ensures ok { OnOk result (self.new ≡ with_option self.old name) }
        ensures err { OnErr result (self.new ≡ self.old) }
    {
        let width = self.criteria.len();
        // The step that can fail and leaves nothing to undo comes first.
        self.rows.reserve(1)?;
        self.options.push(name)?;
        self.rows.push(Row::new(width)).unwrap();
        Ok(())
    }

    // An option goes.
    pub(crate) fn remove_option(&mut self, option: usize)
        requires { option < length self.old.options }
        ensures { self.new ≡ without_option self.old option }
    {
        self.options.remove(option);
        self.rows.remove(option);
    }

    // The last criterion.
    pub(crate) fn push_criterion(&mut self, criterion: Criterion) -> Result<(), NoMemory>
        requires absent { find_criterion self.old criterion.name ≡ None }
        requires room { length self.old.criteria < CRITERIA }
        requires root { criterion.group ≡ None }
        ensures ok { OnOk result (self.new ≡ with_criterion self.old criterion) }
        ensures err { OnErr result (self.new ≡ self.old) }
    {
        let number = self.criteria.len();
        // The steps that can fail and leave nothing to undo come first.
        self.order.reserve(1)?;
        let weighting = grown_copy(&self.weighting)?;
        self.criteria.push(criterion)?;
        self.order.push(number).unwrap();
        self.weighting = weighting;
        widen(self.rows.as_mut_slice());
        Ok(())
    }

    // A criterion goes.
    pub(crate) fn remove_criterion(&mut self, criterion: usize)
        requires { criterion < length self.old.criteria }
        ensures { self.new ≡ without_criterion self.old criterion }
    {
        let place = self.place_of(criterion);
        self.weighting.remove(place);
        self.order.remove(place - 1);
        close_up(self.order.as_mut_slice(), criterion);
        narrow(self.rows.as_mut_slice(), criterion);
        self.criteria.remove(criterion);
    }

    // The good and the neutral element of a criterion.
    pub(crate) fn set_refs_at(&mut self, criterion: usize, upper: usize, lower: usize)
        requires criterion { criterion < length self.old.criteria }
        requires pair { IsPair (length (criterion_at self.old criterion).elements) upper lower }
        ensures { self.new ≡ with_change self.old criterion (λ c. record c { good = upper; neutral = lower }) }
    {
        self.criteria.change(
            criterion,
            References {
                good: upper,
                neutral: lower,
            },
        );
    }

    // A judgement of a pair of elements of a criterion.
    pub(crate) fn judge_at(&mut self, criterion: usize, upper: usize, lower: usize, range: Range)
        requires criterion { criterion < length self.old.criteria }
        requires pair { IsPair (length (criterion_at self.old criterion).elements) upper lower }
        ensures { self.new
            ≡ with_change self.old criterion (λ c. record c { matrix = judged c.matrix upper lower range }) }
    {
        self.criteria.change(
            criterion,
            Judgement {
                upper,
                lower,
                range,
            },
        );
    }

    // A pair of elements of a criterion is judged no more.
    pub(crate) fn clear_at(&mut self, criterion: usize, upper: usize, lower: usize)
        requires criterion { criterion < length self.old.criteria }
        requires pair { IsPair (length (criterion_at self.old criterion).elements) upper lower }
        ensures { self.new ≡ with_change self.old criterion (λ c. record c { matrix = cleared c.matrix upper lower }) }
    {
        self.criteria.change(criterion, Clearing { upper, lower });
    }

    // The matrix of a criterion.
    pub(crate) fn set_matrix_at(&mut self, criterion: usize, judgements: Matrix)
        requires criterion { criterion < length self.old.criteria }
        requires size { judgements.size ≡ length (criterion_at self.old criterion).elements }
        ensures { self.new ≡ with_change self.old criterion (λ c. record c { matrix = judgements }) }
    {
        self.criteria
            .change(criterion, crate::criterion::Judgements(judgements));
    }

    // The reach of a criterion.
    pub(crate) fn set_reach_at(&mut self, criterion: usize, most: u32)
        requires criterion { criterion < length self.old.criteria }
        requires reach { (LEAST_REACH ≤ most) × (most ≤ MOST_REACH) }
        ensures { self.new ≡ with_change self.old criterion (λ c. record c { reach = most }) }
    {
        self.criteria.change(criterion, Reach(most));
    }

    // The group of a criterion.
    pub(crate) fn place_at(&mut self, criterion: usize, into: Option<usize>)
        requires criterion { criterion < length self.old.criteria }
        requires group { IfSome into (λ at. at < length self.old.groups) }
        ensures { self.new ≡ with_change self.old criterion (λ c. record c { group = into }) }
    {
        self.criteria.change(criterion, Place(into));
    }

    // The performance of an option on a criterion.
    pub(crate) fn perform_at(&mut self, option: usize, criterion: usize, element: usize)
        requires option { option < length self.old.options }
        requires criterion { criterion < length self.old.criteria }
        requires element { (1 ≤ element) × (element ≤ length (criterion_at self.old criterion).elements) }
        requires small { element ≤ LIMIT }
        ensures { self.new ≡ with_performance self.old option criterion element }
    {
        self.rows[option].set(criterion, element);
    }

    // The weighting order; nothing of it is judged.
    pub(crate) fn set_order_to(&mut self, numbers: Vec<usize>, fresh: Matrix)
        requires order { IsOrder (length self.old.criteria) numbers.items }
        requires nothing { fresh ≡ unjudged (length self.old.criteria + 1) }
        ensures { self.new ≡ with_order self.old numbers.items }
    {
        self.order = numbers;
        self.weighting = fresh;
    }

    // The matrix of the weighting.
    pub(crate) fn set_weighting(&mut self, judgements: Matrix)
        requires { judgements.size ≡ length self.old.criteria + 1 }
        ensures { self.new ≡ with_weighting self.old judgements }
    {
        self.weighting = judgements;
    }

    // A judgement of a pair of criteria in the weighting.
    pub(crate) fn weigh_at(&mut self, upper: usize, lower: usize, range: Range)
        requires { IsPair (length self.old.criteria + 1) upper lower }
        ensures { self.new ≡ with_weighting self.old (judged self.old.weighting upper lower range) }
    {
        self.weighting.set(upper, lower, range);
    }

    // A pair of criteria in the weighting is judged no more.
    pub(crate) fn unweigh_at(&mut self, upper: usize, lower: usize)
        requires { IsPair (length self.old.criteria + 1) upper lower }
        ensures { self.new ≡ with_weighting self.old (cleared self.old.weighting upper lower) }
    {
        self.weighting.clear(upper, lower);
    }

    // The last group.
    pub(crate) fn push_group(&mut self, group: Group) -> Result<(), NoMemory>
        requires absent { find_group self.old group.name ≡ None }
        requires room { length self.old.groups < GROUPS }
        requires parent { IfSome group.parent (λ at. at < length self.old.groups) }
        ensures ok { OnOk result (self.new ≡ with_group self.old group) }
        ensures err { OnErr result (self.new ≡ self.old) }
    {
        self.groups.push(group)
    }

    // A group goes; its groups and criteria belong to its parent.
    pub(crate) fn remove_group(&mut self, group: usize)
        requires { group < length self.old.groups }
        ensures { self.new ≡ without_group self.old group (parent_of self.old.groups group) }
    {
        let above = self.groups.get(group).parent();
        self.groups.remove(group);
        self.groups.change_each(Regrouping { gone: group, above });
        self.criteria.change_each(Regrouping { gone: group, above });
    }

    // The allocator that the model was made with.
    pub(crate) fn allocator(&self) -> Global {
        *self.order.allocator()
    }
}

// The judgements with one more element.
fn grown_copy(judgements: &Matrix) -> Result<Matrix, NoMemory>
    requires { judgements.now.size < LIMIT }
    ensures { IfOk result (λ copy. copy ≡ grown judgements.now) }
{
    let mut copy = judgements.copy()?;
    copy.grow()?;
    Ok(copy)
}

// A place for one more criterion in each row.
fn widen(rows: &mut [Row])
    requires { All (λ row. length row < CRITERIA) rows.old }
    ensures { rows.new ≡ map (λ row. row ++ None ∷ []) rows.old }
{
    for row in rows.iter_mut() {
        row.push();
    }
}

// The place of a criterion goes from each row.
fn narrow(rows: &mut [Row], at: usize)
    requires { All (λ row. at < length row) rows.old }
    ensures { rows.new ≡ map (λ row. remove row at) rows.old }
{
    for row in rows.iter_mut() {
        row.remove(at);
    }
}

// The numbers above one that is gone move down.
fn close_up(numbers: &mut [usize], gone: usize)
    ensures { numbers.new ≡ map (λ number. if nat_lt gone number then number - 1 else number) numbers.old }
{
    for number in numbers.iter_mut() {
        *number = lowered(*number, gone);
    }
}

fn lowered(number: usize, gone: usize) -> usize
    ensures { result ≡ (if nat_lt gone number then number - 1 else number) }
{
    if number > gone { number - 1 } else { number }
}
