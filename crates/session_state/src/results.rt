//! The basic scales that are kept, and the count of pivots.
ghost use Rattle.std.specs.Prelude.{◌≡◌, ◌≤◌, length, count_by, IfOk};
ghost use Rattle.std.specs.Option.{option_copied, is_some};
ghost use Rattle.session_state.specs.State.{AreResults, HasPlace, kept_of, kept_count, with_kept, still_kept, carried, no_results};
ghost use Rattle.session_state.specs.Taking.{IsSubject, TakesOrNoMemory, FindsOrNoMemory};

use crate::shared::Shared;
use crate::subject::Subject;
use judgement_matrix::Matrix;
use lex_simplex::Count;
use model_core::{Criterion, Model, NoMemory};
use std::alloc::Global;
use value_scale::{Basic, ScaleFault, basic_scale};

/// A place for each criterion and one for the weighting, each with a basic scale or nothing; and the
/// pivots made so far.
#[derive(Drop)]
pub struct Results {
    kept: Vec<Option<Shared>>,
    kept_weighting: Option<Shared>,
    pivots: Count,
}

impl std::marker::Model for Results {
    ghost use Rattle.session_state.specs.State.{ResultsState};

    ghost Value = { ResultsState };

    ghost view = { λ r. record { kept = r.kept.items; kept_weighting = r.kept_weighting; pivots = r.pivots } };
}

impl Results {
    /// No places for criteria, nothing kept and no pivots.
    pub fn new(alloc: Global) -> Results
        ensures { result ≡ no_results }
    {
        Results {
            kept: Vec::new(alloc),
            kept_weighting: None,
            pivots: Count::new(),
        }
    }

    /// An equal one, which shares the basic scales.
    pub fn copy(&self, alloc: Global) -> Result<Results, NoMemory>
        ensures { IfOk result (λ copy. copy ≡ self.now) }
    {
        Ok(Results {
            kept: each_shared(alloc, &self.kept)?,
            kept_weighting: shared(self.kept_weighting.as_ref())?,
            pivots: copied(&self.pivots),
        })
    }

    /// What is kept of a subject.
    pub fn kept(&self, subject: Subject) -> Option<&Basic>
        requires { HasPlace self.now subject }
        ensures { option_copied result ≡ kept_of self.now subject }
    {
        match self.place(subject) {
            Some(shared) => Some(shared.basic()),
            None => None,
        }
    }

    /// How many pivots were made.
    pub fn pivots(&self) -> u64
        ensures { result ≡ self.now.pivots }
    {
        self.pivots.made()
    }

    /// How many places are kept.
    pub fn count(&self) -> usize
        ensures { result ≡ kept_count self.now }
    {
        count_kept(&self.kept) + usize::from(self.kept_weighting.is_some())
    }

    /// The basic scale of a subject: the one that is kept, or else the one that is found, which is
    /// then kept. After want of memory the results are as before.
    pub fn take(
        &mut self,
        alloc: Global,
        model: &Model,
        subject: Subject,
    ) -> Result<Shared, ScaleFault>
        requires subject { IsSubject model.now subject }
        requires results { AreResults model.now self.old }
        ensures takes { TakesOrNoMemory model.now subject self.old result self.new }
        ensures results { AreResults model.now self.new }
    {
        if let Some(kept) = self.place(subject) {
            return Ok(kept.share()?);
        }
        self.find(alloc, subject.matrix(model), subject)
    }

    /// What is kept after a change of the model: the basic scale of each criterion that had one under
    /// the same name with equal judgements, and that of the weighting where its judgements are equal.
    pub fn carried(&self, alloc: Global, model: &Model, after: &Model) -> Result<Results, NoMemory>
        requires { AreResults model.now self.now }
        ensures carried { IfOk result (λ results. results ≡ carried model.now self.now after.now) }
        ensures results { IfOk result (AreResults after.now) }
    {
        Ok(Results {
            kept: self.carried_places(alloc, model, after)?,
            kept_weighting: shared(self.still_kept_weighting(model, after))?,
            pivots: copied(&self.pivots),
        })
    }

    // The place of a subject.
    fn place(&self, subject: Subject) -> Option<&Shared>
        requires { HasPlace self.now subject }
        ensures { option_copied result ≡ kept_of self.now subject }
    {
        match subject {
            Subject::Criterion(at) => self.kept[at].as_ref(),
            Subject::Weighting => self.kept_weighting.as_ref(),
        }
    }

    // Keeps the basic scale of a subject.
    fn keep(&mut self, subject: Subject, basic: Shared)
        requires { HasPlace self.old subject }
        ensures { self.new ≡ with_kept subject basic self.old }
    {
        match subject {
            Subject::Criterion(at) => {
                self.kept[at] = Some(basic);
            }
            Subject::Weighting => {
                self.kept_weighting = Some(basic);
            }
        }
    }

    // Finds the basic scale of a subject, which has this matrix, and keeps it.
    fn find(
        &mut self,
        alloc: Global,
        matrix: &Matrix,
        subject: Subject,
    ) -> Result<Shared, ScaleFault>
        requires size { 2 ≤ matrix.now.size }
        requires place { HasPlace self.old subject }
        ensures { FindsOrNoMemory matrix.now subject self.old result self.new }
    {
        let mut pivots = copied(&self.pivots);
        match basic_scale(alloc, matrix, &mut pivots) {
            Ok(basic) => {
                let basic = Shared::new(alloc, basic)?;
                let kept = basic.share()?;
                self.pivots = pivots;
                self.keep(subject, kept);
                return Ok(basic);
            }
            Err(ScaleFault::TooWide) => {
                self.pivots = pivots;
                return Err(ScaleFault::TooWide);
            }
            Err(ScaleFault::NoMemory) => {
                return Err(ScaleFault::NoMemory);
            }
        }
    }

    // The places of the criteria after a change of the model.
    fn carried_places(
        &self,
        alloc: Global,
        model: &Model,
        after: &Model,
    ) -> Result<Vec<Option<Shared>>, NoMemory>
        requires { length self.now.kept ≡ length model.now.criteria }
        ensures { IfOk result (λ kept. kept.items ≡ (carried model.now self.now after.now).kept) }
    {
        let mut kept = Vec::new(alloc);
        for at in 0..after.criteria() {
            kept.push(shared(self.still_kept(model, after.criterion(at)))?)?;
        }
        Ok(kept)
    }

    // What is kept of a criterion after a change of the model.
    fn still_kept(&self, model: &Model, after: &Criterion) -> Option<&Shared>
        requires { length self.now.kept ≡ length model.now.criteria }
        ensures { option_copied result ≡ still_kept model.now self.now after.now }
    {
        let at = model.find_criterion(after.name().as_bytes())?;
        if model.criterion(at).matrix() == after.matrix() {
            self.place(Subject::Criterion(at))
        } else {
            None
        }
    }

    // What is kept of the weighting after a change of the model.
    fn still_kept_weighting(&self, model: &Model, after: &Model) -> Option<&Shared>
        ensures { option_copied result ≡ (carried model.now self.now after.now).kept_weighting }
    {
        if model.weighting() == after.weighting() {
            self.kept_weighting.as_ref()
        } else {
            None
        }
    }
}

// How many of these places are kept.
fn count_kept(kept: &[Option<Shared>]) -> usize
    ensures count { result ≡ count_by is_some kept.now }
    ensures few { result ≤ length kept.now }
{
    kept.iter().filter(|place| place.is_some()).count()
}

// The same once more, where there is one.
fn shared(kept: Option<&Shared>) -> Result<Option<Shared>, NoMemory>
    ensures { IfOk result (λ same. same ≡ option_copied kept.entry) }
{
    match kept {
        Some(basic) => Ok(Some(basic.share()?)),
        None => Ok(None),
    }
}

// The same places once more.
fn each_shared(alloc: Global, kept: &[Option<Shared>]) -> Result<Vec<Option<Shared>>, NoMemory>
    ensures { IfOk result (λ same. same.items ≡ kept.now) }
{
    let mut same = Vec::new(alloc);
    for place in kept {
        same.push(shared(place.as_ref())?)?;
    }
    Ok(same)
}

// The same count.
fn copied(count: &Count) -> Count
    ensures { result ≡ count.now }
{
    prove!(count.made() <= u64::MAX);
    let mut copy = Count::new();
    copy.add(count);
    copy
}
