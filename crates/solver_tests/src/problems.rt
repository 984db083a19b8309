use frac128::problem::{Cert, Problem, Row};
use frac128::{List, NoMemory};
use std::alloc::Global;
use std::test::Fail;

// The problem of these costs and of one row, where they make one.
fn problem_of(
    alloc: Global,
    costs: &[i128],
    coefs: &[i128],
    bound: i128,
) -> Result<Option<Problem>, NoMemory> {
    let coefs = List::make(coefs.to_vec(alloc)?);
    let rows = List::make(vec![in alloc; Row { coefs, bound }]?);
    let costs = List::make(costs.to_vec(alloc)?);
    Ok(Problem::checked(2, costs, rows))
}

#[test]
fn accepted(rt: HostRuntime) -> Result<(), Fail> {
    for (costs, coefs, bound, want) in [
        ([2, 0], [1, -1].as_slice(), 3, true),
        ([2, -5], [1, -1].as_slice(), 3, false),
        ([2, 5], [1].as_slice(), 3, false),
        ([2, 5], [1, -1].as_slice(), i128::MIN, false),
    ] {
        let found = problem_of(rt.alloc(), &costs, coefs, bound)?;
        assert_eq!(rt; found.is_some(), want, "with a bound of {bound}");
    }
    Ok(())
}

// Whether these are its parts.
fn has_parts(problem: &Problem, costs: &[i128], coefs: &[i128], bound: i128) -> bool {
    problem.vars() == costs.len()
        && problem.cost() == costs
        && problem.rows().len() == 1
        && problem.rows()[0].coefs.as_slice() == coefs
        && problem.rows()[0].bound == bound
}

#[test]
fn parts(rt: HostRuntime) -> Result<(), Fail> {
    let problem = problem_of(rt.alloc(), &[2, 5], &[1, -1], 3)?.ok_or("no problem")?;
    assert!(rt; has_parts(&problem, &[2, 5], &[1, -1], 3));
    Ok(())
}

// Multipliers over 2.
fn cert_of(alloc: Global, on: &[(usize, i128)]) -> Result<Cert, NoMemory> {
    Ok(Cert {
        den: 2,
        on: List::make(on.to_vec(alloc)?),
    })
}

#[test]
fn copies(rt: HostRuntime) -> Result<(), Fail> {
    let cert = cert_of(rt.alloc(), &[(0, 7), (3, 1)])?;
    assert_eq!(rt; cert.copy(rt.alloc())?, cert);
    assert!(rt; cert_of(rt.alloc(), &[(0, 7)])? != cert);
    Ok(())
}
