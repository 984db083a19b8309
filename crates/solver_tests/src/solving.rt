use frac128::problem::{Cert, Problem, Row};
use frac128::{Frac, List};
use lex_simplex::*;
use std::alloc::{AllocError, Global};
use std::test::Fail;

/// The problem with so many variables: first the costs, then each row, its bound last.
fn problem_of(alloc: Global, vars: usize, numbers: &[i128]) -> Result<Problem, Fail> {
    let (cost, rest) = numbers.split_at_checked(vars).ok_or("costs")?;
    let width = vars.checked_add(1).ok_or("few variables")?;
    let mut rows = Vec::new(alloc);
    for row in rest.chunks_exact(width) {
        let (bound, coefs) = row.split_last().ok_or("a bound")?;
        rows.push(Row {
            coefs: List::make(coefs.to_vec(alloc)?),
            bound: *bound,
        })?;
    }
    let cost = List::make(cost.to_vec(alloc)?);
    Ok(Problem::checked(vars, cost, List::make(rows)).ok_or("a problem")?)
}

/// A fraction and a blank.
fn add_fraction(alloc: Global, text: &mut String, number: &Frac) -> Result<(), AllocError> {
    text.push_str(number.print(alloc)?.as_str())?;
    text.push_str(" ")
}

/// The denominator, and each row with its multiplier.
fn add_cert(alloc: Global, text: &mut String, cert: &Cert) -> Result<(), AllocError> {
    text.push_str(format!(in alloc; "over {}", cert.den)?.as_str())?;
    for (row, multiplier) in cert.on.as_slice() {
        text.push_str(format!(in alloc; " {row}:{multiplier}")?.as_str())?;
    }
    Ok(())
}

/// The point, its cost and the certificate.
fn add_least(
    alloc: Global,
    text: &mut String,
    point: &[Frac],
    value: &Frac,
    cert: &Cert,
) -> Result<(), AllocError> {
    for number in point {
        add_fraction(alloc, text, number)?;
    }
    text.push_str("costs ")?;
    add_fraction(alloc, text, value)?;
    add_cert(alloc, text, cert)
}

/// That there is no point, and the certificate.
fn add_nothing(alloc: Global, text: &mut String, cert: &Cert) -> Result<(), AllocError> {
    text.push_str("nothing ")?;
    add_cert(alloc, text, cert)
}

/// The answer, or the fault.
fn add_answer(
    alloc: Global,
    text: &mut String,
    answer: &Result<Outcome, SolveFault>,
) -> Result<(), AllocError> {
    match answer {
        Ok(Outcome::Least { point, value, cert }) => {
            add_least(alloc, text, point.as_slice(), value, cert)
        }
        Ok(Outcome::Nothing { cert }) => add_nothing(alloc, text, cert),
        Err(SolveFault::TooWide) => text.push_str("too wide"),
        Err(SolveFault::NoMemory) => text.push_str("no memory"),
    }
}

/// The pivots that were counted, from a count of 0, and the answer.
fn answered(alloc: Global, problem: &Problem) -> Result<String, AllocError> {
    let mut pivots = Count::new();
    let answer = solve(alloc, problem, &mut pivots);
    let mut text = format!(in alloc; "{} pivots: ", pivots.made())?;
    add_answer(alloc, &mut text, &answer)?;
    Ok(text)
}

/// The same of the problem of these numbers.
fn solved(alloc: Global, vars: usize, numbers: &[i128]) -> Result<String, Fail> {
    let problem = problem_of(alloc, vars, numbers)?;
    Ok(answered(alloc, &problem)?)
}

/// Two rows whose first pivot forms (2^90 + 1) * 2^90.
const WIDE: [i128; 8] = [1, 1, (1 << 90) + 1, 3, 1, 7, 1 << 90, 1];

/// The rows of a matrix of three elements, judged 3, 4 and 2.
const MATRIX: [i128; 20] = [1, 1, 0, 1, 3, 1, 1, 4, 1, 0, 2, -1, 1, 1, 1, 0, 1, 0, 1, 2];

/// Goes in a circle where ties between columns are left to the first one: the eighth pivot is then
/// the second again.
const CIRCLE: [i128; 34] = [
    0, 0, 0, 0, 2, 2, 2, 2, 1, 4, -1, 1, 0, -1, 3, 2, -3, 3, 1, 0, 4, -4, -1, 1, 4, 4, -1, 3, -1,
    -4, -2, -1, 2, 1,
];

#[test]
fn answers(rt: HostRuntime) -> Result<(), Fail> {
    for (vars, numbers, want) in [
        (
            1,
            [1, 2, 3].as_slice(),
            "1 pivots: 3/2 costs 3/2 over 2 0:1",
        ),
        (
            1,
            [1, 1, 1, -1, 0].as_slice(),
            "1 pivots: nothing over 1 0:1 1:1",
        ),
        (1, [1].as_slice(), "0 pivots: 0 costs 0 over 1"),
        (2, WIDE.as_slice(), "0 pivots: too wide"),
        (2, MATRIX.as_slice(), "4 pivots: 2 3 costs 5 over 1 0:1 2:1"),
        (4, CIRCLE.as_slice(), "3 pivots: 0 1/2 0 1 costs 0 over 1"),
        (0, [1].as_slice(), "0 pivots: nothing over 1 0:1"),
    ] {
        let text = solved(rt.alloc(), vars, numbers)?;
        assert_eq!(rt; text.as_str(), want);
    }
    Ok(())
}

/// How two calls in turn end, and the pivots that they count.
fn pivoted_twice(alloc: Global, problem: &Problem) -> Result<(End, End, u64), Fail> {
    let mut table = Table::make(alloc, problem)?;
    let mut pivots = Count::new();
    let first = table.pivot_all(&mut pivots).ok().ok_or("too wide")?;
    let second = table.pivot_all(&mut pivots).ok().ok_or("too wide")?;
    Ok((first, second, pivots.made()))
}

#[test]
fn a_second_call(rt: HostRuntime) -> Result<(), Fail> {
    let problem = problem_of(rt.alloc(), 1, &[1, 2, 3])?;
    let found = pivoted_twice(rt.alloc(), &problem)?;
    assert_eq!(rt; found, (End::Optimal, End::Optimal, 1));
    Ok(())
}
