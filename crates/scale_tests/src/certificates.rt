ghost use Rattle.std.specs.Prelude.{◌≤◌};

use crate::problems::three;
use cert_check::{
    CertFault, Place, Placed, Verdict, check_dual, check_farkas, place, print_cert, read_cert,
    read_printed, refutes,
};
use frac128::problem::{Cert, Problem, Row};
use frac128::{Frac, List, NoMemory, TooWide};
use judgement_matrix::{Matrix, Tag};
use std::alloc::Global;
use std::process::Abort;
use std::test::Fail;

// The denominator and the entries, or the first entry whose tag is no row.
fn described(alloc: Global, placed: &Placed) -> Result<String, NoMemory> {
    match placed {
        Placed::NoRow(entry) => format!(in alloc; "no row {entry}"),
        Placed::Cert(cert) => {
            let mut text = format!(in alloc; "den {}", cert.den)?;
            for (row, multiplier) in cert.on.as_slice() {
                write!(text, ", {row} by {multiplier}")?;
            }
            Ok(text)
        }
    }
}

// The certificate of a text, printed.
fn printed(alloc: Global, text: &str) -> Result<String, Fail> {
    let cert = read_cert(alloc, text.as_bytes()).map_err(|_| "no certificate")?;
    Ok(print_cert(alloc, &cert)?)
}

// Whether it is the one that its own text is read as.
fn reads_again(alloc: Global, text: &str) -> Result<bool, Fail> {
    let cert = read_cert(alloc, text.as_bytes()).map_err(|_| "no certificate")?;
    let again = read_printed(alloc, &cert).map_err(|_| "no memory")?;
    Ok(
        again.claim == cert.claim
            && again.den == cert.den
            && again.on.as_slice() == cert.on.as_slice(),
    )
}

// Its entries by the rows of a matrix.
fn placed(alloc: Global, matrix: &Matrix, text: &str) -> Result<String, Fail>
    requires { 2 ≤ matrix.now.size }
{
    let cert = read_cert(alloc, text.as_bytes()).map_err(|_| "no certificate")?;
    let placed = place(alloc, matrix, &cert)?;
    Ok(described(alloc, &placed)?)
}

// A certificate's text that reads back, and its entries by the rows of a matrix.
fn hold_text<A: Abort>(
    rt: &A,
    alloc: Global,
    matrix: &Matrix,
    text: &str,
    want: &str,
) -> Result<(), Fail>
    requires { 2 ≤ matrix.now.size }
{
    assert_eq!(rt; printed(alloc, text)?.as_str(), text);
    assert!(rt; reads_again(alloc, text)?, "at {text}");
    assert_eq!(rt; placed(alloc, matrix, text)?.as_str(), want, "at {text}");
    Ok(())
}

// The rows of the matrix are lower 1 2, 1 3 and 2 3, and cross 1 2 2 3, 1 3 1 2 and 1 3 2 3.
#[test]
fn texts(rt: HostRuntime) -> Result<(), Fail> {
    let alloc = rt.alloc();
    let matrix = three(alloc, [3, 4, 2])?;
    for (text, want) in [
        (
            "least 5 den 1 rows 2\nlower 1 2 1\nlower 2 3 1\n",
            "den 1, 0 by 1, 2 by 1",
        ),
        (
            "least 5 den 2 rows 2\nlower 2 3 4\ncross 1 3 1 2 -6\n",
            "den 2, 2 by 4, 4 by -6",
        ),
        (
            "least 5 den -3 rows 3\ncross 1 3 2 3 7\nlower 1 3 -1\nlower 1 3 0\n",
            "den -3, 5 by 7, 1 by -1, 1 by 0",
        ),
        (
            "least -1/2 den -7 rows 1\nzero 254 255 -170141183460469231731687303715884105727\n",
            "no row 1",
        ),
        ("least 0 den 0 rows 0\n", "den 0"),
        ("nothing rows 0\n", "den 1"),
        ("nothing rows 2\nlower 2 3 4\nzero 1 3 1\n", "no row 2"),
        ("nothing rows 2\ncross 1 2 1 3 1\nlower 1 9 1\n", "no row 1"),
    ] {
        hold_text(&rt, alloc, &matrix, text, want)?;
    }
    Ok(())
}

// Lines without their ends.
#[test]
fn texts_that_are_cut(rt: HostRuntime) {
    let alloc = rt.alloc();
    for (text, line) in [
        ("least 5 den 1 rows 0", 1),
        ("nothing rows 1\nlower 1 2 1", 2),
    ] {
        assert!(rt;
            read_cert(alloc, text.as_bytes()).is_err_and(|fault| fault == CertFault::Bad(line)),
            "at {text}"
        );
    }
}

// The row of these coefficients.
fn row_of(alloc: Global, coefs: [i128; 2], bound: i128) -> Result<Row, NoMemory> {
    Ok(Row {
        coefs: List::make(Vec::from_array(alloc, coefs)?),
        bound,
    })
}

// A variable of cost 2 that is at least 2 and at most 0.
fn no_point(alloc: Global) -> Result<Problem, Fail> {
    let cost = Vec::from_array(alloc, [2, 0])?;
    let above = row_of(alloc, [1, 0], 2)?;
    let below = row_of(alloc, [-1, 0], 0)?;
    let rows = vec![in alloc; above, below]?;
    Ok(Problem::checked(2, List::make(cost), List::make(rows)).ok_or("no problem")?)
}

// What is said of these multipliers, of a lower bound of 1.
fn verdict(
    alloc: Global,
    problem: &Problem,
    den: i128,
    entries: &[(usize, i128)],
) -> Result<Result<Verdict, TooWide>, NoMemory> {
    let on = List::make(entries.to_vec(alloc)?);
    Ok(check_dual(problem, &Frac::whole(1), &Cert { den, on }))
}

// Twice the greatest denominator is out of range before any line is false.
#[test]
fn certificates_beyond_a_text(rt: HostRuntime) -> Result<(), Fail> {
    let alloc = rt.alloc();
    let problem = no_point(alloc)?;
    for (den, entries, want) in [
        (i128::MAX, [].as_slice(), Err(TooWide)),
        (
            i128::MIN,
            [(9, 1)].as_slice(),
            Ok(Verdict::Fails(Place::Den)),
        ),
        (
            1,
            [(usize::MAX, 1)].as_slice(),
            Ok(Verdict::Fails(Place::Entry(1))),
        ),
        (
            1,
            [(0, 9), (1, i128::MIN)].as_slice(),
            Ok(Verdict::Fails(Place::Entry(2))),
        ),
    ] {
        let found = verdict(alloc, &problem, den, entries)?;
        assert_eq!(rt; found, want, "at {entries:?} over {den}");
    }
    Ok(())
}

// The denominator of a refutation isn't looked at.
#[test]
fn a_refutation_over_less_than_nothing(rt: HostRuntime) -> Result<(), Fail> {
    let problem = no_point(rt.alloc())?;
    let on = List::make([(0usize, 1i128), (1, 2)].to_vec(rt.alloc())?);
    assert_eq!(rt;
        check_farkas(&problem, &Cert { den: -7, on }),
        Ok(Verdict::Holds)
    );
    Ok(())
}

// Whether entries refute the matrix of three judgements; nothing where a number is out of range.
fn refuted(
    alloc: Global,
    judged: [u8; 3],
    entries: [(Tag, i128); 2],
) -> Result<Option<bool>, Fail> {
    let matrix = three(alloc, judged)?;
    Ok(refutes(alloc, &matrix, entries.as_slice())?.ok())
}

// That the first pair stands further apart than the second refutes 3, 2, 2, and no matrix in which it isn't to.
#[test]
fn entries_by_tags(rt: HostRuntime) -> Result<(), Fail> {
    let cross = Tag::Cross(1, 2, 1, 3);
    let lower = Tag::Lower(2, 3);
    for (judged, entries, want) in [
        ([3, 2, 2], [(lower, 0), (cross, 1)], Some(true)),
        ([4, 3, 2], [(lower, 1), (cross, 2)], Some(true)),
        // No row of the matrix.
        ([2, 2, 2], [(lower, 0), (cross, 1)], Some(false)),
        ([3, 2, 2], [(Tag::Order(1), 0), (cross, 1)], Some(false)),
        // A row twice, and rows in the wrong order.
        ([3, 2, 2], [(cross, 1), (cross, 1)], Some(false)),
        ([3, 2, 2], [(cross, 1), (lower, 1)], Some(false)),
        // A multiplier below 0, a sum of gaps, nothing, and a number out of range.
        ([3, 2, 2], [(lower, 0), (cross, -1)], Some(false)),
        ([3, 2, 2], [(lower, 1), (cross, 0)], Some(false)),
        ([3, 2, 2], [(lower, 0), (cross, 0)], Some(false)),
        ([3, 1, 2], [(lower, 0), (cross, i128::MAX)], None),
    ] {
        assert!(rt;
            refuted(rt.alloc(), judged, entries)? == want,
            "at {judged:?}"
        );
    }
    Ok(())
}
