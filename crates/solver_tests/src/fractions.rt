ghost use Rattle.frac128.specs.Formula.{determinant_of};
ghost use Rattle.std.specs.Prelude.{◌≡◌};

use frac128::{Frac, FracFault, MOST_PLACES, TooWide, compare, read_frac};
use std::alloc::Global;
use std::cmp::Ordering;
use std::test::Fail;

const MOST: i128 = 170141183460469231731687303715884105727;

// What is worked from two fractions.
#[derive(Clone, Copy)]
enum Work {
    Sum,
    Difference,
    Product,
    Quotient,
    // The first times itself, less the second times itself.
    Determinant,
}

// The fraction that a text gives.
pub(crate) fn fraction(text: &str) -> Result<Frac, Fail> {
    Ok(read_frac(text.as_bytes()).ok().ok_or("no fraction")?)
}

// A formula is a chain of calls with `?`, and meets the chain of steps that defines it.
#[tactic(auto, unfolding(frac128::specs::Formula::determinant_of))]
fn determinant(a: &Frac, b: &Frac, c: &Frac, d: &Frac) -> Result<Frac, TooWide>
    ensures { result ≡ determinant_of a.now b.now c.now d.now }
{
    a.mul(d)?.sub(&b.mul(c)?)
}

fn worked(work: Work, a: &Frac, b: &Frac) -> Result<Frac, TooWide> {
    match work {
        Work::Sum => a.add(b),
        Work::Difference => a.sub(b),
        Work::Product => a.mul(b),
        Work::Quotient if b.num() == 0 => Err(TooWide),
        Work::Quotient => a.div(b),
        Work::Determinant => determinant(a, b, b, a),
    }
}

// What is worked from the fractions of two texts, as text.
fn worked_text(alloc: Global, work: Work, a: &str, b: &str) -> Result<String, Fail> {
    let (a, b) = (fraction(a)?, fraction(b)?);
    match worked(work, &a, &b) {
        Ok(found) => Ok(found.print(alloc)?),
        Err(TooWide) => Ok("too wide".to_owned(alloc)?),
    }
}

#[test]
fn works(rt: HostRuntime) -> Result<(), Fail> {
    let most = "170141183460469231731687303715884105727";
    let part = "1/170141183460469231731687303715884105727";
    for (work, a, b, want) in [
        (Work::Sum, "1/6", "1/3", "1/2"),
        (
            Work::Sum,
            part,
            part,
            "2/170141183460469231731687303715884105727",
        ),
        (Work::Sum, most, "1", "too wide"),
        (Work::Difference, most, most, "0"),
        (Work::Difference, "1/2", "2/3", "-1/6"),
        (
            Work::Product,
            "170141183460469231731687303715884105727/2",
            "2/170141183460469231731687303715884105727",
            "1",
        ),
        (
            Work::Product,
            "170141183460469231731687303715884105727/2",
            "3",
            "too wide",
        ),
        (
            Work::Quotient,
            "1/2",
            "-1/170141183460469231731687303715884105727",
            "-170141183460469231731687303715884105727/2",
        ),
        (Work::Determinant, "1/2", "1/3", "5/36"),
        (Work::Determinant, "1/2", most, "too wide"),
    ] {
        let found = worked_text(rt.alloc(), work, a, b)?;
        assert_eq!(rt; found.as_str(), want, "of {a} and {b}");
    }
    Ok(())
}

// The parts of the fraction of two numbers.
fn made(num: i128, den: i128) -> Result<(i128, i128), TooWide> {
    if den == 0 {
        return Err(TooWide);
    }
    let frac = Frac::make(num, den)?;
    Ok((frac.num(), frac.den()))
}

#[test]
fn made_fractions(rt: HostRuntime) {
    for (num, den, want) in [
        (6, -4, Ok((-3, 2))),
        (i128::MIN, 2, Err(TooWide)),
        (1, i128::MIN, Err(TooWide)),
        (-7, 1, Ok((-7, 1))),
    ] {
        assert_eq!(rt; made(num, den), want);
    }
    assert_eq!(rt; Frac::whole(-7).num(), -7);
}

// How two quotients compare, where they are in range.
fn compared(a: (i128, i128), b: (i128, i128)) -> Option<Ordering> {
    if a.1 < 1 || b.1 < 1 || a.0 < -MOST || b.0 < -MOST {
        return None;
    }
    Some(compare(a.0, a.1, b.0, b.1))
}

#[test]
fn comparisons(rt: HostRuntime) -> Result<(), Fail> {
    for (a, b, want) in [
        ((MOST, MOST - 1), (MOST - 1, MOST - 2), Ordering::Less),
        ((-MOST, MOST - 1), (1 - MOST, MOST - 2), Ordering::Greater),
        ((2, 4), (1, 2), Ordering::Equal),
    ] {
        assert_eq!(rt; compared(a, b), Some(want));
    }
    assert_eq!(rt; fraction("-1/2")?.cmp(&fraction("-1/3")?), Ordering::Less);
    Ok(())
}

// What is printed for the fraction that is read, which reads back as the same; or why none is read.
fn printed(alloc: Global, text: &str) -> Result<String, Fail> {
    match read_frac(text.as_bytes()) {
        Ok(frac) if frac.read_printed(alloc)? == Ok(frac) => Ok(frac.print(alloc)?),
        Ok(_) => Ok("another".to_owned(alloc)?),
        Err(FracFault::BadNumber) => Ok("no number".to_owned(alloc)?),
        Err(FracFault::TooWide) => Ok("too wide".to_owned(alloc)?),
    }
}

#[test]
fn texts(rt: HostRuntime) -> Result<(), Fail> {
    for (text, want) in [
        ("-06/4", "-3/2"),
        ("8/004", "2"),
        ("-0", "0"),
        ("580/7", "580/7"),
        ("", "no number"),
        ("-", "no number"),
        ("1/", "no number"),
        ("/1", "no number"),
        ("1/0", "no number"),
        ("+1", "no number"),
        ("1.5", "no number"),
        ("1/2/3", "no number"),
        ("1/-2", "no number"),
        (
            "170141183460469231731687303715884105727",
            "170141183460469231731687303715884105727",
        ),
        ("170141183460469231731687303715884105728", "too wide"),
        ("1/170141183460469231731687303715884105728", "too wide"),
    ] {
        let found = printed(rt.alloc(), text)?;
        assert_eq!(rt; found.as_str(), want, "of {text}");
    }
    Ok(())
}

// The fraction that is read, rounded to so many places.
fn rounded(alloc: Global, text: &str, places: u8) -> Result<String, Fail> {
    let frac = fraction(text)?;
    if places == 0 || places > MOST_PLACES {
        return Err(Fail::from("places"));
    }
    Ok(frac.decimal(alloc, places)?)
}

#[test]
fn roundings(rt: HostRuntime) -> Result<(), Fail> {
    for (text, places, want) in [
        ("580/7", 2, "82.86"),
        ("400/7", 2, "57.14"),
        ("5/7", 2, "0.71"),
        ("2/7", 2, "0.29"),
        ("2/3", 2, "0.67"),
        ("100", 2, "100.00"),
        ("1/8", 2, "0.13"),
        ("-1/8", 2, "-0.13"),
        ("-1/1000", 2, "0.00"),
        ("999/1000", 2, "1.00"),
        ("1/2", 1, "0.5"),
        (
            "-170141183460469231731687303715884105725/170141183460469231731687303715884105727",
            18,
            "-1.000000000000000000",
        ),
        (
            "1/170141183460469231731687303715884105727",
            18,
            "0.000000000000000000",
        ),
        (
            "85070591730234615865843651857942052864/170141183460469231731687303715884105727",
            1,
            "0.5",
        ),
    ] {
        let found = rounded(rt.alloc(), text, places)?;
        assert_eq!(rt; found.as_str(), want, "of {text}");
    }
    Ok(())
}
