//! Certificates of dominance.
use super::{name_of, printed, ratio};
use frac128::{Frac, List};
use report_text::{Head, OpenTag, Part, Reply};
use std::alloc::Global;
use std::test::Fail;

#[test]
fn dominates(rt: HostRuntime) -> Result<(), Fail> {
    let least = ratio(7, 2)?;
    assert_eq!(rt;
        printed(rt.alloc(), Reply::Dominates { least })?.as_str(),
        "dominates 7/2\n"
    );
    Ok(())
}

/// A certificate of dominance.
const DOMINANCE: &str = r#"dominates 0
criterion "c1" least 50 den 2 rows 2
cross 1 2 2 3 1
anchor-up 1
criterion "c2" least 900 den 1 rows 2
anchor-down 1
reach-up 1
weighting least 100 den 1 rows 2
cross 1 2 2 3 50
sum-up 100
"#;

// A criterion, or the weighting where the text is empty.
fn head_of(alloc: Global, text: &str) -> Result<Head, Fail> {
    if text.is_empty() {
        return Ok(Head::Weighting);
    }
    Ok(Head::Criterion(name_of(alloc, text)?))
}

// A part whose value is a whole number.
fn part_of(
    alloc: Global,
    text: &str,
    value: i128,
    den: i128,
    on: [(OpenTag, i128); 2],
) -> Result<Part, Fail> {
    let value = ratio(value, 1)?;
    let on = List::make(Vec::from_array(alloc, on)?);
    Ok(Part {
        head: head_of(alloc, text)?,
        value: Some(value),
        den,
        on,
    })
}

// Parts of two rows each.
fn parts_of(
    alloc: Global,
    all: &[(&str, i128, i128, [(OpenTag, i128); 2])],
) -> Result<List<Part>, Fail> {
    let mut parts = Vec::new(alloc);
    for (text, value, den, on) in all {
        parts.push(part_of(alloc, text, *value, *den, *on)?)?;
    }
    Ok(List::make(parts))
}

#[test]
fn dominance(rt: HostRuntime) -> Result<(), Fail> {
    let least = ratio(0, 1)?;
    let cross = OpenTag::Cross(1, 2, 2, 3);
    let parts = parts_of(
        rt.alloc(),
        &[
            ("c1", 50, 2, [(cross, 1), (OpenTag::AnchorUp, 1)]),
            (
                "c2",
                900,
                1,
                [(OpenTag::AnchorDown, 1), (OpenTag::ReachUp, 1)],
            ),
            ("", 100, 1, [(cross, 50), (OpenTag::SumUp, 100)]),
        ],
    )?;
    assert_eq!(rt;
        printed(rt.alloc(), Reply::DomCert { least, parts })?.as_str(),
        DOMINANCE
    );
    Ok(())
}

// A certificate of dominance of one part.
fn one_part(
    alloc: Global,
    head: Head,
    value: Option<Frac>,
    on: &[(OpenTag, i128)],
) -> Result<String, Fail> {
    let least = ratio(3, 1)?;
    let on = List::make(Vec::from_slice(alloc, on)?);
    let part = Part {
        head,
        value,
        den: -7,
        on,
    };
    let parts = List::make(vec![in alloc; part]?);
    Ok(printed(alloc, Reply::DomCert { least, parts })?)
}

#[test]
fn the_same_element(rt: HostRuntime) -> Result<(), Fail> {
    let head = head_of(rt.alloc(), "c")?;
    assert_eq!(rt;
        one_part(rt.alloc(), head, None, &[])?.as_str(),
        "dominates 3\ncriterion \"c\" same\n"
    );
    Ok(())
}

/// Rows of the other kinds, and a value below 0.
const OTHERS: &str = "dominates 3
weighting least -3/2 den -7 rows 3
zero 1 2 1
reach-down 2
sum-down -3
";

#[test]
fn other_rows(rt: HostRuntime) -> Result<(), Fail> {
    let on = [
        (OpenTag::Zero(1, 2), 1),
        (OpenTag::ReachDown, 2),
        (OpenTag::SumDown, -3),
    ];
    let value = ratio(-3, 2)?;
    assert_eq!(rt;
        one_part(rt.alloc(), Head::Weighting, Some(value), &on)?.as_str(),
        OTHERS
    );
    Ok(())
}
