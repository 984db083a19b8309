//! Replies that no command gives yet, printed once and compared as a whole. What a session prints is tested by sessions.
ghost use Rattle.std.specs.Prelude.{◌≡◌, IfOk, length, string_bytes};
ghost use Rattle.report_text.specs.Matrices.{IsShiftOf};
ghost use Rattle.report_text.specs.Refusals.{IsRefusal};
ghost use Rattle.report_text.specs.Reply.{IsPrintable, reply_text};

use frac128::{Frac, List};
use judgement_matrix::Shift;
use model_core::Name;
use report_text::{Detail, NoMemory, Reply, text};
use std::alloc::Global;
use std::test::Fail;

mod certificates;

// The name with this text.
fn name_of(alloc: Global, text: &str) -> Result<Name, Fail> {
    Ok(Name::check(alloc, text.as_bytes())?.ok_or("no name")?)
}

// The fraction with these parts.
fn ratio(num: i128, den: i128) -> Result<Frac, Fail> {
    if den == 0 {
        return Err(Fail::from("a denominator of 0"));
    }
    Ok(Frac::make(num, den).map_err(|_| "too wide")?)
}

// The two names with these texts.
fn pair_of(alloc: Global, first: &str, second: &str) -> Result<(Name, Name), Fail> {
    let first = name_of(alloc, first)?;
    Ok((first, name_of(alloc, second)?))
}

// What is written for a reply.
fn printed(alloc: Global, reply: Reply) -> Result<String, NoMemory>
    requires { IsPrintable reply }
    ensures { IfOk result (λ text. string_bytes text ≡ reply_text reply) }
{
    let text = text(alloc, &reply);
    drop(reply);
    text
}

#[test]
fn consistent(rt: HostRuntime) -> Result<(), Fail> {
    assert_eq!(rt;
        printed(rt.alloc(), Reply::Consistent)?.as_str(),
        "consistent\n"
    );
    Ok(())
}

// What is written for the refusal of this number.
fn refused(alloc: Global, number: u8, detail: Detail) -> Result<String, NoMemory>
    requires { IsRefusal number }
    ensures { IfOk result (λ text. string_bytes text ≡ reply_text (Reply.Refused number detail)) }
{
    printed(alloc, Reply::Refused { number, detail })
}

#[test]
fn no_detail(rt: HostRuntime) -> Result<(), Fail> {
    assert_eq!(rt;
        refused(rt.alloc(), 33, Detail::None)?.as_str(),
        "refused 33 joins are closed\n"
    );
    Ok(())
}

#[test]
fn too_small_a_reach(rt: HostRuntime) -> Result<(), Fail> {
    let detail = Detail::Reach(name_of(rt.alloc(), "c")?, ratio(500, 3)?, 100);
    assert_eq!(rt;
        refused(rt.alloc(), 24, detail)?.as_str(),
        "refused 24 reach too small: \"c\" 500/3 100\n"
    );
    Ok(())
}

#[test]
fn a_shift_too_wide(rt: HostRuntime) -> Result<(), Fail> {
    let by = List::make(Vec::from_array(rt.alloc(), [-1, 0, 2])?);
    assert_eq!(rt;
        refused(rt.alloc(), 27, Detail::Shifted(Shift { by }))?.as_str(),
        "refused 27 too wide: shift -1 0 2\n"
    );
    Ok(())
}

#[test]
fn dominances(rt: HostRuntime) -> Result<(), Fail> {
    let alloc = rt.alloc();
    let pairs = [pair_of(alloc, "a", "b")?, pair_of(alloc, "c", "b")?];
    let pairs = List::make(Vec::from_array(alloc, pairs)?);
    assert_eq!(rt;
        printed(alloc, Reply::Dominances { pairs })?.as_str(),
        "dominances 2\n\"a\" \"b\"\n\"c\" \"b\"\n"
    );
    Ok(())
}

// A shift of the pairs of three elements.
fn shift(alloc: Global, by: [i8; 3]) -> Result<Shift, Fail>
    ensures { IfOk result (IsShiftOf 3) }
{
    Ok(Shift {
        by: List::make(Vec::from_array(alloc, by)?),
    })
}

// The names of three elements.
fn three_names(alloc: Global) -> Result<List<Name>, Fail>
    ensures { IfOk result (λ names. length names ≡ 3) }
{
    let names = [
        name_of(alloc, "A")?,
        name_of(alloc, "B")?,
        name_of(alloc, "C")?,
    ];
    Ok(List::make(Vec::from_array(alloc, names)?))
}

// What is written for these two repairs of three elements.
fn repaired(alloc: Global, total: u8, first: [i8; 3], second: [i8; 3]) -> Result<String, Fail> {
    let first = shift(alloc, first)?;
    let second = shift(alloc, second)?;
    let shifts = List::make(vec![in alloc; first, second]?);
    let names = three_names(alloc)?;
    Ok(printed(
        alloc,
        Reply::Repairs {
            names,
            total,
            shifts,
        },
    )?)
}

#[test]
fn repairs(rt: HostRuntime) -> Result<(), Fail> {
    assert_eq!(rt;
        repaired(rt.alloc(), 1, [-1, 0, 0], [0, 1, 0])?.as_str(),
        "repairs total 1 count 2\nshift \"A\" \"B\" -1\nshift \"A\" \"C\" 1\n"
    );
    assert_eq!(rt;
        repaired(rt.alloc(), 3, [-2, 1, 0], [0, 0, 3])?.as_str(),
        "repairs total 3 count 2\nshift \"A\" \"B\" -2 \"A\" \"C\" 1\nshift \"B\" \"C\" 3\n"
    );
    Ok(())
}

/// Open scales and weights by which one option scores less than the other.
const NOT: &str = r#"not -25/4
scale "c1" 100 45 0
scale "c2" 100 20 0
weight "c1" 59/108
weight "c2" 49/108
"#;

// A name with its value.
fn amount_of(alloc: Global, text: &str, num: i128, den: i128) -> Result<(Name, Frac), Fail> {
    let value = ratio(num, den)?;
    Ok((name_of(alloc, text)?, value))
}

// Names with their values.
fn amounts_of(alloc: Global, all: &[(&str, i128, i128)]) -> Result<List<(Name, Frac)>, Fail> {
    let mut amounts = Vec::new(alloc);
    for (text, num, den) in all {
        amounts.push(amount_of(alloc, text, *num, *den)?)?;
    }
    Ok(List::make(amounts))
}

// A name with the values of a scale.
fn scale_of(alloc: Global, text: &str, values: [Frac; 3]) -> Result<(Name, List<Frac>), Fail> {
    let values = List::make(Vec::from_array(alloc, values)?);
    Ok((name_of(alloc, text)?, values))
}

// Names with the three values of a scale.
fn scales_of(alloc: Global, all: &[(&str, [Frac; 3])]) -> Result<List<(Name, List<Frac>)>, Fail> {
    let mut scales = Vec::new(alloc);
    for (text, values) in all {
        scales.push(scale_of(alloc, text, *values)?)?;
    }
    Ok(List::make(scales))
}

#[test]
fn not(rt: HostRuntime) -> Result<(), Fail> {
    let gap = ratio(-25, 4)?;
    let scales = scales_of(
        rt.alloc(),
        &[
            ("c1", [Frac::whole(100), Frac::whole(45), Frac::whole(0)]),
            ("c2", [Frac::whole(100), Frac::whole(20), Frac::whole(0)]),
        ],
    )?;
    let weights = amounts_of(rt.alloc(), &[("c1", 59, 108), ("c2", 49, 108)])?;
    let reply = Reply::Not {
        gap,
        scales,
        weights,
    };
    assert_eq!(rt; printed(rt.alloc(), reply)?.as_str(), NOT);
    Ok(())
}
