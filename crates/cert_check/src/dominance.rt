//! Rows of closed problems, as the certificates of dominance name them, and their text.

ghost use Rattle.std.specs.Prelude.{◌≡◌, ◌++◌, OnOk, string_bytes};
ghost use Rattle.cert_check.specs.Dominance.{open_tag_words, positions_words};

use frac128::NoMemory;
use std::alloc::Global;

/// A row of the closed problem of a criterion or of the weighting. Positions of elements count from 1.
#[derive(Clone, Copy, Debug, PartialEq, Eq)]
pub enum OpenTag {
    /// The two elements are equally attractive.
    Zero(u8, u8),
    /// The first pair was judged above the second one.
    Cross(u8, u8, u8, u8),
    /// Good stands at least 100 above neutral.
    AnchorUp,
    /// Good stands at most 100 above neutral.
    AnchorDown,
    /// The span and the room make at least the reach.
    ReachUp,
    /// The span and the room make at most the reach.
    ReachDown,
    /// The weights make at least 1.
    SumUp,
    /// The weights make at most 1.
    SumDown,
}

/// Adds the words of a row of a closed problem.
pub fn push_open_tag(alloc: Global, out: &mut String, tag: OpenTag) -> Result<(), NoMemory>
    ensures { OnOk result
        (string_bytes out.new ≡ string_bytes out.old ++ open_tag_words tag) }
{
    match tag {
        OpenTag::Zero(p, q) => {
            out.push_str("zero ")?;
            push_positions(alloc, out, p, q)
        }
        OpenTag::Cross(p, q, x, y) => {
            out.push_str("cross ")?;
            push_positions(alloc, out, p, q)?;
            out.push_str(" ")?;
            push_positions(alloc, out, x, y)
        }
        OpenTag::AnchorUp => out.push_str("anchor-up"),
        OpenTag::AnchorDown => out.push_str("anchor-down"),
        OpenTag::ReachUp => out.push_str("reach-up"),
        OpenTag::ReachDown => out.push_str("reach-down"),
        OpenTag::SumUp => out.push_str("sum-up"),
        OpenTag::SumDown => out.push_str("sum-down"),
    }
}

// Adds two positions.
fn push_positions(alloc: Global, out: &mut String, p: u8, q: u8) -> Result<(), NoMemory>
    ensures { OnOk result
        (string_bytes out.new ≡ string_bytes out.old ++ positions_words p q) }
{
    let upper = p.to_string(alloc)?;
    let lower = q.to_string(alloc)?;
    out.push_str(upper.as_str())?;
    out.push_str(" ")?;
    out.push_str(lower.as_str())
}
