ghost use Rattle.std.specs.Prelude.{IfOk};
ghost use Rattle.remnants.specs.Remnants.{IsLooseWithin};
ghost use Rattle.remnants.specs.inside.Parting.{IsCutInto, IsKeptPart};

use super::parts::Loose;
use super::unjoined::Unjoined;
use half_boxes::HalfBox;
use lists::NoMemory;

/// With the parts of the loose box: those outside `outer` become fixed boxes, and what it has in `outer` stays loose, unless
/// `inner` has all of that.
pub fn cut_into(
    unjoined: Unjoined,
    loose: Loose,
    inner: Option<HalfBox>,
    outer: HalfBox,
) -> Result<Unjoined, NoMemory>
    ensures cut { IfOk result (λ cut. IsCutInto inner outer loose unjoined cut) }
    ensures within { IfOk result (λ cut. IsLooseWithin unjoined outer → IsLooseWithin cut outer) }
{
    let parts = loose.part.outside(outer);
    let below = unjoined.settle(parts.below, loose.terminal)?;
    let above = below.settle(parts.above, loose.terminal)?;
    let left = above.settle(parts.left, loose.terminal)?;
    let right = left.settle(parts.right, loose.terminal)?;
    right.hold(kept_part(loose.part, inner, outer), loose.terminal)
}

/// The part of a box that stays loose.
fn kept_part(part: HalfBox, inner: Option<HalfBox>, outer: HalfBox) -> Option<HalfBox>
    ensures { IsKeptPart inner outer part result }
{
    let common = part.clip(outer)?;
    if let Some(inner) = inner {
        if common.is_within(inner) {
            return None;
        }
    }
    Some(common)
}
