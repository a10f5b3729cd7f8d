//! Bytes of the structure block with others in their place: what stands behind them moves once.
ghost use Rattle.std.specs.Prelude.{◌≡◌, ◌+◌, ◌-◌, ◌≤◌, ◌<◌, ◌^◌, [], length, MatchResult, OnErr, OnOk};
ghost use Rattle.dt_patch.specs.Private.Cutting.{IsOpen, IsSpliced};
ghost use Rattle.dt_patch.specs.Private.Gaps.{AreApart, IsGap, wanted};
ghost use Rattle.dt_patch.specs.Private.Places.{put_at};
ghost use Rattle.dt_patch.specs.Private.Splicing.{IsRelaid, between, spliced};

use crate::bytes::put;
use crate::error::PatchError;
use crate::layout::{Layout, lay};

/// A part of the structure block: from one offset up to another.
#[derive(Clone, Copy)]
pub(crate) struct Span {
    pub(crate) at: usize,
    pub(crate) next: usize,
}

/// Moves the bytes from one place up to an end.
pub(crate) fn shift(blob: &mut [u8], from: usize, end: usize, to: usize)
    requires first { from ≤ end }
    requires inside { end ≤ length blob.old }
    requires room { to + (end - from) ≤ length blob.old }
    ensures { blob.new ≡ put_at blob.old to (between from end blob.old) }
{
    blob.copy_within(from..end, to);
}

/// A change of the structure block: what it changes, and where the blocks stand before.
#[derive(Clone, Copy)]
pub(crate) struct Plan {
    pub(crate) layout: Layout,
    pub(crate) span: Span,
}

/// A gap that a change fills: from `at` on, once the bytes from `next` up to `end` are moved behind it.
#[derive(Clone, Copy)]
pub(crate) struct Gap {
    pub(crate) at: usize,
    pub(crate) next: usize,
    pub(crate) end: usize,
    /// Where the blocks stand then.
    pub(crate) layout: Layout,
}

/// The gap for bytes that take the place of a plan's span, and for others behind the strings. Fails with `Short`.
pub(crate) fn gap_of(plan: &Plan, size: usize, added: usize, room: usize) -> Result<Gap, PatchError>
    requires apart { AreApart plan.now room }
    requires size { size < 2 ^ 63 + 32 }
    requires added { added ≤ 256 }
    ensures { MatchResult result (λ g. IsGap plan.now size added room g)
        (λ e. (e ≡ PatchError.Short (wanted plan.now size added)) × (room < wanted plan.now size added)) }
{
    let layout = plan.layout;
    let old = plan.span.next - plan.span.at;
    let end = layout.strings_at + layout.strings_size;
    let needed = end - old + size + added;
    if room < needed {
        return Err(PatchError::Short(needed));
    }
    Ok(Gap {
        at: layout.structure_at + plan.span.at,
        next: layout.structure_at + plan.span.next,
        end,
        layout: Layout {
            size: layout.size.max(needed),
            structure_at: layout.structure_at,
            structure_size: layout.structure_size - old + size,
            strings_at: layout.strings_at - old + size,
            strings_size: layout.strings_size + added,
        },
    })
}

/// Fills a gap with bytes: what stands behind it is moved, and the header says where the blocks stand then.
pub(crate) fn fill(blob: &mut [u8], gap: &Gap, new: &[u8])
    requires { IsOpen gap.now (length new.now) (length blob.old) }
    ensures { IsRelaid (spliced blob.old gap.now.at gap.now.next gap.now.end new.now []) blob.new gap.now.layout }
{
    shift(blob, gap.next, gap.end, gap.at + new.len());
    put(blob, gap.at, new);
    lay(blob, &gap.layout);
}

/// Puts bytes in the place of a plan's span. Fails with `Short`.
pub(crate) fn splice(blob: &mut [u8], plan: &Plan, new: &[u8]) -> Result<(), PatchError>
    requires apart { AreApart plan.now (length blob.old) }
    requires header { 40 ≤ length blob.old }
    requires few { length new.now ≤ 2 ^ 28 }
    ensures made { OnOk result (IsSpliced blob.old plan.now new.now blob.new) }
    ensures short { MatchResult result (λ _. wanted plan.now (length new.now) 0 ≤ length blob.old)
        (λ e. (e ≡ PatchError.Short (wanted plan.now (length new.now) 0))
        × (length blob.old < wanted plan.now (length new.now) 0)) }
    ensures refused { OnErr result (blob.new ≡ blob.old) }
{
    let gap = gap_of(plan, new.len(), 0, blob.len())?;
    fill(blob, &gap, new);
    Ok(())
}
