use super::cutting::cut_into;
use super::island_boxes::{numbers_below, with_rects, with_spots};
use super::joining::{join, moved_to};
use super::keeping::{kept_at, places_of};
use super::marking::{are_unmarked, have_one_leader};
use super::marks::Marks;
use super::numbers::Numbers;
use super::parts::{Fixed, Loose};
use super::releasing::released;
use super::thinning::{needless_terminals, terminals_without};
use super::unjoined::Unjoined;
use fault_model::Island;
use half_boxes::HalfBox;
use lists::NoMemory;
use std::alloc::Global;
use std::marker::Model;

/// What is left of an island round some defects: boxes that stay whatever is removed, boxes of which something may be
/// removed, and where the terminals are. Leaders are numbers of fixed boxes that lead themselves, and fixed boxes that touch
/// have one leader.
#[derive(Drop)]
pub struct Remnant {
    fixed: Vec<Fixed>,
    loose: Vec<Loose>,
    marks: Marks,
    terminals: Vec<usize>,
}

impl Model for Remnant {
    ghost use Rattle.remnants.specs.Remnants.{RemnantLists, IsJoined};

    ghost Value = { RemnantLists };

    ghost view = { λ remnant. record {
      fixed = remnant.fixed.items;
      loose = remnant.loose.items;
      marks = remnant.marks;
      terminals = remnant.terminals.items;
    } };

    ghost invariant = { λ remnant. IsJoined (record {
      fixed = remnant.fixed.items;
      loose = remnant.loose.items;
      marks = remnant.marks;
      terminals = remnant.terminals.items;
    }) };
}

impl Remnant {
    ghost use Rattle.std.specs.Prelude.{◌≡◌, ◌↔◌, Option, IfOk, IfSome, IsSome, IsTrue};
    ghost use Rattle.geo_core.specs.declared.plane.Half.{Half};
    ghost use Rattle.half_boxes.specs.HalfBoxes.{HasHalf, HasHalfIn, LiesWithin};
    ghost use Rattle.half_boxes.specs.declared.boxes.HalfBox.{HalfBox as AnyBox};
    ghost use Rattle.remnants.specs.Remnants.{IsJoined, IsLooseWithin, IsSplit};
    ghost use Rattle.severing.specs.Severing.{IsSevered};

    /// The remnant of these parts.
    pub(crate) fn new(
        fixed: Vec<Fixed>,
        loose: Vec<Loose>,
        marks: Marks,
        terminals: Vec<usize>,
    ) -> Remnant
        requires { IsJoined (record { fixed = fixed.items; loose = loose.items; marks = marks; terminals = terminals.items }) }
        ensures { result ≡ record { fixed = fixed.items; loose = loose.items; marks = marks; terminals = terminals.items } }
    {
        Remnant {
            fixed,
            loose,
            marks,
            terminals,
        }
    }

    /// All of the island, loose, with the spots of its anchors as terminals, by their numbers. The only error is that no memory
    /// is left.
    pub fn whole(alloc: Global, island: &Island) -> Result<Remnant, NoMemory>
        ensures { IfOk result (λ remnant. (removed : AnyBox) →
            IsSplit remnant removed ↔ IsSevered island.now (HasHalf removed)) }
    {
        let anchors = island.anchors.as_slice();
        let none = Vec::new(alloc);
        let pieces = with_rects(none, island.pieces.as_slice(), None)?;
        let loose = with_spots(pieces, anchors)?;
        let terminals = numbers_below(alloc, anchors.len())?;
        let fixed = Vec::new(alloc);
        let marks = Marks::none(alloc);
        Ok(Remnant::new(fixed, loose, marks, terminals))
    }

    /// The remnant within `outer`, for the removal of boxes that lie in it and have all of `inner`, if there is that: whichever
    /// of them is removed, two terminals of the new remnant are parted exactly where two of this one are. There is none where
    /// the removal of `outer` parts no two, and so no such box does. The only error is that no memory is left.
    pub fn narrow(
        &self,
        alloc: Global,
        inner: Option<HalfBox>,
        outer: HalfBox,
    ) -> Result<Option<Remnant>, NoMemory>
        ensures split { IfOk result (λ narrowed. ((h : Half) → HasHalfIn inner h → HasHalf outer h) →
            IsSome narrowed ↔ IsSplit self.now outer) }
        ensures same { IfOk result (λ narrowed. IfSome narrowed (λ left. (removed : AnyBox) →
            ((h : Half) → HasHalfIn inner h → HasHalf removed h) → LiesWithin removed outer →
            IsSplit left removed ↔ IsSplit self.now removed)) }
        ensures within { IfOk result (λ narrowed. IfSome narrowed (λ left. IsLooseWithin left outer)) }
    {
        let cut = self.cut(alloc, inner, outer)?;
        // Most zones end here.
        if cut.is_seen_whole() {
            return Ok(None);
        }
        let thinned = cut.thin(alloc)?;
        if !thinned.is_split() {
            return Ok(None);
        }
        let kept = thinned.keep(alloc, outer)?;
        Ok(Some(kept))
    }

    /// Whether the removal of the box parts two terminals. The only error is that no memory is left.
    pub fn is_split_by(&self, alloc: Global, removed: HalfBox) -> Result<bool, NoMemory>
        ensures { IfOk result (λ answer. IsTrue answer ↔ IsSplit self.now removed) }
    {
        let cut = self.cut(alloc, Some(removed), removed)?;
        Ok(cut.is_split())
    }

    /// What `narrow` gives, but for what it leaves out as needless.
    fn cut(
        &self,
        alloc: Global,
        inner: Option<HalfBox>,
        outer: HalfBox,
    ) -> Result<Remnant, NoMemory>
        ensures same { IfOk result (λ narrowed. (removed : AnyBox) →
            ((h : Half) → HasHalfIn inner h → HasHalf removed h) → LiesWithin removed outer →
            IsSplit narrowed removed ↔ IsSplit self.now removed) }
        ensures within { IfOk result (λ narrowed. IsLooseWithin narrowed outer) }
    {
        let mut cut = Unjoined::without_loose(
            alloc,
            &self.fixed,
            self.marks.as_slice(),
            &self.terminals,
            self.loose.len(),
        )?;
        for loose in &self.loose {
            cut = cut_into(cut, *loose, inner, outer)?;
        }
        join(alloc, cut)
    }

    /// Without some of the terminals that others stand for.
    fn thin(self, alloc: Global) -> Result<Remnant, NoMemory>
        ensures same { IfOk result (λ thinned. (removed : AnyBox) → IsSplit thinned removed ↔ IsSplit self removed) }
        ensures within { IfOk result (λ thinned. (outer : AnyBox) → IsLooseWithin self outer → IsLooseWithin thinned outer) }
    {
        let gone = needless_terminals(alloc, &self.loose, &self.marks, &self.terminals)?;
        if gone.is_empty() {
            return Ok(self);
        }
        let gone = Numbers::of(gone);
        let Remnant {
            fixed,
            loose,
            marks,
            terminals,
        } = self;
        let marks = marks.without(alloc, &gone)?;
        let terminals = terminals_without(alloc, &terminals, &gone)?;
        let fewer = Remnant::new(fixed, loose, marks, terminals);
        fewer.release(alloc)
    }

    /// With the loose boxes of terminals that are not listed as boxes of none, of which some go.
    fn release(self, alloc: Global) -> Result<Remnant, NoMemory>
        ensures same { IfOk result (λ released. (removed : AnyBox) → IsSplit released removed ↔ IsSplit self removed) }
        ensures within { IfOk result (λ released. (outer : AnyBox) → IsLooseWithin self outer → IsLooseWithin released outer) }
    {
        let Remnant {
            fixed,
            loose,
            marks,
            terminals,
        } = self;
        let listed = Numbers::of(Vec::from_slice(alloc, &terminals)?);
        let loose = released(alloc, &loose, &listed)?;
        Ok(Remnant::new(fixed, loose, marks, terminals))
    }

    /// Without the fixed boxes that neither touch `outer`, in which all that is loose lies, nor lead others.
    fn keep(self, alloc: Global, outer: HalfBox) -> Result<Remnant, NoMemory>
        requires { IsLooseWithin self outer }
        ensures same { IfOk result (λ kept. (removed : AnyBox) → IsSplit kept removed ↔ IsSplit self removed) }
        ensures loose { IfOk result (λ kept. kept.loose ≡ self.loose) }
    {
        let found = places_of(alloc, &self.fixed, outer)?;
        if found.places.len() == self.fixed.len() {
            return Ok(self);
        }
        let Remnant {
            fixed,
            loose,
            marks,
            terminals,
        } = self;
        let kept = kept_at(alloc, &fixed, &found.places, &found.numbers)?;
        let moved = moved_to(alloc, marks.as_slice(), &found.numbers)?;
        Ok(Remnant::new(kept, loose, moved, terminals))
    }

    /// Whether two terminals are parted where all that is loose is removed.
    fn is_split(&self) -> bool
        ensures { (removed : AnyBox) → IsLooseWithin self.now removed → IsTrue result ↔ IsSplit self.now removed }
    {
        are_unmarked(&self.terminals, &self.marks)
    }

    /// Whether it is seen at once that no two terminals are.
    fn is_seen_whole(&self) -> bool
        ensures { IsTrue result → (removed : AnyBox) → IsLooseWithin self.now removed → IsSplit self.now removed → ⊥ }
    {
        have_one_leader(&self.terminals, &self.marks)
    }
}
