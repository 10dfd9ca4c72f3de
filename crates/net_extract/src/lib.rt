//! Islands and nets: what hangs together on each metal, and through all metals and the cuts between them.
//!
//! `extract` makes them from the rectangles that cover each layer. No step, and nothing of the proof, goes cell by
//! cell:
//!
//! 1. **Islands** (`metals`). `islands::label` numbers the islands of each metal, those of all metals together. Where
//!    the rectangles of a metal have more than twice the cells of the least rectangle round them, `merge_rects` is
//!    tried before that; it is tried on the rectangles of each island afterwards.
//! 2. **Contacts** (`contacts`). What rectangles of a cut and of its lower metal have in common are *parts*, which keep
//!    their island and are merged likewise. What parts and rectangles of the upper metal have in common are the contact
//!    pieces, each with an island of either metal, and none twice. `touch_sweep::meetings` finds both, so no piece of
//!    the one metal is compared with each of the other.
//! 3. **Nets** (`numbers`). `classes` walks over the pairs of islands that contact pieces carry. A piece has the net of
//!    its island.
//! 4. **Groups** (`contact_groups`). The contact pieces of a cut, sorted by the two islands that they carry. In nets
//!    that `extract` makes these groups are the via clusters (`groups_are_clusters`). They are made once, and serve the
//!    boxes of clusters and the terminals of both metals.
//! 5. **Anchors** (`anchors`). A terminal is a rectangle of one cell, and `meetings` tells its island; where there is
//!    none the answer is 50. This comes before contacts are sought.
//! 6. **Terminals** (`metal_terminals`). The anchors of a metal and, where clusters are terminals, the groups of its cuts, sorted
//!    by their islands. `Nets::islands` gives an island a spot for each (`spots`).
//!
//! Two metals and a cut, in which a letter is a piece and a dot is nothing:
//!
//! ```text
//!    metal m1           cut v1             metal m2
//!
//!  5 a a a a a a      5 . . . . . .      5 . . c c . .
//!  4 . . . . . .      4 . . . . . .      4 . . c c . .
//!  3 . . . . . .      3 . . . . . .      3 . . c c . .
//!  2 . . . . . .      2 . . . . x .      2 . . c c . .
//!  1 b b b b b b      1 . . x . . .      1 . . c c . .
//!  0 b b b b b b      0 . . . . . .      0 . . c c . .
//! ```
//!
//! `a` and `b` are two islands of `m1`, and `c` is one of `m2`, over both. The lower `x` lies on `b` and under `c`: its
//! cell is a contact piece, and these two are one net. The upper `x` meets no metal and joins nothing, so `a` stays a
//! net by itself.
//!
//! The proof goes by parts, too. Things are joined within a union of whole parts exactly where parts that have them are
//! chained, each with a thing in common with the next or with a step that leads across. A rectangle is whole; so is an
//! island, a chain of rectangles; and a net is a chain of islands. `NetWalk`, the definition, speaks of half squares
//! alone and knows none of this.
#![tactic(auto)]

mod anchors;
mod contact_groups;
mod contacts;
mod fault;
mod grouped;
mod island_terminals;
pub mod laws;
mod meetings;
mod merging;
pub mod metal_terminals;
mod metals;
mod nets;
mod numbers;
mod pieces;
mod spots;

ghost use Rattle.std.specs.Prelude.{◌≡◌, ◌+◌, IfOk, length, map};
ghost use Rattle.std.specs.List.{AllZip};
ghost use Rattle.map_model.specs.MapView.{layer_map_of};
ghost use Rattle.first_refusal.specs.Answers.{Answers};
ghost use Rattle.net_extract.specs.Extraction.{AreNetsOf, ComeToNets};
ghost use Rattle.net_extract.specs.inside.Anchoring.{IsAnchorOf};
ghost use Rattle.net_extract.specs.inside.Numbering.{AreIslandsOf};

use anchors::anchors_of;
use contact_groups::group_lists;
use contacts::contact_lists;
pub use fault::NetFault;
pub use fault_model::Island;
use geo_core::RectList;
use lists::{Items, NoMemory};
pub use map_model::Layers;
use map_model::{Cut, Map};
use metals::{MetalIslands, metal_islands};
pub use nets::Nets;
use numbers::{net_numbers, piece_lists};
pub use pieces::{Anchor, ContactGroup, ContactList, ContactPiece, GroupList, Piece, PieceList};
use std::alloc::Global;

/// The nets of what the rectangles cover, of which there is one list for each metal of the map, and then one for each cut.
///
/// Half squares of a metal are of one island where a walk over edges joins them within the metal. A net goes on from one
/// metal to another at each half square that a cut and both of its metals have. The contact pieces of a cut have exactly
/// these half squares, and no two of them are the same; the pieces of a metal have exactly its cells; neither come in a
/// promised order. The anchors are the map's terminals in order, and clusters are terminals where the map says so. The
/// error is 50 with the number of the first terminal whose cell its metal does not cover, or that no memory is left.
#[tactic(auto, using(first_refusal::proofs::AnswerLaws::out_of_memory))]
pub fn extract(alloc: Global, layers: &Layers, map: &Map) -> Result<Nets, NetFault>
    requires { length layers.now.lists.items ≡ length map.now.metals + length map.now.cuts }
    ensures nets { Answers NetFault.Memory (ComeToNets (layer_map_of map.now) layers.now.lists.items) result }
    ensures metals { IfOk result (λ nets. length nets.pieces ≡ length map.now.metals) }
    ensures cuts { IfOk result (λ nets. length nets.contacts ≡ length map.now.cuts) }
{
    let lists = layers.lists.as_slice();
    let metals = metal_islands(alloc, lists, map.metals.as_slice().len())?;
    let anchors = anchors_of(alloc, map.terminals.as_slice(), metals.islands.as_slice())?;
    Ok(nets_of(alloc, lists, map, &metals, anchors)?)
}

/// The nets to which the cuts join the islands of the metals, with anchors on these islands.
fn nets_of(
    alloc: Global,
    lists: &[RectList],
    map: &Map,
    metals: &MetalIslands,
    anchors: Items<Anchor>,
) -> Result<Nets, NoMemory>
    requires one_each { length lists.now ≡ length map.now.metals + length map.now.cuts }
    requires islands { AreIslandsOf lists.now (length map.now.metals) metals.now.count metals.now.islands }
    requires anchors { AllZip (IsAnchorOf metals.now.islands) map.now.terminals anchors }
    ensures { IfOk result (AreNetsOf (layer_map_of map.now) lists.now) }
{
    let islands = metals.islands.as_slice();
    let cuts = map.cuts.as_slice();
    let contacts = contact_lists(alloc, cuts, lists, islands)?;
    let nets = net_numbers(alloc, metals.count, contacts.as_slice())?;
    let pieces = piece_lists(alloc, islands, &nets)?;
    let groups = group_lists(alloc, contacts.as_slice())?;
    let ends = ends_of(alloc, cuts)?;
    Ok(Nets::new(pieces, contacts, groups, ends, anchors, map.contacts))
}

/// The lower and the upper metal of each cut.
fn ends_of(alloc: Global, cuts: &[Cut]) -> Result<Items<(u32, u32)>, NoMemory>
    ensures { IfOk result (λ ends. ends ≡ map (λ cut. (cut.lower, cut.upper)) cuts.now) }
{
    let mut ends = Vec::new(alloc);
    for cut in cuts {
        ends.push((cut.lower, cut.upper))?;
    }
    Ok(Items::from_vec(ends))
}
