ghost use Rattle.std.specs.Prelude.{◌≡◌, ◌<◌, All, IfOk, length};

use super::grouped::{by_island, part_of, terminals_at, terminals_by_island};
use super::island_terminals::{islands_carried, rects_on};
use super::metal_terminals::terminals_on;
use super::pieces::{Anchor, ContactGroup, ContactList, ContactPiece, GroupList, Piece, PieceList};
use super::spots::spots_of;
use fault_model::{Island, Spots};
use geo_core::RectList;
use lists::{Items, NoMemory};
use std::alloc::Global;
use std::marker::Model;

/// The nets of a layout, which `extract` makes.
///
/// They are the pieces of each metal, the contact pieces of each cut, the anchors, and whether via clusters are terminals. The
/// pieces that carry one island are connected; each contact piece lies on the two islands that it carries, of its cut's lower
/// and upper metal, and no two of a cut are the same; each anchor lies on a piece of its island; and no two anchors of one
/// metal are the same cell. The number of an island tells it from other islands of its metal, and the number of a net tells
/// it from all other nets. The groups of contact pieces are kept beside them.
#[derive(Drop)]
pub struct Nets {
    pieces: Items<PieceList>,
    contacts: Items<ContactList>,
    groups: Items<GroupList>,
    ends: Items<(u32, u32)>,
    anchors: Items<Anchor>,
    clusters_are_terminals: bool,
}

impl Model for Nets {
    ghost use Rattle.net_extract.specs.NetLists.{NetLists};
    ghost use Rattle.net_extract.specs.inside.Numbering.{AreGroupedNets};

    ghost Value = { NetLists };

    ghost view = { λ nets. record {
      pieces = nets.pieces;
      contacts = nets.contacts;
      ends = nets.ends;
      anchors = nets.anchors;
      clusters_are_terminals = nets.clusters_are_terminals;
    } };

    ghost invariant = { λ nets. AreGroupedNets (record {
      pieces = nets.pieces;
      contacts = nets.contacts;
      ends = nets.ends;
      anchors = nets.anchors;
      clusters_are_terminals = nets.clusters_are_terminals;
    }) nets.groups };
}

impl Nets {
    ghost use Rattle.net_extract.specs.AnchoredIslands.{AreAnchoredIslands};
    ghost use Rattle.net_extract.specs.ContactGroups.{AreGroupsOf};
    ghost use Rattle.fault_model.specs.IslandLists.{IsAnchoredIsland};
    ghost use Rattle.net_extract.specs.NetFacts.{AreNets};
    ghost use Rattle.net_extract.specs.NetLists.{pieces_on, contacts_of};
    ghost use Rattle.net_extract.specs.inside.Numbering.{AreGroupedNets};

    /// The nets of these parts, of which the groups are those of the contact pieces.
    pub(crate) fn new(
        pieces: Items<PieceList>,
        contacts: Items<ContactList>,
        groups: Items<GroupList>,
        ends: Items<(u32, u32)>,
        anchors: Items<Anchor>,
        clusters_are_terminals: bool,
    ) -> Nets
        requires { AreGroupedNets (record {
          pieces = pieces;
          contacts = contacts;
          ends = ends;
          anchors = anchors;
          clusters_are_terminals = clusters_are_terminals;
        }) groups }
        ensures { result ≡ record {
          pieces = pieces;
          contacts = contacts;
          ends = ends;
          anchors = anchors;
          clusters_are_terminals = clusters_are_terminals;
        } }
    {
        Nets {
            pieces,
            contacts,
            groups,
            ends,
            anchors,
            clusters_are_terminals,
        }
    }

    /// The pieces of the metal with this number.
    pub fn pieces(&self, metal: u32) -> &[Piece]
        requires { metal < length self.now.pieces }
        ensures pieces { result.now ≡ pieces_on self.now metal }
        ensures sound { AreNets self.now }
    {
        self.pieces.as_slice()[metal as usize].as_slice()
    }

    /// The contact pieces of the cut with this number, counted from 0 among the cuts.
    pub fn contacts(&self, cut: u32) -> &[ContactPiece]
        requires { cut < length self.now.contacts }
        ensures contacts { result.now ≡ contacts_of self.now cut }
        ensures sound { AreNets self.now }
    {
        self.contacts.as_slice()[cut as usize].as_slice()
    }

    /// The groups of the contact pieces of the cut with this number, counted from 0 among the cuts: one for each two
    /// islands that a contact piece carries, with all that carry these two. They come in no promised order.
    pub fn contact_groups(&self, cut: u32) -> &[ContactGroup]
        requires { cut < length self.now.contacts }
        ensures { AreGroupsOf (contacts_of self.now cut) result.now }
    {
        self.groups.as_slice()[cut as usize].as_slice()
    }

    /// The anchors: the terminals of the map in order.
    pub fn anchors(&self) -> &[Anchor]
        ensures anchors { result.now ≡ self.now.anchors }
        ensures sound { AreNets self.now }
    {
        self.anchors.as_slice()
    }

    /// The islands of the metal with this number on which two terminals or more stand, each with its rectangles and with a
    /// spot for each of its terminals: first the map's terminals in their order, each as a spot of one cell, and then, where
    /// via clusters are terminals, the contacts of each cluster on it whose cut has this metal, in the order of the cuts. The
    /// clusters of one cut and the islands come in no promised order. The only error is that no memory is left.
    pub fn islands(&self, alloc: Global, metal: u32) -> Result<Vec<Island>, NoMemory>
        requires { metal < length self.now.pieces }
        ensures islands { IfOk result (λ islands. AreAnchoredIslands self.now metal islands.items) }
        ensures connected { IfOk result (λ islands. All IsAnchoredIsland islands.items) }
    {
        let anchors = self.anchors.as_slice();
        let groups = self.groups.as_slice();
        let ends = self.ends.as_slice();
        let with_clusters = self.clusters_are_terminals;
        let listed = terminals_on(alloc, anchors, ends, groups, with_clusters, metal)?;
        let terminals = terminals_by_island(listed)?;
        let numbers = islands_carried(alloc, &terminals)?;
        let sorted = by_island(alloc, self.pieces(metal))?;
        let mut islands = Vec::new(alloc);
        for number in &numbers {
            let here = terminals_at(&terminals, *number);
            if here.len() >= 2 {
                let pieces = rects_on(alloc, part_of(&sorted, *number), *number)?;
                let anchors = spots_of(alloc, here, groups)?;
                islands.push(Island {
                    pieces: RectList::from_vec(pieces),
                    anchors: Spots::from_vec(anchors),
                })?;
            }
        }
        Ok(islands)
    }
}
