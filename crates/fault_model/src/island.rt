ghost use Rattle.std.specs.Prelude.{[], ◌≢◌};

use geo_core::RectList;
use lists::Items;
use std::marker::Model;

/// What a terminal has on its island: the cells of at least one rectangle, such as the one cell that a map names, or all
/// contacts of a via cluster.
#[derive(Drop)]
pub struct Spot {
    pub rects: RectList,
    pub ghost some: { rects ≢ [] },
}

/// Spots, by number.
pub type Spots = Items<Spot>;

/// An island of a metal: its rectangles, which are connected, and the spots of its anchors, which lie on it. Two spots may
/// have the same cells.
#[derive(Drop)]
pub struct Island {
    pub pieces: RectList,
    pub anchors: Spots,
}

impl Model for Island {
    ghost use Rattle.fault_model.specs.IslandLists.{IslandLists, IsAnchoredIsland};

    ghost Value = { IslandLists };

    ghost view = { λ island. record { pieces = island.pieces; anchors = island.anchors } };

    ghost invariant = { λ island.
        IsAnchoredIsland (record { pieces = island.pieces; anchors = island.anchors }) };
}
