//! What the laws speak of in general. A law over one of these bounds holds for whatever its member stands for.

ghost use Rattle.std.specs.Prelude.{ℕ};
ghost use Rattle.geo_core.specs.declared.plane.Cell.{Cell};
ghost use Rattle.geo_core.specs.declared.plane.Half.{Half};

/// Any property of cells, such as that the cell is covered, or that a defect there makes a short.
pub trait Property {
    ghost holds: { Cell → Type 0 };
}

/// Any set of half squares.
pub trait HalfSet {
    ghost has: { Half → Type 0 };
}

/// Any layout: the cells that each of its metals and cuts covers, by its number.
pub trait Layout {
    ghost covers: { ℕ → Cell → Type 0 };
}
