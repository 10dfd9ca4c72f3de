ghost use Rattle.std.specs.Prelude.{ℕ, Option, None, Some, ◌≡◌};
ghost use Rattle.geo_core.specs.declared.plane.Rect.{Rect as Rectangle};

use geo_core::{Labelled, Rect};

/// What has a rectangle of cells, such as a piece with a label, or the rectangle alone.
pub trait Rectangular: Copy {
    ghost rect_of: { Self → Rectangle };

    ghost label_of: { Self → Option ℕ };

    /// Its rectangle.
    fn rect(&self) -> Rect
        ensures { result ≡ rect_of self.now };

    /// Its label, if it has one.
    fn label(&self) -> Option<usize>
        ensures { result ≡ label_of self.now };
}

impl Rectangular for Rect {
    ghost rect_of = { λ rect. rect };

    ghost label_of = { λ rect. None };

    fn rect(&self) -> Rect {
        *self
    }

    fn label(&self) -> Option<usize> {
        None
    }
}

impl Rectangular for Labelled {
    ghost rect_of = { λ piece. piece.rect };

    ghost label_of = { λ piece. Some piece.label };

    fn rect(&self) -> Rect {
        self.rect
    }

    fn label(&self) -> Option<usize> {
        Some(self.label)
    }
}
