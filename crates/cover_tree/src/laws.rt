//! Laws of cuts: tests of the definitions, which callers may rest on.

ghost use Rattle.std.specs.Prelude.{ℕ, nat_le, ◌&&◌, ◌≡◌, ◌+◌, ◌<◌, ◌^◌, if◌then◌else◌};
ghost use Rattle.cover_tree.specs.CoverTrees.{Cover, depth_at, IsPut, IsTaken};

/// Each column of a range is under exactly one node of its cut, and no other column is: so a put adds one to the depth of
/// each column of its range, and to that of no other.
pub fn puts_add_to_depths()
    ensures { (low high column : ℕ) (old new : Cover) → IsPut low high old new → column < 2 ^ old.height →
        depth_at new column ≡ depth_at old column + (if nat_le low column && nat_le (column + 1) high then 1 else 0) }
{}

/// A take subtracts it again.
pub fn takes_subtract_from_depths()
    ensures { (low high column : ℕ) (old new : Cover) → IsTaken low high old new → column < 2 ^ old.height →
        depth_at new column + (if nat_le low column && nat_le (column + 1) high then 1 else 0) ≡ depth_at old column }
{}
