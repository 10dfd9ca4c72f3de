ghost use Rattle.std.specs.Prelude.{◌≡◌, length};
ghost use Rattle.layout_gen.specs.Generated.{generated_map};

/// The text of the layer map that goes with each generated layout: two metals, a cut between them, two radii, and two
/// terminals on the lower wire of the cell at the origin.
pub const LAYER_MAP: &str = "\
version = 1
radii = [2, 5]
weights = [10, 1]
[[metal]]
name = \"m1\"
pairs = [[1, 0]]
[[metal]]
name = \"m2\"
pairs = [[3, 0]]
[[cut]]
name = \"v1\"
pairs = [[2, 0]]
lower = \"m1\"
upper = \"m2\"
[[terminal]]
metal = \"m1\"
x = 0
y = 0
[[terminal]]
metal = \"m1\"
x = 11
y = 3
";

/// The text of the layer map that goes with each generated layout.
pub fn layer_map() -> &'static str
    ensures text { result.now ≡ generated_map }
    ensures size { length result.now ≡ 263 }
{
    LAYER_MAP
}
