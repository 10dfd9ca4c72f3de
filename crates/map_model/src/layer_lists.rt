use geo_core::RectList;

/// For each layer of a map the rectangles that cover its cells: a list for each metal, and then one for each cut.
#[derive(Drop)]
pub struct Layers {
    pub lists: Vec<RectList>,
}
