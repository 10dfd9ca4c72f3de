use library_model::{Reference, Shape};

/// What is followed of an element.
#[derive(Clone, Copy, Drop)]
pub enum Part<'a> {
    /// A shape on a mapped layer.
    End {
        /// The number of the element.
        element: u32,
        /// The number of the layer.
        layer: u32,
        shape: &'a Shape,
    },
    /// A reference.
    Copies {
        reference: &'a Reference,
        /// The number of the structure that it names.
        target: u32,
    },
}
