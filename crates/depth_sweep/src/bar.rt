ghost use Rattle.std.specs.Prelude.{◌<◌, ◌<ℤ◌};

/// The part of a rectangle that lies in the window, of which there is some: its columns, by their numbers, and its rows,
/// each from the first to before the other.
#[derive(Clone, Copy)]
pub struct Bar {
    pub low: usize,
    pub high: usize,
    pub bottom: i32,
    pub top: i32,
    pub ghost across: { low < high },
    pub ghost up: { bottom <ℤ top },
}

/// The row in which a bar begins, or the row past its last one.
#[derive(Clone, Copy)]
pub struct Event {
    pub row: i32,
    pub begins: bool,
    /// The bar's columns, by their numbers, from the one to before the other.
    pub low: usize,
    pub high: usize,
    pub ghost some: { low < high },
}
