/// A record of a stream: a head of four bytes, which are the length of the whole in two bytes, the kind and the form,
/// and then a body.
#[derive(Clone, Copy, PartialEq, Eq)]
pub struct Record<'a> {
    /// The offset of its first byte.
    pub at: u32,
    /// What it is. The known numbers have names in `kinds`.
    pub kind: u8,
    /// What its body holds. The known numbers have names in `forms`.
    pub form: u8,
    /// The bytes after the head.
    pub body: &'a [u8],
}
