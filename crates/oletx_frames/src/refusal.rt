//! Why bytes don't begin with a frame.

/// The first fault of bytes that don't begin with a frame, looked for from the left.
#[derive(Clone, Copy, PartialEq, Eq, Debug)]
pub enum FrameRefusal {
    /// So many bytes are too few.
    Short(usize),
    /// The byte at this place, which is 0, is no type.
    BadType(u8),
    /// The byte at this place, which is 1, is no tag of its type.
    BadTag(u8),
    /// The two bytes from this place on, which is 2, aren't the length of the body.
    BadLength(u8),
    /// The field of the body from this place on is bad.
    BadValue(u8),
}
