// What a lookup answers.

// A contour's part in its shape: a hull with its shape's number, a hole with its parent's, or a hole that was dropped.
#[derive(Clone, Copy)]
pub enum Role {
    Hull(u16),
    Hole(u16),
    Dropped,
}

#[derive(Clone, Copy)]
pub struct ContourRecord {
    pub first: u32,
    pub len: u32,
    pub role: Role,
}
