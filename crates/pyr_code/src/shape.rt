/// What code may name: inputs that are read, outputs that are written, and locals.
#[derive(Clone, Copy, PartialEq, Eq)]
pub struct Shape {
    pub reads: u32,
    pub writes: u32,
    pub locals: u32,
}
