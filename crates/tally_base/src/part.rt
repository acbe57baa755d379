/// A part of a plan that may not suit the mode of a file.
#[derive(Clone, Copy, PartialEq, Eq)]
pub enum PartKind {
    Gate,
    Shift,
    Histogram,
    StartStop,
    Coincidence,
    Image,
    Cube,
    Fold,
}
