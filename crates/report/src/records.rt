// What a report answers.
use millimetres::Frame;

// A contour's signed area in square millimetres and its frame in millimetres.
#[derive(Clone, Copy)]
pub struct Measures {
    pub area: f64,
    pub frame: Frame,
}

// The values of a report: found 1, with its numbers; found 0, and none of them a number.
// By hand: the flag beside the values is the C interface's.
#[derive(Clone, Copy)]
pub struct ReportValues {
    pub found: u32,
    pub area: f64,
    pub left: f64,
    pub bottom: f64,
    pub right: f64,
    pub top: f64,
}
