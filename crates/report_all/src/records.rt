// What the reports of a whole table answer.

// How many contours there are and of how many there is no report.
#[derive(Clone, Copy, Debug, PartialEq, Eq)]
pub struct Filled {
    pub contours: usize,
    pub missing: usize,
}
