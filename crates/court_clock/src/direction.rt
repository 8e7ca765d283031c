/// Whether a period comes after its event or before it (Fed. R. Civ. P. 6(a)(5)).
#[derive(Clone, Copy, Debug, PartialEq, Eq)]
pub enum Direction {
    /// The period is measured after its event, and its last day rolls forward.
    After,
    /// The period is measured before its event, and its last day rolls backward.
    Before,
}
