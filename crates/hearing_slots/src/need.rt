//! How long before its hearing a motion must be served.

/// What notice a motion needs (Fed. R. Civ. P. 6(c)(1)).
#[derive(Clone, Copy, Debug, PartialEq, Eq)]
pub enum Need {
    /// The motion may be heard ex parte, so it needs no notice.
    ExParte,
    /// The motion and the notice of its hearing are served at least this many days before the hearing.
    Days(u32),
}
