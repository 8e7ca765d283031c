//! What fields say, by how they are written.

pub(crate) mod choices;
mod cut;
pub(crate) mod grants;
pub(crate) mod hearings;
pub(crate) mod numbers;
pub(crate) mod period;
pub(crate) mod texts;
pub(crate) mod times;
