//! Where a test may hold clerks at work, and what holds none of them.

mod gate;
mod open_gate;

pub use gate::Gate;
pub use open_gate::OpenGate;
