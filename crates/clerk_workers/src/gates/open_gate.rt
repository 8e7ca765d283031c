//! A gate for those who hold nobody.

use crate::gates::gate::Gate;

/// A gate that holds no clerk.
#[derive(Clone, Copy, Debug)]
pub struct OpenGate;

impl Gate for OpenGate {
    fn before_commit(&self, _clerk: u8, _row: u32) {}

    fn after_answer(&self, _clerk: u8, _row: u32) {}
}
