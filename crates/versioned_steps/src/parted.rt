//! What a user of this crate brings: parts with values, and commands that read some parts and write some of them.
ghost use Rattle.std.specs.Prelude.{◌≡◌, true, None, IfOk};
ghost use Rattle.versioned_steps.specs.Rules.{Rules, IsLawful};

use crate::decision::PartsDecision;
use std::alloc::{AllocError, Global};
use std::hash::Hash;

/// Commands over parts.
///
/// The calls compute the functions of `rules`, whose laws every `impl` proves: the decision rests on the parts read alone;
/// the parts written are among those read, each once; reading ends after a stated number of parts.
pub trait Parted: Drop {
    /// The name of a part.
    type Part: Eq + Hash + Copy;
    /// What a part holds.
    type Value: Drop;

    type Command: Drop;

    type Answer: Drop;

    ghost rules: { Self → Rules Self.Part Self.Value Self.Command Self.Answer };

    /// The value of a part that was never written.
    fn opening(&self, alloc: Global, part: &Self::Part) -> Result<Self::Value, AllocError>
        ensures { IfOk result (λ value. value ≡ (rules self.now).opening part.now) };

    /// The part that the command reads next, after these in read order; none where it has read all.
    fn next_part(
        &self,
        command: &Self::Command,
        reads: &[(Self::Part, Self::Value)],
    ) -> Option<Self::Part>
        ensures { result ≡ (rules self.now).next_part command.now reads.now };

    /// The answer and the writes of a command that read these. The values may be of different moments, and never have
    /// been true together.
    fn decide(
        &self,
        alloc: Global,
        command: &Self::Command,
        reads: &[(Self::Part, Self::Value)],
    ) -> Result<PartsDecision<Self::Part, Self::Value, Self::Answer>, AllocError>
        requires { (rules self.now).next_part command.now reads.now ≡ None }
        ensures answer { IfOk result (λ d. d.answer ≡ (rules self.now).answer command.now reads.now) }
        ensures writes { IfOk result (λ d. d.writes.items ≡ (rules self.now).writes command.now reads.now) };

    fn copy_value(&self, alloc: Global, value: &Self::Value) -> Result<Self::Value, AllocError>
        ensures { IfOk result (λ copy. copy ≡ value.now) };

    fn copy_command(
        &self,
        alloc: Global,
        command: &Self::Command,
    ) -> Result<Self::Command, AllocError>
        ensures { IfOk result (λ copy. copy ≡ command.now) };

    fn copy_answer(&self, alloc: Global, answer: &Self::Answer) -> Result<Self::Answer, AllocError>
        ensures { IfOk result (λ copy. copy ≡ answer.now) };

    ghost lawful: { (owner : Self) → IsLawful (rules owner) };

    // `==` on parts is the test of the rules.
    ghost part_eq: { (owner : Self) (x y : Self.Part) → (rules owner).same_part x y ≡ Self.Part.eq x y };
}
