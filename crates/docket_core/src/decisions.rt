//! What is decided on the parts that were read.

ghost use Rattle.std.specs.Prelude.{◌≡◌, ◌++◌, true, None, IfOk, IfErr, OnOk, filter_map, option_map, option_to_list};
ghost use Rattle.docket_rows.specs.Words.{refusal, parts_read, next_part, answered, changed, written_on};
ghost use Rattle.docket_core.specs.Memory.{decision_takes_memory};
ghost use Rattle.docket_core.specs.Inside.Written.{written_into};

use crate::writes::changed;
use docket_decisions::{DocketRules, Seen, answer_if_made, refusal};
use docket_rows::{Answer, Command, Decision, PartId, PartValue, Writes};
use std::alloc::{AllocError, Global};

/// What the command is answered, and what it writes, where these are the parts that it read. They need never have
/// been true together. `Err` says that memory ran out. Of the refusals only `NoticeLost` takes memory.
#[tactic(auto, unfolding(docket_rows::specs::Words::answered, docket_rows::specs::Words::written_on))]
pub fn decide(
    alloc: Global,
    rules: &DocketRules,
    command: &Command,
    reads: &[(PartId, PartValue)],
) -> Result<Decision, AllocError>
    requires { next_part rules.now command.now reads.now ≡ None }
    ensures answer { IfOk result (λ d. d.answer ≡ answered rules.now (parts_read rules.now reads.now) command.now) }
    ensures writes { IfOk result (λ d. d.writes ≡ written_on rules.now command.now reads.now) }
    ensures memory { IfErr result (λ e. decision_takes_memory (refusal rules.now (parts_read rules.now reads.now) command.now) ≡ true) }
{
    let seen = Seen::of(rules, reads);
    if let Some(refusal) = refusal(alloc, rules, &seen, command)? {
        return Ok(Decision {
            answer: Answer::Refused(refusal),
            writes: Writes::from_vec(Vec::new(alloc)),
        });
    }
    let answer = answer_if_made(alloc, rules, &seen, command);
    let writes = written(alloc, rules, command, reads)?;
    Ok(Decision {
        answer,
        writes: Writes::from_vec(writes),
    })
}

/// The part with its new value, if the command changes it.
fn written_into(
    alloc: Global,
    rules: &DocketRules,
    command: &Command,
    reads: &[(PartId, PartValue)],
    part: PartId,
) -> Result<Option<(PartId, PartValue)>, AllocError>
    requires { refusal rules.now (parts_read rules.now reads.now) command.now ≡ None }
    ensures { IfOk result (λ w. w ≡ option_map (λ v. (part, v)) (changed (parts_read rules.now reads.now) command.now part)) }
{
    let seen = Seen::of(rules, reads);
    match changed(alloc, rules, &seen, command, part)? {
        Some(value) => Ok(Some((part, value))),
        None => Ok(None),
    }
}

/// Adds the item, if there is one. An error leaves the list as it was.
#[tactic(auto, using(crate::proofs::WrittenLemmas::nothing_more))]
fn push_if(
    list: &mut Vec<(PartId, PartValue)>,
    item: Option<(PartId, PartValue)>,
) -> Result<(), AllocError>
    ensures { OnOk result (list.new.items ≡ list.old.items ++ option_to_list item) }
{
    match item {
        Some(item) => {
            list.push(item)?;
            Ok(())
        }
        None => Ok(()),
    }
}

/// The parts read that the command changes, with their new values, in read order.
fn written(
    alloc: Global,
    rules: &DocketRules,
    command: &Command,
    reads: &[(PartId, PartValue)],
) -> Result<Vec<(PartId, PartValue)>, AllocError>
    requires { refusal rules.now (parts_read rules.now reads.now) command.now ≡ None }
    ensures { IfOk result (λ writes. writes.items ≡ filter_map (written_into (parts_read rules.now reads.now) command.now) reads.now) }
{
    let mut writes = Vec::new(alloc);
    for read in reads {
        let write = written_into(alloc, rules, command, reads, read.0)?;
        push_if(&mut writes, write)?;
    }
    Ok(writes)
}
