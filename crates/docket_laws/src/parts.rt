//! The parts of a docket after a command.

ghost use Rattle.docket_laws.specs.Parts.{CommandsRestOnParts, PartsFollowTheStepsOfRows, PartsStandForRowsAfter, QueriesRestOnParts};

/// After a command that isn't refused each part is that of the rows after it: a part that the command writes holds what
/// it writes there, and every other part holds what it held.
pub fn parts_stand_for_rows_after()
    ensures { PartsStandForRowsAfter }
{}

/// Where parts hold what the rows say, a command is answered on them as the step of the rows is, and after it, refused or
/// not, they hold what the rows say after that step.
pub fn parts_follow_the_steps_of_rows()
    ensures { PartsFollowTheStepsOfRows }
{}

/// Why a command is refused, what it is answered and what it writes rest on what the parts hold, and on nothing else.
pub fn commands_rest_on_parts()
    ensures { CommandsRestOnParts }
{}

/// So does what a query shows.
pub fn queries_rest_on_parts()
    ensures { QueriesRestOnParts }
{}
