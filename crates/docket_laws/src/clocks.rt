//! What doesn't matter of a court.

ghost use Rattle.docket_laws.specs.Clocks.{DocketsDoNotRestOnHowAZoneIsKept};

/// Nothing that a docket answers or shows depends on how its court's zone is kept: by two values of one clock, which has
/// the same offset at every instant and the same hours, a command is refused alike, answered alike and leaves the same
/// rows, and a query shows the same.
pub fn dockets_do_not_rest_on_how_a_zone_is_kept()
    ensures { DocketsDoNotRestOnHowAZoneIsKept }
{}
