//! The zones of district courts.

ghost use Rattle.std.specs.Prelude.{◌≡◌};
ghost use Rattle.court_writing.specs.Courts.{zone_text};

/// The zone of a court's clock.
#[derive(Clone, Copy, Debug, PartialEq, Eq)]
pub enum ZoneName {
    Eastern,
    Central,
    Mountain,
    /// Mountain, without daylight saving time.
    Arizona,
    Pacific,
    Alaska,
    Hawaii,
    /// Atlantic, without daylight saving time.
    Atlantic,
    Chamorro,
}

impl ZoneName {
    /// The zone, as a court's file has it.
    pub fn text(self) -> &'static str
        ensures { result.now ≡ zone_text self }
    {
        match self {
            ZoneName::Eastern => "EST5EDT,M3.2.0/2,M11.1.0/2",
            ZoneName::Central => "CST6CDT,M3.2.0/2,M11.1.0/2",
            ZoneName::Mountain => "MST7MDT,M3.2.0/2,M11.1.0/2",
            ZoneName::Arizona => "MST7",
            ZoneName::Pacific => "PST8PDT,M3.2.0/2,M11.1.0/2",
            ZoneName::Alaska => "AKST9AKDT,M3.2.0/2,M11.1.0/2",
            ZoneName::Hawaii => "HST10",
            ZoneName::Atlantic => "AST4",
            ZoneName::Chamorro => "ChST-10",
        }
    }

    /// What is said of the zone, as lines of comments.
    pub(crate) fn comment(self) -> &'static str {
        match self {
            ZoneName::Eastern => {
                "# Eastern Time since 2007: five hours behind Greenwich, four from the second Sunday of March to the first Sunday
# of November, changed at two o'clock.
"
            }
            ZoneName::Central => {
                "# Central Time since 2007: six hours behind Greenwich, five from the second Sunday of March to the first Sunday of
# November, changed at two o'clock.
"
            }
            ZoneName::Mountain => {
                "# Mountain Time since 2007: seven hours behind Greenwich, six from the second Sunday of March to the first Sunday
# of November, changed at two o'clock.
"
            }
            ZoneName::Arizona => {
                "# Arizona's clock: seven hours behind Greenwich all the year. `-07:00` says the same. (The Navajo Nation's clocks
# change, and the court's don't.)
"
            }
            ZoneName::Pacific => {
                "# Pacific Time since 2007: eight hours behind Greenwich, seven from the second Sunday of March to the first Sunday
# of November, changed at two o'clock.
"
            }
            ZoneName::Alaska => {
                "# Alaska's clock since 2007: nine hours behind Greenwich, eight from the second Sunday of March to the first Sunday
# of November, changed at two o'clock.
"
            }
            ZoneName::Hawaii => {
                "# Hawaii's clock: ten hours behind Greenwich all the year. `-10:00` says the same.
"
            }
            ZoneName::Atlantic => {
                "# Atlantic Time, without daylight saving time: four hours behind Greenwich all the year. `-04:00` says the same.
"
            }
            ZoneName::Chamorro => {
                "# Chamorro Time: ten hours ahead of Greenwich all the year. `+10:00` says the same.
"
            }
        }
    }
}
