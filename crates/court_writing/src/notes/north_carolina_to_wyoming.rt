//! What is said of the lists of states, by their names from North Carolina to Wyoming.

pub(crate) const NORTH_CAROLINA: &str = ". One on a Sunday
# is kept on the Monday, and one on a Saturday on no other day. General elections are held in even years.
# For the court to say: each is marked doubtful, since the state's own Rule 6(a) counts a legal holiday only where the
# courthouse is closed on it, and on most of these it is open; a court that holds that the state doesn't declare one of
# them, Rule 6(a)(6)(C), takes it out. Yom Kippur, which the section has too, isn't listed, nor are the day after
# Thanksgiving and the days beside Christmas, which are given to employees.
";

pub(crate) const NORTH_DAKOTA: &str = ": Good
# Friday.
# For the court to say: Christmas Eve, on which offices close at noon, and days that the Governor or the President
# appoints aren't listed.
";

pub(crate) const NORTHERN_MARIANA_ISLANDS: &str = ". For Rule
# 6(a)(6)(C) a commonwealth is a state, Rule 81(d)(2). Each is listed on its own day. Commonwealth Cultural Day is
# Columbus Day, in the list above.
# For the court to say: whether a holiday on a Saturday or a Sunday is kept on another day; such a day isn't listed.
";

pub(crate) const OHIO: &str = ". No day of that section is
# missing above, so there is none to list.
# For the court to say: days that the Governor or the President appoints aren't listed.
";

pub(crate) const OKLAHOMA: &str = ". No day of
# that section is missing above, so there is none to list.
# For the court to say: the day after Thanksgiving and a day beside Christmas, on which the state's offices are closed,
# aren't listed, nor are the optional holidays of section 82.2.
";

pub(crate) const OREGON: &str = ". No day of that
# section is missing above, so there is none to list.
# For the court to say: days that the Governor appoints, section 187.020, aren't listed.
";

pub(crate) const PENNSYLVANIA: &str = ": Good
# Friday, Flag Day, 14 June, and Election Day, the Tuesday after the first Monday of November. One on a Sunday is kept
# on the Monday.
# For the court to say: Flag Day is marked doubtful, since the state's offices and courts are open on it; a court that
# holds that the state doesn't declare it, Rule 6(a)(6)(C), takes it out. The election days of spring and the day after
# Thanksgiving, which is given to employees, aren't listed.
";

pub(crate) const PUERTO_RICO: &str = ". For Rule 6(a)(6)(C) a
# commonwealth is a state, Rule 81(d)(2). One of 2 March, 22 March, 25 July and 19 November on a Sunday is kept on the
# Monday.
# For the court to say: American Citizenship Day, 2 March, is marked doubtful and listed since 2018, since a later Act
# may have made it a holiday; a court that holds that it is none takes it out. The day of a general election, which some
# lists have, isn't listed, nor is a day on which Three Kings' Day on a Sunday is kept.
";

pub(crate) const RHODE_ISLAND: &str = ": Victory
# Day, the second Monday of August, and the day of a general election, the Tuesday after the first Monday of November in
# even years.
# For the court to say: days that the Governor or the President appoints aren't listed.
";

pub(crate) const SOUTH_CAROLINA: &str = ".
# Confederate Memorial Day on a Saturday is kept on the Friday, and on a Sunday on the Monday.
# For the court to say: the day after Thanksgiving and 26 December are marked doubtful, since the section's words
# weren't sure; a court that holds that the state doesn't declare one of them, Rule 6(a)(6)(C), takes it out. Christmas
# Eve, which the Governor may declare, the day of a general election, and what is kept in place of a 26 December beside
# a weekend aren't listed.
";

pub(crate) const SOUTH_DAKOTA: &str = ". No day of that
# section is missing above, so there is none to list. Native Americans' Day is Columbus Day, in the list above.
# For the court to say: days that the Governor gives by order, as those about Thanksgiving and Christmas, aren't listed.
";

pub(crate) const TENNESSEE: &str = ". General elections
# are held in even years, on the Tuesday after the first Monday of November.
# For the court to say: the day of a general election is marked doubtful, since the section has holidays on which
# offices 'may be closed', and the state's courts sit on it; a court that holds that the state doesn't declare it, Rule
# 6(a)(6)(C), takes it out. Other election days, as those of August and of primaries, aren't listed, nor are the day
# after Thanksgiving, on which the state's offices may keep Columbus Day, and Christmas Eve.
";

pub(crate) const TEXAS: &str = ". None is
# kept on another day where it falls on a Saturday or Sunday. Emancipation Day, 19 June, is left out since 2021, when it
# became a holiday of the United States.
# For the court to say: 24 and 26 December are marked doubtful, since section 662.021 has as legal holidays the first
# six of section 662.003(b) alone; a court that holds that they are none takes them out. On most of these days the
# offices of the state are open with fewer people. Optional holidays, section 662.003(c) and section 662.013 (Rosh
# Hashanah, Yom Kippur, Good Friday, Cesar Chavez Day), aren't listed.
";

pub(crate) const UTAH: &str = ". Pioneer Day on a Saturday is
# kept on the Friday, and on a Sunday on the Monday. Juneteenth is kept by the section itself on the Monday of 15 to 21
# June, since 2022; 19 June is in the list above.
# For the court to say: days that the Governor or the President sets apart aren't listed.
";

pub(crate) const VERMONT: &str = ". Town Meeting
# Day is the first Tuesday of March. Bennington Battle Day, 16 August, on a Saturday is kept on the Friday, and on a
# Sunday on the Monday.
# For the court to say: the day after Thanksgiving, which is given to employees, isn't listed.
";

pub(crate) const VIRGIN_ISLANDS: &str = ". For Rule 6(a)(6)(C) a
# territory is a state, Rule 81(d)(2). Each is listed on its own day.
# For the court to say: whether a holiday on a Saturday or a Sunday is kept on another day; such a day isn't listed, nor
# are days that the Governor gives, as those of carnivals.
";

pub(crate) const VIRGINIA: &str = ". One on a
# Saturday is kept on the Friday, and one on a Sunday on the Monday. Lee-Jackson Day, the Friday before the third
# Monday of January, was a holiday to 2020; Election Day, the Tuesday after the first Monday of November, is one
# since November 2020.
# For the court to say: days and parts of days that the Governor gives by order, such as those about Thanksgiving and
# Christmas, also 19 June 2020; none is listed. Nor is Inauguration Day, which 5 U.S.C. 6103(c) makes a holiday in
# Alexandria and the counties about it.
";

pub(crate) const WASHINGTON: &str = ": the
# Friday after Thanksgiving Day, which is named Native American Heritage Day since 2014.
# For the court to say: days that the statute recognizes and that aren't legal holidays, such as those of its
# subsection on observances, aren't listed.
";

pub(crate) const WEST_VIRGINIA: &str = ". West Virginia
# Day on a Saturday is kept on the Friday, and on a Sunday on the Monday. Lincoln's Day is the day after Thanksgiving.
# Primary elections are held in even years, on the second Tuesday of May, and general elections on the Tuesday after the
# first Monday of November.
# For the court to say: the primary election of 9 June 2020, which had been moved by order, isn't listed, nor are
# elections of a part of the state, half days, and days that the Governor proclaims.
";

pub(crate) const WISCONSIN: &str = ". The partisan
# primary is the second Tuesday of August, and the general election the Tuesday after the first Monday of November, in
# even years.
# For the court to say: both are marked doubtful, since the state's offices and courts are open on them; a court that
# holds that the state doesn't declare one of them, Rule 6(a)(6)(C), takes it out. Good Friday, 24 and 31 December,
# which the state's own courts count as holidays, sections 801.15 and 230.35, aren't listed.
";

pub(crate) const WYOMING: &str = ". No day of that
# section is missing above, so there is none to list.
# For the court to say: days that the Governor declares aren't listed.
";
