//! What is said of the lists of states, by their names from Alabama to Kentucky.

pub(crate) const ALABAMA: &str = ". Both are always
# Mondays.
# For the court to say: Mardi Gras is a holiday in Mobile County and Baldwin County alone, and isn't listed; nor are
# days that the Governor proclaims.
";

pub(crate) const ALASKA: &str = " and those after
# it: Seward's Day, the last Monday of March, and Alaska Day, 18 October. One on a Saturday is kept on the Friday
# too, and one on a Sunday on the Monday too.
# For the court to say: days that the Governor or the President proclaims aren't listed.
";

pub(crate) const ARIZONA: &str = ". Mother's
# Day, Father's Day, American Family Day and Constitution Commemoration Day are kept on Sundays by the statute
# itself, and no other of its days is missing above. So there is none to list.
# For the court to say: holidays of a county or a city aren't listed.
";

pub(crate) const ARKANSAS: &str = ". One on a Saturday is
# kept on the Friday, and one on a Sunday on the Monday.
# For the court to say: Christmas Eve is marked doubtful, since the section has the official holidays that are
# 'applicable to state government'; a court that holds that the state doesn't declare it, Rule 6(a)(6)(C), takes it out.
# Days that the Governor gives aren't listed.
";

pub(crate) const CALIFORNIA: &str = ". One on a Sunday is
# kept on the Monday, section 6701, and one on a Saturday on no other day.
# For the court to say: Good Friday is a holiday from noon to three o'clock only, and isn't listed; nor are days that
# section 6700 has since 2023 and later (Genocide Remembrance Day on 24 April, Lunar New Year, Diwali), and days that
# the Governor appoints. Two days are marked doubtful, by section 135 of the Code of Civil Procedure: Admission Day,
# which the state's own courts don't keep, and the day after Thanksgiving, which they keep and section 6700 lacks.
# Whether the state declares them in the sense of Rule 6(a)(6)(C) is for the court to say. A court that holds one to be
# none takes it out.
";

pub(crate) const COLORADO: &str = ":
# Frances Xavier Cabrini Day, the first Monday of October, since 2020.
# For the court to say: Cesar Chavez Day, 31 March, an optional holiday of the state's employees, isn't listed.
";

pub(crate) const CONNECTICUT: &str = ". One on a
# Saturday is kept on the Friday, and one on a Sunday on the Monday.
# For the court to say: Good Friday is marked doubtful, since it is a holiday only as a day of fasting that the Governor
# appoints each year; a court that holds that the state doesn't declare it, Rule 6(a)(6)(C), takes it out. Other days
# that the Governor or the President appoints aren't listed.
";

pub(crate) const DELAWARE: &str = ". General elections
# are held in even years, on the Tuesday after the first Monday of November.
# For the court to say: Return Day, the second day after a general election, is a holiday of Sussex County from noon on,
# and isn't listed.
";

pub(crate) const DISTRICT_OF_COLUMBIA: &str = ". For Rule 6(a)(6)(C)
# the District is a state, Rule 81(d)(2). Emancipation Day on a Saturday is kept on the Friday, and on a Sunday on
# the Monday. Inauguration Day, which that section has too, is in the list above, 5 U.S.C. 6103(c).
# For the court to say: whether Inauguration Day on Saturday, 20 January 2029, is kept on the Friday before, and
# whether 19 June 2020 was a holiday of the District. Neither day is listed.
";

pub(crate) const FLORIDA: &str = "(1). One on a Sunday
# is kept on the Monday, section 683.01(2), and one on a Saturday on no other day. The statute has the birthday of
# Martin Luther King, Jr., on 15 January itself. General elections are held in even years.
# For the court to say: the Governor may have Pascua Florida Day kept on a Friday or Monday where 2 April is a
# Saturday or Sunday, section 683.06; listed is what section 683.01(2) says. Shrove Tuesday is a holiday in counties
# where carnival associations are organized, and isn't listed; nor is the Friday after Thanksgiving, which section
# 110.117 gives to the employees of the state. A chief judge may make more days holidays of a circuit's state courts,
# section 683.19; they aren't listed. Other lists keep these holidays on the Friday where they fall on a Saturday.
";

pub(crate) const GEORGIA: &str = "
# has the holidays of the United States, and those that the Governor designates.
# For the court to say: the days that the Governor designates each year, as a State Holiday in April and another on
# the day after Thanksgiving, aren't listed.
";

pub(crate) const GUAM: &str = ". For Rule 6(a)(6)(C) a territory
# is a state, Rule 81(d)(2). Each is listed on its own day.
# For the court to say: whether a holiday on a Saturday or a Sunday is kept on another day; and Good Friday, which
# some lists have. Neither is listed.
";

pub(crate) const HAWAII: &str = ". One on a
# Saturday is kept on the Friday, and one on a Sunday on the Monday, section 8-2. Election days are those of general
# elections, in even years.
# For the court to say: section 8-1 has election days for the county in which the election is held; days that the
# Governor proclaims aren't listed.
";

pub(crate) const IDAHO: &str = ". No day of that section is
# missing above, so there is none to list.
# For the court to say: days that the Governor or the President appoints aren't listed.
";

pub(crate) const ILLINOIS: &str =
    ", to which 5 ILCS 70/1.11 leads for the computing of time. One on a Sunday is kept on the Monday, and one on
# a Saturday on no other day. Election days are those of general elections for members of the House of
# Representatives, in even years.
# For the court to say: Good Friday is marked doubtful, since that Act is one of banks, and the state's offices are open
# on it; a court that holds that the state doesn't declare it, Rule 6(a)(6)(C), takes it out. And whether Lincoln's
# Birthday on a Saturday is kept on the Friday, as other lists have it.
";

pub(crate) const INDIANA: &str = ". One on a Saturday is
# kept on the Friday, and one on a Sunday on the Monday. Primary elections are those of even years, on the Tuesday after
# the first Monday of May, and general elections those of November.
# For the court to say: Lincoln's birthday is marked doubtful, since the state's offices are open on it and keep it on
# another day that the Governor names each year; a court that holds that the state doesn't declare it, Rule 6(a)(6)(C),
# takes it out. Elections of cities and towns alone, as in 2019, 2023 and 2027, aren't listed, nor is the primary
# election of 2 June 2020, which had been moved by order; nor are days that the Governor names.
";

pub(crate) const IOWA: &str = ". One on a Sunday is kept
# on the Monday, section 4.1, and one on a Saturday on no other day.
# For the court to say: Lincoln's birthday is marked doubtful, since the state's offices and courts are open on it; a
# court that holds that the state doesn't declare it, Rule 6(a)(6)(C), takes it out. The day after Thanksgiving, which
# section 1C.2 gives to employees, isn't listed.
";

pub(crate) const KANSAS: &str = ". It is listed on its own
# day.
# For the court to say: Lincoln's birthday is marked doubtful, since the state's offices and courts are open on it; a
# court that holds that the state doesn't declare it, Rule 6(a)(6)(C), takes it out. Days that the Governor or the
# Supreme Court of Kansas gives by order, as those about Thanksgiving and Christmas, aren't listed.
";

pub(crate) const KENTUCKY: &str = ". One
# on a Sunday is kept on the Monday, and one on a Saturday on no other day.
# For the court to say: each is marked doubtful, since the section has holidays on which offices 'may be closed', and
# the state's offices and courts are open on these; a court that holds that the state doesn't declare one of them, Rule
# 6(a)(6)(C), takes it out. The days of section 18A.190, which are given to employees, aren't listed: half of Good
# Friday, the day after Thanksgiving, the days beside Christmas and New Year, the day of a presidential election, and
# what the Governor adds.
";
