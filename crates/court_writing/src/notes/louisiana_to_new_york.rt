//! What is said of the lists of states, by their names from Louisiana to New York.

pub(crate) const LOUISIANA: &str = ". Each is
# listed on its own day. Lee's and Confederate Memorial Day were holidays up to 2022.
# For the court to say: All Saints' Day and Good Friday apart, each is marked doubtful. The state's courts sit on the
# Battle of New Orleans, on Huey P. Long Day and on the two days up to 2022. Mardi Gras is a holiday where a parish or a
# city declares it, as in New Orleans, Baton Rouge and Lafayette. On the day after Thanksgiving, 24 and 31 December
# clerks' offices are closed, section 1:55(E). A court that holds that the state doesn't declare one of them, Rule
# 6(a)(6)(C), takes it out. The day of a general election, which is given to employees, and Inauguration Day, a holiday
# of Baton Rouge, aren't listed, nor is what is kept beside a weekend.
";

pub(crate) const MAINE: &str = ": Patriots'
# Day, the third Monday of April.
";

pub(crate) const MARYLAND: &str = ". Each is
# listed on its own day. General elections are held in even years, on the Tuesday after the first Monday of November.
# For the court to say: Lincoln's Birthday, Maryland Day, Good Friday and Defenders' Day are marked doubtful, since the
# state's offices and courts are open on them; a court that holds that the state doesn't declare one of them, Rule
# 6(a)(6)(C), takes it out. Inauguration Day, which 5 U.S.C. 6103(c) makes a holiday in Montgomery and Prince George's
# Counties, isn't listed, nor are primary elections.
";

pub(crate) const MASSACHUSETTS: &str = ": Patriots' Day, the third Monday of April.
# For the court to say: the same clause has Evacuation Day (17 March) and Bunker Hill Day (17 June) for Suffolk
# County alone, where Boston lies. They aren't listed.
";

pub(crate) const MICHIGAN: &str = ". One on a
# Sunday is kept on the Monday, and one on a Saturday on no other day.
# For the court to say: Lincoln's Birthday is marked doubtful, since the state's courts sit on it, Michigan Court Rule
# 8.110(D); a court that holds that the state doesn't declare it, Rule 6(a)(6)(C), takes it out. The days that the same
# rule of court adds aren't listed: the day after Thanksgiving, 24 and 31 December.
";

pub(crate) const MINNESOTA: &str = ", subdivision 5.
# For the court to say: the day after Thanksgiving is marked doubtful, since it is a holiday of the executive branch,
# and of other branches and of counties where they choose it; a court that holds that the state doesn't declare it, Rule
# 6(a)(6)(C), takes it out.
";

pub(crate) const MISSISSIPPI: &str = ": Confederate
# Memorial Day, the last Monday of April.
# For the court to say: Mardi Gras, which a county or a city may declare, isn't listed, nor are days that the Governor
# proclaims.
";

pub(crate) const MISSOURI: &str = ". One on a
# Sunday is kept on the Monday, and one on a Saturday on no other day.
# For the court to say: other lists keep these days on the Friday where they fall on a Saturday.
";

pub(crate) const MONTANA: &str = ": the day of the state's
# general election, the Tuesday after the first Monday of November in even years.
";

pub(crate) const NEBRASKA: &str = ", and section
# 25-2221: Arbor Day, the last Friday of April, and the day after Thanksgiving.
";

pub(crate) const NEVADA: &str = ": Nevada Day,
# the last Friday of October, and Family Day, the day after Thanksgiving.
# For the court to say: days that the President appoints aren't listed.
";

pub(crate) const NEW_HAMPSHIRE: &str = ": the day of the
# biennial election, the Tuesday after the first Monday of November in even years.
# For the court to say: the day is marked doubtful, since the state's courts sit on it; a court that holds that the
# state doesn't declare it, Rule 6(a)(6)(C), takes it out. The day after Thanksgiving, which is given to employees,
# isn't listed.
";

pub(crate) const NEW_JERSEY: &str =
    ", which makes the third Friday of June Juneteenth Day from 2021 on. A Lincoln's Birthday on a
# Sunday is kept on the Monday, and one on a Saturday on no other day. General elections are held in each year.
# For the court to say: Lincoln's Birthday is marked doubtful, since section 36:1-1 names it and the state's offices are
# open on it; a court that holds that it is none takes it out. The day after Thanksgiving, on which they are closed,
# isn't listed, nor are days that the Governor appoints.
";

pub(crate) const NEW_MEXICO: &str = ". No day of that
# section is missing above, so there is none to list.
# For the court to say: the day after Thanksgiving, on which the state's offices keep Presidents' Day, isn't listed.
";

pub(crate) const NEW_YORK: &str = ". A Lincoln's
# Birthday on a Sunday is kept on the Monday, and one on a Saturday on no other day. Election Day is the Tuesday
# after the first Monday of November. Flag Day is always a Sunday, so it isn't listed.
";
