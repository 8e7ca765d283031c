//! What the definitions of fields mean.

ghost use Rattle.row_fields.specs.Laws.{NoOtherReading, NumbersStayWhole, OrderIsKept, PlacesFollowTheirMarks};
ghost use Rattle.row_fields.specs.Named.{CodesNameSections};

/// A date in numbers is read in the order that is named, and in no other.
pub fn order_is_kept()
    ensures { OrderIsKept }
{}

/// Where no order is named, a date in numbers is read as a day only if no reading gives another day.
pub fn no_other_reading()
    ensures { NoOtherReading }
{}

/// As many separating marks come before a field's place as there are fields before it.
pub fn places_follow_their_marks()
    ensures { PlacesFollowTheirMarks }
{}

/// Each number of a text stays whole, and no two become one, where blanks, dots and other signs are left out.
pub fn numbers_stay_whole()
    ensures { NumbersStayWhole }
{}

/// No two sections have one code, so that a code is read as the period of one section.
pub fn codes_name_sections()
    ensures { CodesNameSections }
{}
