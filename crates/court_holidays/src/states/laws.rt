//! Laws of the definitions.

ghost use Rattle.court_holidays.specs.States.Easter.{EasterIsASunday};

/// Easter is the first Sunday after the paschal full moon, and Good Friday the Friday before it.
pub fn easter_is_a_sunday()
    ensures { EasterIsASunday }
{}
