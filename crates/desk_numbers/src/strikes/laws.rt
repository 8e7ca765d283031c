//! Laws of the definitions, the contracts of functions that do nothing.
ghost use Rattle.desk_numbers.specs.Strikes.Laws.{ARestoreUndoesItsStrike, NoEntryIsBoth, NumbersAreReadBack, RestoresAreReadBack, StrikesAreReadBack};

/// A strike of a row whose number has nine digits at most is read as it is written, with its remark and what it says of rows.
pub fn strikes_are_read_back()
    ensures { StrikesAreReadBack }
{}

/// And so is a restore.
pub fn restores_are_read_back()
    ensures { RestoresAreReadBack }
{}

/// What a first line says of rows is read as it is written, whatever the line begins with that says no number.
pub fn numbers_are_read_back()
    ensures { NumbersAreReadBack }
{}

/// No entry is both a strike and a restore.
pub fn no_entry_is_both()
    ensures { NoEntryIsBoth }
{}

/// A restore undoes the strike of its row: the same rows are struck as before it.
pub fn a_restore_undoes_its_strike()
    ensures { ARestoreUndoesItsStrike }
{}
