//! When and where a hearing is set, as `book` and `move` have it.

ghost use Rattle.std.specs.Prelude.{◌≡◌};
ghost use Rattle.csv.specs.Records.{fields_of};
ghost use Rattle.row_forms.specs.Forms.Settings.{setting_in};

use crate::columns::{column, day_in, number_in};
use crate::fault::RowCause;
use crate::fields::hearings::{panel_named, room_named, slots_of};
use crate::fields::times::slot_at;
use court_days::Court;
use csv::StringRecord;
use docket_rows::Setting;

/// The columns `CASE,MOTION,JUDGE,ROOM,DATE,TIME,SLOTS,NOTICE`, which are those from 3 to 10. Any text is read as a room.
#[tactic(auto, unfolding(crate::specs::Forms::Settings::setting_in))]
pub fn setting_in(court: &Court, fields: &StringRecord) -> Result<Setting, RowCause>
    ensures { result ≡ setting_in court.now.judges court.now.rooms (fields_of fields.now) }
{
    let case = number_in(fields, 3)?;
    let motion = number_in(fields, 4)?;
    let judges = panel_named(court, column(fields, 5)).ok_or(RowCause::BadField(5))?;
    let room = room_named(court, column(fields, 6));
    let day = day_in(fields, 7)?;
    let first = slot_at(column(fields, 8)).ok_or(RowCause::BadField(8))?;
    let count = slots_of(column(fields, 9)).ok_or(RowCause::BadField(9))?;
    let notice = day_in(fields, 10)?;
    Ok(Setting {
        case,
        motion,
        judges,
        room,
        day,
        first,
        count,
        notice,
    })
}
