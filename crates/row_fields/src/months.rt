//! The names of months.

ghost use Rattle.std.specs.Prelude.{◌≡◌, option_map};
ghost use Rattle.row_fields.specs.Months.{month_named};

/// The number of the month with this name in English, whole or of three letters, all small.
#[tactic(auto, unfolding(crate::specs::Months::month_named))]
pub fn month_named(word: &str) -> Option<&'static str>
    ensures { option_map (λ number. number.now) result ≡ month_named word.now }
{
    match word {
        "jan" | "january" => Some("01"),
        "feb" | "february" => Some("02"),
        "mar" | "march" => Some("03"),
        "apr" | "april" => Some("04"),
        "may" => Some("05"),
        "jun" | "june" => Some("06"),
        "jul" | "july" => Some("07"),
        "aug" | "august" => Some("08"),
        "sep" | "sept" | "september" => Some("09"),
        "oct" | "october" => Some("10"),
        "nov" | "november" => Some("11"),
        "dec" | "december" => Some("12"),
        _ => None,
    }
}
