//! The input divided into the court's file and the rows.

ghost use Rattle.std.specs.Prelude.{◌≡◌, option_map};
ghost use Rattle.program_runs.specs.Division.{behind_divider, behind_line_end, court_part, rows_part};

/// The court's file and the rows: what comes before and after the first line `%%`, which LF, CR LF or the
/// end of the input ends. Without such a line there are no rows.
pub fn divide(input: &[u8]) -> (&[u8], &[u8])
    ensures court { result.0.now ≡ court_part input.now }
    ensures rows { result.1.now ≡ rows_part input.now }
{
    let mut begins_line = true;
    for at in 0..input.len() {
        let (court, left) = input.split_at(at);
        if let Some(rows) = behind_divider(begins_line, left) {
            return (court, rows);
        }
        begins_line = input[at] == b'\n';
    }
    (input, &[])
}

// What follows the line `%%`, where the bytes begin a line and that line is it.
fn behind_divider(begins_line: bool, bytes: &[u8]) -> Option<&[u8]>
    ensures { option_map (λ rest. rest.now) result ≡ behind_divider begins_line bytes.now }
{
    if !begins_line {
        return None;
    }
    behind_line_end(bytes.strip_prefix(b"%%")?)
}

// What follows the end of a line.
fn behind_line_end(bytes: &[u8]) -> Option<&[u8]>
    ensures { option_map (λ rest. rest.now) result ≡ behind_line_end bytes.now }
{
    if bytes.is_empty() {
        return Some(bytes);
    }
    bytes.strip_prefix(b"\n").or(bytes.strip_prefix(b"\r\n"))
}
