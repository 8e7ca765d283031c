//! The name of a court, which its file says in a comment.

ghost use Rattle.std.specs.Prelude.{◌≡◌, ◌≤◌, length, option_map};
ghost use Rattle.report_memo.specs.CourtName.{after_naming, court_named, if_text, is_in_name, name_in_line, name_length, naming_line};

/// The name of the court, where its file has one: what comes after `# The court's file of the ` in the first line that begins so,
/// up to a comma, a full stop or the end of the line.
pub(crate) fn court_named(file: &[u8]) -> Option<&str>
    ensures { option_map (λ name. name.now) result ≡ court_named file.now }
{
    match naming_line(file) {
        Some(line) => name_in_line(line),
        None => None,
    }
}

// The first line that begins as that one does.
fn naming_line(file: &[u8]) -> Option<&[u8]>
    ensures { option_map (λ line. line.now) result ≡ naming_line file.now }
{
    file.split(|byte| *byte == b'\n')
        .find(|line| line.starts_with(b"# The court's file of the "))
}

// The name in a line.
#[tactic(auto, unfolding(crate::specs::CourtName::name_in_line))]
fn name_in_line(line: &[u8]) -> Option<&str>
    ensures { option_map (λ name. name.now) result ≡ name_in_line line.now }
{
    match after_naming(b"# The court's file of the ", line) {
        Some(rest) => if_text(rest.split_at(name_length(rest)).0),
        None => None,
    }
}

// What comes after a mark in a line that begins with it.
fn after_naming<'a>(mark: &[u8], line: &'a [u8]) -> Option<&'a [u8]>
    ensures { option_map (λ rest. rest.now) result ≡ after_naming mark.now line.now }
{
    line.strip_prefix(mark)
}

// How many bytes the name has with which a text begins.
fn name_length(text: &[u8]) -> usize
    ensures count { result ≡ name_length text.now }
    ensures within { result ≤ length text.now }
{
    let mut count = 0;
    while count < text.len() && is_in_name(text[count]) {
        count += 1;
    }
    count
}

// Whether a byte is one of the name.
fn is_in_name(byte: u8) -> bool
    ensures { result ≡ is_in_name byte }
{
    !(byte == b',' || byte == b'.' || byte == b'\r')
}

// Bytes that are text.
fn if_text(bytes: &[u8]) -> Option<&str>
    ensures { option_map (λ text. text.now) result ≡ if_text bytes.now }
{
    match str::from_utf8(bytes) {
        Ok(text) => Some(text),
        Err(_) => None,
    }
}
