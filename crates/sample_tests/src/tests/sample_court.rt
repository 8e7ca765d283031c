//! The file of the court that tests and examples compute with: a court's zone and hours, and just those
//! holidays that their rows meet. It is for tests alone, since a day that it doesn't list counts as open.

use std::alloc::{AllocError, Global};

const FILE: &str = r#"zone = "EST5EDT,M3.2.0/2,M11.1.0/2"
opens = "08:30"
closes = "17:00"
from = "2007-01-01"
to = "2026-12-31"
federal = ["2007-09-03", "2025-05-26", "2025-06-19", "2025-07-04", "2025-09-01"]
state = ["2025-03-28"]
judges = ["Ames", "Brandt"]
rooms = ["R1", "R2"]
"#;

/// The court's file. No clause says its bytes, so that no proof reads through them.
pub fn file() -> &'static str {
    FILE
}

/// The court's file with another line, without its end, at the key that begins it.
pub fn file_with(alloc: Global, key: &str, line: &str) -> Result<String, AllocError> {
    let mut file = String::new(alloc);
    for old in FILE.lines() {
        file.push_str(if old.starts_with(key) { line } else { old })?;
        file.push('\n')?;
    }
    Ok(file)
}
