//! How the office runs.

ghost use Rattle.std.specs.Prelude.{◌≡◌, ◌≤◌, ◌↔◌, IsSome, IfSome};

/// How the office runs.
#[derive(Clone, Copy, Debug, PartialEq, Eq)]
pub struct Options {
    /// How many clerks there are: 1 to 64.
    pub clerks: u8,
    /// How many entries the journal takes: at most 1,000,000.
    pub journal: u32,
    ghost some_clerk: { 1 ≤ clerks },
    ghost few_clerks: { clerks ≤ 64 },
    ghost journal_in_range: { journal ≤ 1_000_000 },
}

impl Options {
    /// A run with that number of clerks, whose journal takes that number of entries. None outside 1 to 64 clerks and 0 to
    /// 1,000,000 entries.
    pub fn new(clerks: u8, journal: u32) -> Option<Options>
        ensures within { IsSome result ↔ ((1 ≤ clerks) × (clerks ≤ 64) × (journal ≤ 1_000_000)) }
        ensures value { IfSome result (λ options. (options.clerks ≡ clerks) × (options.journal ≡ journal)) }
    {
        if clerks < 1 || clerks > 64 || journal > 1_000_000 {
            return None;
        }
        Some(Options { clerks, journal })
    }
}
