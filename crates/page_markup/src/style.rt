//! How a page looks.

/// The style sheet of all pages: the text; tables, in which what heads a row stays in one line and a long name in a row's last
/// cell is broken anywhere; grids, as months are, whose columns are alike and in which anything is broken that is too long; a phone;
/// and paper, on which no row is cut and no heading is left alone at the end of a sheet. A bar is the line below a text, since paper
/// has lines where it has no backgrounds.
pub(crate) const STYLE: &str = "
body { margin: 0 auto; max-width: 60rem; padding: 1rem; font: 1rem/1.45 system-ui, sans-serif; color: #1a1a1a; background: #ffffff; overflow-wrap: break-word }
h1 { margin: 0 0 0.5rem; font-size: 1.6rem; line-height: 1.2 }
h2 { margin: 2.5rem 0 0.75rem; font-size: 1.3rem; border-bottom: 2px solid #1f3a5f }
h3 { margin: 1.75rem 0 0.5rem; font-size: 1.1rem }
p { margin: 0.25rem 0 }
a { color: #0b4f9e }
table { border-collapse: collapse; width: 100%; margin: 0.5rem 0 1rem }
caption { padding: 0.25rem 0; text-align: left; font-weight: 600; overflow-wrap: anywhere }
th, td { padding: 0.3rem 0.5rem; border: 1px solid #8a8f98; text-align: left; vertical-align: top }
th[scope=row] { white-space: nowrap }
td:last-child { min-width: 5rem; overflow-wrap: anywhere }
thead th { background: #dfe6f0 }
th.day { background: #f1f3f6 }
td.late { font-weight: 600; color: #8a1c1c }
div.note { white-space: pre-line; font-size: 0.875rem; color: #4a4a4a }
summary { cursor: pointer; color: #0b4f9e }
table.grid { table-layout: fixed }
table.grid th, table.grid td { min-width: 0; white-space: normal; overflow-wrap: anywhere }
td.date, td.out, th.load { padding: 0.2rem }
td.out { color: #595959; background: #f1f3f6 }
div.block { margin: 0.15rem 0; padding: 0.1rem 0.2rem; border-left: 0.25rem solid #1f3a5f; font-size: 0.8125rem; line-height: 1.25 }
div.bar { border-bottom: 0.4rem solid #1f3a5f; font-size: 0.75rem; font-weight: 400; white-space: nowrap }
div.reasons { margin: 0.25rem 0; white-space: pre-wrap; font: 0.8125rem/1.4 ui-monospace, monospace }
@media (max-width: 40rem) { body { padding: 0.5rem } th, td { padding: 0.2rem; font-size: 0.8125rem } table:not(.grid) td:nth-child(3):not(:last-child) { min-width: 5rem } td.date, td.out, th.load, div.block, div.bar { padding: 0.1rem; font-size: 0.625rem } div.reasons { white-space: pre-line; font-family: inherit } }
@media (min-width: 40.01rem) { table:not(.grid) td:nth-child(3):not(:last-child):not(:has(a)) { white-space: nowrap } }
@page { margin: 1.5cm }
@media print { body { max-width: none; padding: 0; font-size: 10pt } a { color: inherit; text-decoration: none } div.reasons, div.block, div.bar { font-size: 8pt } tr { break-inside: avoid } tr:has(+ tr details) { break-after: avoid } h2, h3, p, caption, thead, tr:has(th.day) { break-after: avoid } tbody tr:first-child { break-before: avoid } thead { display: table-header-group } }
";
