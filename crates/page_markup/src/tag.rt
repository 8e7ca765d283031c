//! The elements of a page.

ghost use Rattle.std.specs.Prelude.{◌≡◌};
ghost use Rattle.page_markup.specs.Elements.{end_of_line, tag_name};

/// An element, with what its tag says of it.
#[derive(Clone, Copy, Debug, PartialEq, Eq)]
pub enum Tag {
    /// The whole page, in English.
    Page,
    /// What is said of the page.
    Head,
    /// The page's title.
    Title,
    /// How the page looks.
    Style,
    /// What is shown.
    Body,
    /// The page without what leads through it.
    Main,
    /// The page's heading.
    Heading1,
    /// The heading of a part.
    Heading2,
    /// The heading of a part of a part.
    Heading3,
    /// A paragraph.
    Paragraph,
    /// A part of the page.
    Section,
    /// The part of a case, to which links lead.
    CaseSection(u32),
    /// A link to the part of a case.
    CaseLink(u32),
    /// A table.
    Table,
    /// What a table has.
    Caption,
    /// The heads of a table's columns.
    TableHead,
    /// The rows of a table.
    TableBody,
    /// A row.
    Row,
    /// The head of a column.
    ColumnHead,
    /// The day of the rows below it, over three columns.
    DayHead,
    /// The week of the rows below it, over four columns.
    WeekHead,
    /// The head of a row.
    RowHead,
    /// A cell.
    Cell,
    /// A cell that says that something is late.
    LateCell,
    /// A line by itself.
    Line,
    /// Lines of a note, each of which ends where its text has an end of line.
    Note,
    /// A cell over four columns.
    WideCell,
    /// What is folded until a reader unfolds it.
    Details,
    /// What is seen of it while it is folded.
    Summary,
    /// Lines in columns, as a text has them.
    Reasons,
    /// A table whose columns are equally wide, and in which any text may be broken.
    Grid,
    /// The cell of a day of the month.
    DateCell,
    /// The cell of a day of the month before or after it.
    OutCell,
    /// What takes place on a day.
    Block,
    /// The head of a row that has the load of a week.
    LoadHead,
    /// A bar that is so many hundredths as wide as it may be.
    Bar(u32),
}

/// The name of the element.
pub(crate) fn tag_name(tag: Tag) -> &'static str
    ensures { result.now ≡ tag_name tag }
{
    match tag {
        Tag::Page => "html",
        Tag::Head => "head",
        Tag::Title => "title",
        Tag::Style => "style",
        Tag::Body => "body",
        Tag::Main => "main",
        Tag::Heading1 => "h1",
        Tag::Heading2 => "h2",
        Tag::Heading3 => "h3",
        Tag::Paragraph => "p",
        Tag::Section | Tag::CaseSection(_) => "section",
        Tag::CaseLink(_) => "a",
        Tag::Table | Tag::Grid => "table",
        Tag::Caption => "caption",
        Tag::TableHead => "thead",
        Tag::TableBody => "tbody",
        Tag::Row => "tr",
        Tag::ColumnHead | Tag::DayHead | Tag::WeekHead | Tag::RowHead | Tag::LoadHead => "th",
        Tag::Cell | Tag::LateCell | Tag::WideCell | Tag::DateCell | Tag::OutCell => "td",
        Tag::Line | Tag::Note | Tag::Reasons | Tag::Block | Tag::Bar(_) => "div",
        Tag::Details => "details",
        Tag::Summary => "summary",
    }
}

/// The end of a line after an element that isn't inside a line.
pub(crate) fn end_of_line(tag: Tag) -> &'static str
    ensures { result.now ≡ end_of_line tag }
{
    match tag {
        Tag::CaseLink(_)
        | Tag::ColumnHead
        | Tag::DayHead
        | Tag::WeekHead
        | Tag::RowHead
        | Tag::Cell
        | Tag::LateCell
        | Tag::Line
        | Tag::Note
        | Tag::WideCell
        | Tag::Summary
        | Tag::Reasons
        | Tag::DateCell
        | Tag::OutCell
        | Tag::Block
        | Tag::LoadHead
        | Tag::Bar(_) => "",
        _ => "\n",
    }
}
