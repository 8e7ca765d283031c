//! The sections of Rules and statutes that set a period which is entered, by their names.

ghost use Rattle.std.specs.Prelude.{◌≡◌, find, map, option_map};
ghost use Rattle.std.specs.List.{list_any};
ghost use Rattle.row_fields.specs.Named.{cites, entered_said, fronts, has_code, is_number_after, named_periods, period_cited, period_view, section_said, text_coded, texts_said};
ghost use Rattle.row_fields.specs.Said.{said_map};

use crate::choices::rule_said;
use crate::said::Said;

/// A book of Rules, or a title of the United States Code.
#[derive(Clone, Copy, Debug, PartialEq, Eq)]
pub enum RuleBook {
    /// The Federal Rules of Civil Procedure.
    CivilRules,
    /// The Supplemental Rules for Admiralty or Maritime Claims and Asset Forfeiture Actions.
    ForfeitureRules,
    /// The Supplemental Rules for Social Security Actions under 42 U.S.C. 405(g).
    SocialSecurityRules,
    /// The Federal Rules of Appellate Procedure.
    AppellateRules,
    /// Title 5 of the United States Code.
    Title5,
    /// Title 28 of the United States Code.
    Title28,
    /// Title 42 of the United States Code.
    Title42,
}

/// A section that sets a period which is entered, or two.
#[derive(Clone, Copy, Debug)]
pub struct NamedPeriod {
    /// In which book it is.
    pub book: RuleBook,
    /// The section as it is cited, as `33(b)(2)` or `FRAP 4(a)(5)`.
    pub section: &'static str,
    /// Its number when it is folded, without what says in which book it is: `33b2`, `4a5`, `1447c`.
    pub number: &'static str,
    /// The code that plain rows of the desk have for its period, as `33b2` or `frap4a1A`; none where it sets two.
    pub code: Option<&'static str>,
    /// The period, as it is entered.
    pub text: &'static str,
    /// The other one, where it sets two.
    pub other: Option<&'static str>,
    /// The day from which the section as it is cited sets them, as a date.
    pub since: &'static str,
}

/// A line of the table of sections. Most of the Rules' periods are as they are since the amendments of 2009, by which every day counts.
macro_rules! entered {
    ($book:ident, $section:literal, $number:literal, $code:literal: $text:literal) => {
        NamedPeriod {
            book: RuleBook::$book,
            section: $section,
            number: $number,
            code: Some($code),
            text: $text,
            other: None,
            since: "2009-12-01",
        }
    };
    ($book:ident, $section:literal, $number:literal: $text:literal, $other:literal) => {
        NamedPeriod {
            book: RuleBook::$book,
            section: $section,
            number: $number,
            code: None,
            text: $text,
            other: Some($other),
            since: "2009-12-01",
        }
    };
    ($since:literal, $book:ident, $section:literal, $number:literal, $code:literal: $text:literal) => {
        NamedPeriod {
            book: RuleBook::$book,
            section: $section,
            number: $number,
            code: Some($code),
            text: $text,
            other: None,
            since: $since,
        }
    };
    ($since:literal, $book:ident, $section:literal, $number:literal: $text:literal, $other:literal) => {
        NamedPeriod {
            book: RuleBook::$book,
            section: $section,
            number: $number,
            code: None,
            text: $text,
            other: Some($other),
            since: $since,
        }
    };
}

/// The sections, in the order of docs/law/RULES.md.
static SECTIONS: [NamedPeriod; 79] = [
    entered!(CivilRules, "4(d)(1)(F)", "4d1f": "30d/after/service/event/plain", "60d/after/service/event/plain"),
    entered!(CivilRules, "5.1(c)", "5 1c", "5.1c": "60d/after/filing/event/plain"),
    entered!(CivilRules, "6(c)(1)", "6c1", "6c1": "14d/before/service/event/plain"),
    entered!(CivilRules, "6(c)(2)", "6c2", "6c2": "7d/before/service/event/plain"),
    entered!(CivilRules, "11(c)(2)", "11c2", "11c2": "21d/after/filing/served/plain"),
    entered!(CivilRules, "12(a)(4)(A)", "12a4a", "12a4A": "14d/after/service/event/plain"),
    entered!(CivilRules, "12(a)(4)(B)", "12a4b", "12a4B": "14d/after/service/served/plain"),
    entered!(CivilRules, "12(e)", "12e", "12e": "14d/after/service/event/plain"),
    entered!(CivilRules, "12(f)(2)", "12f2", "12f2": "21d/after/filing/served/plain"),
    entered!(CivilRules, "14(a)(1)", "14a1", "14a1": "14d/after/filing/event/plain"),
    entered!(CivilRules, "15(a)(1)(A)", "15a1a", "15a1A": "21d/after/filing/event/plain"),
    entered!(CivilRules, "15(a)(1)(B)", "15a1b", "15a1B": "21d/after/filing/served/plain"),
    entered!(CivilRules, "15(a)(3)", "15a3", "15a3": "14d/after/service/served/plain"),
    entered!("2015-12-01", CivilRules, "16(b)(2)", "16b2": "90d/after/filing/event/plain", "60d/after/filing/event/plain"),
    entered!("2018-12-01", CivilRules, "23(f)", "23f": "14d/after/filing/event/60b", "45d/after/filing/event/60b"),
    entered!(CivilRules, "25(a)(1)", "25a1": "90d/after/filing/served/plain", "90d/after/filing/event/plain"),
    entered!(CivilRules, "26(a)(1)(C)", "26a1c", "26a1C": "14d/after/service/event/plain"),
    entered!(CivilRules, "26(a)(1)(D)", "26a1d", "26a1D": "30d/after/service/event/plain"),
    entered!("2010-12-01", CivilRules, "26(a)(2)(D)(i)", "26a2di", "26a2Di": "90d/before/service/event/plain"),
    entered!("2010-12-01", CivilRules, "26(a)(2)(D)(ii)", "26a2dii", "26a2Dii": "30d/after/service/event/plain"),
    entered!(CivilRules, "26(a)(3)(B)", "26a3b": "30d/before/service/event/plain", "14d/after/service/event/plain"),
    entered!("2015-12-01", CivilRules, "26(d)(2)", "26d2", "26d2": "21d/after/service/event/plain"),
    entered!(CivilRules, "26(f)(1)", "26f1", "26f1": "21d/before/service/event/plain"),
    entered!(CivilRules, "26(f)(2)", "26f2", "26f2": "14d/after/filing/event/plain"),
    entered!(CivilRules, "27(a)(2)", "27a2", "27a2": "21d/before/service/event/plain"),
    entered!(CivilRules, "30(e)(1)", "30e1", "30e1": "30d/after/service/event/plain"),
    entered!(CivilRules, "31(a)(5)", "31a5": "14d/after/service/served/plain", "7d/after/service/served/plain"),
    entered!(CivilRules, "33(b)(2)", "33b2", "33b2": "30d/after/service/served/plain"),
    entered!("2015-12-01", CivilRules, "34(b)(2)(A)", "34b2a": "30d/after/service/served/plain", "30d/after/service/event/plain"),
    entered!(CivilRules, "36(a)(3)", "36a3", "36a3": "30d/after/service/served/plain"),
    entered!(CivilRules, "38(b)(1)", "38b1": "14d/after/service/served/plain", "14d/after/service/event/plain"),
    entered!(CivilRules, "38(c)", "38c", "38c": "14d/after/service/served/plain"),
    entered!("2013-12-01", CivilRules, "45(d)(2)(B)", "45d2b", "45d2B": "14d/after/service/event/plain"),
    entered!(CivilRules, "50(b)", "50b", "50b": "28d/after/filing/event/50b"),
    entered!(CivilRules, "50(d)", "50d", "50d": "28d/after/filing/event/50d"),
    entered!(CivilRules, "52(b)", "52b", "52b": "28d/after/filing/event/52b"),
    entered!(CivilRules, "53(f)(2)", "53f2", "53f2": "21d/after/filing/served/plain"),
    entered!(CivilRules, "54(d)(1)", "54d1": "14d/after/filing/event/plain", "7d/after/service/event/plain"),
    entered!(CivilRules, "54(d)(2)(B)", "54d2b", "54d2B": "14d/after/filing/event/plain"),
    entered!(CivilRules, "55(b)(2)", "55b2", "55b2": "7d/before/service/event/plain"),
    entered!("2010-12-01", CivilRules, "56(b)", "56b", "56b": "30d/after/filing/event/plain"),
    entered!(CivilRules, "58(c)(2)(B)", "58c2b", "58c2B": "150d/after/filing/event/plain"),
    entered!(CivilRules, "59(c)", "59c", "59c": "14d/after/filing/served/plain"),
    entered!(CivilRules, "59(d)", "59d", "59d": "28d/after/filing/event/59d"),
    entered!("2018-12-01", CivilRules, "62(a)", "62a", "62a": "30d/after/filing/event/plain"),
    entered!(CivilRules, "65(b)(2)", "65b2", "65b2": "14d/after/filing/event/plain"),
    entered!(CivilRules, "65(b)(4)", "65b4", "65b4": "2d/before/service/event/plain"),
    entered!(CivilRules, "68(a)", "68a": "14d/before/service/event/plain", "14d/after/service/served/plain"),
    entered!(CivilRules, "68(c)", "68c", "68c": "14d/before/service/event/plain"),
    entered!(CivilRules, "71.1(e)(2)", "71 1e2", "71.1e2": "21d/after/service/event/plain"),
    entered!(CivilRules, "72(a)", "72a", "72a": "14d/after/filing/served/plain"),
    entered!(CivilRules, "72(b)(2)", "72b2", "72b2": "14d/after/filing/served/plain"),
    entered!(CivilRules, "81(c)(2)", "81c2": "21d/after/service/event/plain", "7d/after/service/event/plain"),
    entered!(CivilRules, "81(c)(2)(A)", "81c2a", "81c2A": "21d/after/service/event/plain"),
    entered!(CivilRules, "81(c)(2)(B)", "81c2b", "81c2B": "21d/after/service/event/plain"),
    entered!(CivilRules, "81(c)(2)(C)", "81c2c", "81c2C": "7d/after/service/event/plain"),
    entered!(CivilRules, "81(c)(3)(B)", "81c3b": "14d/after/service/event/plain", "14d/after/service/served/plain"),
    entered!(CivilRules, "81(c)(3)(B)(i)", "81c3bi", "81c3Bi": "14d/after/service/event/plain"),
    entered!(CivilRules, "81(c)(3)(B)(ii)", "81c3bii", "81c3Bii": "14d/after/service/served/plain"),
    entered!(ForfeitureRules, "Supp. G(4)(b)(ii)(B)", "g4biib", "G4biiB": "35d/after/filing/event/plain"),
    entered!(ForfeitureRules, "Supp. G(5)(a)(ii)(B)", "g5aiib": "30d/after/filing/event/plain", "60d/after/filing/event/plain"),
    entered!(ForfeitureRules, "Supp. G(5)(b)", "g5b", "G5b": "21d/after/filing/event/plain"),
    entered!(ForfeitureRules, "Supp. G(6)(b)", "g6b", "G6b": "21d/after/service/served/plain"),
    entered!("2012-01-06", Title28, "28 U.S.C. 1446(b)(1)", "1446b1", "1446b1": "30d/after/filing/event/60b"),
    entered!("2012-01-06", Title28, "28 U.S.C. 1446(b)(3)", "1446b3", "1446b3": "30d/after/filing/event/60b"),
    entered!("1996-10-01", Title28, "28 U.S.C. 1447(c)", "1447c", "1447c": "30d/after/filing/event/60b"),
    entered!("1977-01-19", Title28, "28 U.S.C. 1608(d)", "1608d", "1608d": "60d/after/service/event/plain"),
    entered!("1975-02-19", Title5, "5 U.S.C. 552(a)(4)(C)", "552a4c", "552a4C": "30d/after/service/event/plain"),
    entered!("1940-01-01", Title42, "42 U.S.C. 405(g)", "405g", "405g": "60d/after/filing/event/60b"),
    entered!("2022-12-01", SocialSecurityRules, "Supp. Soc. Sec. 4", "4", "socsec4": "60d/after/service/event/plain"),
    entered!("2022-12-01", SocialSecurityRules, "Supp. Soc. Sec. 6", "6", "socsec6": "30d/after/filing/event/plain"),
    entered!("2022-12-01", SocialSecurityRules, "Supp. Soc. Sec. 7", "7", "socsec7": "30d/after/filing/served/plain"),
    entered!("2022-12-01", SocialSecurityRules, "Supp. Soc. Sec. 8", "8", "socsec8": "14d/after/filing/served/plain"),
    entered!(AppellateRules, "FRAP 4(a)(1)", "4a1": "30d/after/filing/event/60b", "60d/after/filing/event/60b"),
    entered!(AppellateRules, "FRAP 4(a)(1)(A)", "4a1a", "frap4a1A": "30d/after/filing/event/60b"),
    entered!(AppellateRules, "FRAP 4(a)(1)(B)", "4a1b", "frap4a1B": "60d/after/filing/event/60b"),
    entered!(AppellateRules, "FRAP 4(a)(3)", "4a3", "frap4a3": "14d/after/filing/event/60b"),
    entered!(AppellateRules, "FRAP 4(a)(4)", "4a4": "30d/after/filing/event/60b", "60d/after/filing/event/60b"),
    entered!(AppellateRules, "FRAP 4(a)(5)", "4a5": "30d/after/filing/event/60b", "14d/after/filing/event/60b"),
];

// What comes before a section's number in each book, when it is folded.

const CIVIL_FRONTS: [&str; 4] = ["", "rule", "frcp", "fedrcivp"];

const FORFEITURE_FRONTS: [&str; 7] = [
    "",
    "rule",
    "supp",
    "suppr",
    "supprule",
    "supplementalrule",
    "fedrcivpsuppr",
];

const SOCIAL_SECURITY_FRONTS: [&str; 4] = [
    "suppsocsec",
    "supprsocsec",
    "supprulesfor405g",
    "socsec",
];

const APPELLATE_FRONTS: [&str; 2] = ["frap", "fedrappp"];

const TITLE_5_FRONTS: [&str; 2] = ["5usc", ""];

const TITLE_28_FRONTS: [&str; 2] = ["28usc", ""];

const TITLE_42_FRONTS: [&str; 2] = ["42usc", ""];

/// The sections that set a period which is entered.
#[tactic(auto, unfolding(crate::specs::Named::named_periods))]
pub fn named_periods() -> &'static [NamedPeriod]
    ensures { map period_view result.now ≡ named_periods }
{
    &SECTIONS[..]
}

/// What comes before the number of a section of that book, as people cite it, when it is folded.
pub fn fronts(book: RuleBook) -> &'static [&'static str]
    ensures { map (λ front. front.now) result.now ≡ fronts book }
{
    match book {
        RuleBook::CivilRules => &CIVIL_FRONTS,
        RuleBook::ForfeitureRules => &FORFEITURE_FRONTS,
        RuleBook::SocialSecurityRules => &SOCIAL_SECURITY_FRONTS,
        RuleBook::AppellateRules => &APPELLATE_FRONTS,
        RuleBook::Title5 => &TITLE_5_FRONTS,
        RuleBook::Title28 => &TITLE_28_FRONTS,
        RuleBook::Title42 => &TITLE_42_FRONTS,
    }
}

// Whether a folded word is this number after this front.
#[tactic(auto, unfolding(crate::specs::Named::is_number_after))]
fn is_number_after(front: &str, number: &str, word: &str) -> bool
    ensures { result ≡ is_number_after front.now number.now word.now }
{
    let (front, word) = (front.as_bytes(), word.as_bytes());
    word.starts_with(front) && word.split_at(front.len()).1 == number.as_bytes()
}

// Whether a folded word is this number after one of these fronts.
fn is_after_any(texts: &[&str], number: &str, word: &str) -> bool
    ensures { result ≡ list_any (λ front. is_number_after front number.now word.now) (map (λ text. text.now) texts.now) }
{
    match texts {
        [] => false,
        [front, rest @ ..] => {
            is_number_after(front, number, word) || is_after_any(rest, number, word)
        }
    }
}

// Whether a folded word cites a section.
#[tactic(auto, unfolding(crate::specs::Named::cites))]
fn cites(word: &str, period: &NamedPeriod) -> bool
    ensures { result ≡ cites word.now (period_view period.now) }
{
    is_after_any(fronts(period.book), period.number, word)
}

// The first of these sections that a folded word cites.
fn first_cited(word: &str, periods: &[NamedPeriod]) -> Option<NamedPeriod>
    ensures { option_map period_view result ≡ find (cites word.now) (map period_view periods.now) }
{
    match periods {
        [] => None,
        [period, rest @ ..] => {
            if cites(word, period) {
                Some(*period)
            } else {
                first_cited(word, rest)
            }
        }
    }
}

// The section that a folded word cites, if it is one of these.
#[tactic(auto, unfolding(crate::specs::Named::period_cited))]
fn period_cited(word: &str) -> Option<NamedPeriod>
    ensures { option_map period_view result ≡ period_cited word.now }
{
    first_cited(word, named_periods())
}

// The text of a section's period, or both.
fn texts_said(period: &NamedPeriod) -> Said<&'static str>
    ensures { said_map (λ text. text.now) result ≡ texts_said (period_view period.now) }
{
    match period.other {
        None => Said::Clear(period.text),
        Some(other) => Said::Unclear(period.text, other),
    }
}

// The texts of the periods that the section sets which a folded word cites.
#[tactic(auto, unfolding(crate::specs::Named::entered_said))]
fn entered_said(word: &str) -> Said<&'static str>
    ensures { said_map (λ text. text.now) result ≡ entered_said word.now }
{
    match period_cited(word) {
        None => Said::Unknown,
        Some(period) => texts_said(&period),
    }
}

/// The period that the section sets which a folded word cites: its code, or its text as it is entered.
#[tactic(auto, unfolding(crate::specs::Named::section_said))]
pub fn section_said(word: &str) -> Said<&'static str>
    ensures { said_map (λ text. text.now) result ≡ section_said word.now }
{
    match rule_said(word) {
        Said::Unknown => entered_said(word),
        Said::Clear(code) => Said::Clear(code),
        Said::Unclear(one, other) => Said::Unclear(one, other),
    }
}

// Whether this is the code of a section's period.
#[tactic(auto, unfolding(crate::specs::Named::has_code))]
fn has_code(text: &str, period: &NamedPeriod) -> bool
    ensures { result ≡ has_code text.now (period_view period.now) }
{
    match period.code {
        None => false,
        Some(code) => text.as_bytes() == code.as_bytes(),
    }
}

// The first of these sections whose period has this code.
fn first_coded(text: &str, periods: &[NamedPeriod]) -> Option<NamedPeriod>
    ensures { option_map period_view result ≡ find (has_code text.now) (map period_view periods.now) }
{
    match periods {
        [] => None,
        [period, rest @ ..] => {
            if has_code(text, period) {
                Some(*period)
            } else {
                first_coded(text, rest)
            }
        }
    }
}

/// The text of the period that has this code, as it is entered, if a section sets one that has it. A code has one spelling.
#[tactic(auto, unfolding(crate::specs::Named::text_coded))]
pub fn text_coded(text: &str) -> Option<&'static str>
    ensures { option_map (λ entered. entered.now) result ≡ text_coded text.now }
{
    match first_coded(text, named_periods()) {
        Some(period) => Some(period.text),
        None => None,
    }
}
