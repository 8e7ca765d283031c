//! What each list begins with.

ghost use Rattle.std.specs.Prelude.{◌≡◌};
ghost use Rattle.court_writing.specs.Sources.{list_source, state_source};

use court_days::HolidayList;
use court_holidays::State;

/// What the list begins with: whose holidays these are, and the law that sets them.
pub(crate) fn list_source(state: State, list: HolidayList) -> &'static str
    ensures { result.now ≡ list_source state list }
{
    match list {
        HolidayList::Federal =>
            "# Legal holidays of the United States, Fed. R. Civ. P. 6(a)(6)(A) and 5 U.S.C. 6103(a)",
        HolidayList::State => state_source(state),
    }
}

/// What the state's list begins with: whose holidays these are, and the statute that names them.
fn state_source(state: State) -> &'static str
    ensures { result.now ≡ state_source state }
{
    match state {
        State::Alabama =>
            "# Holidays of the State of Alabama that aren't in the list above, Code of Alabama section 1-3-8",
        State::Alaska =>
            "# Holidays of the State of Alaska that aren't in the list above, Alaska Statutes section 44.12.010",
        State::Arizona =>
            "# Holidays of the State of Arizona that aren't in the list above, Arizona Revised Statutes section 1-301",
        State::Arkansas =>
            "# Holidays of the State of Arkansas that aren't in the list above, Arkansas Code section 1-5-101",
        State::California =>
            "# Holidays of the State of California that aren't in the list above, Government Code section 6700",
        State::Colorado =>
            "# Holidays of the State of Colorado that aren't in the list above, Colorado Revised Statutes section 24-11-101",
        State::Connecticut =>
            "# Holidays of the State of Connecticut that aren't in the list above, Connecticut General Statutes section 1-4",
        State::Delaware =>
            "# Holidays of the State of Delaware that aren't in the list above, Delaware Code title 1, section 501",
        State::DistrictOfColumbia =>
            "# Holidays of the District of Columbia that aren't in the list above, D.C. Code section 28-2701",
        State::Florida =>
            "# Holidays of the State of Florida that aren't in the list above, Florida Statutes section 683.01",
        State::Georgia =>
            "# Holidays of the State of Georgia that aren't in the list above: none is named by statute. O.C.G.A. section 1-4-1",
        State::Guam =>
            "# Holidays of Guam that aren't in the list above, 1 Guam Code Annotated section 1000",
        State::Hawaii =>
            "# Holidays of the State of Hawaii that aren't in the list above, Hawaii Revised Statutes section 8-1",
        State::Idaho =>
            "# Holidays of the State of Idaho that aren't in the list above, Idaho Code section 73-108",
        State::Illinois =>
            "# Holidays of the State of Illinois that aren't in the list above, Promissory Note and Bank Holiday Act, 205 ILCS\n# 630/17",
        State::Indiana =>
            "# Holidays of the State of Indiana that aren't in the list above, Indiana Code section 1-1-9-1",
        State::Iowa =>
            "# Holidays of the State of Iowa that aren't in the list above, Iowa Code sections 1C.1 and 4.1",
        State::Kansas =>
            "# Holidays of the State of Kansas that aren't in the list above, Kansas Statutes section 35-107",
        State::Kentucky =>
            "# Holidays of the Commonwealth of Kentucky that aren't in the list above, Kentucky Revised Statutes section 2.110",
        State::Louisiana =>
            "# Holidays of the State of Louisiana that aren't in the list above, Louisiana Revised Statutes section 1:55",
        State::Maine =>
            "# Holidays of the State of Maine that aren't in the list above, Maine Revised Statutes title 4, section 1051",
        State::Maryland =>
            "# Holidays of the State of Maryland that aren't in the list above, General Provisions Article section 1-111",
        State::Massachusetts =>
            "# Holidays of the Commonwealth of Massachusetts that aren't in the list above, Massachusetts General Laws chapter 4,\n# section 7, clause 18",
        State::Michigan =>
            "# Holidays of the State of Michigan that aren't in the list above, Michigan Compiled Laws section 435.101",
        State::Minnesota =>
            "# Holidays of the State of Minnesota that aren't in the list above, Minnesota Statutes section 645.44",
        State::Mississippi =>
            "# Holidays of the State of Mississippi that aren't in the list above, Mississippi Code section 3-3-7",
        State::Missouri =>
            "# Holidays of the State of Missouri that aren't in the list above, Missouri Revised Statutes section 9.010",
        State::Montana =>
            "# Holidays of the State of Montana that aren't in the list above, Montana Code section 1-1-216",
        State::Nebraska =>
            "# Holidays of the State of Nebraska that aren't in the list above, Nebraska Revised Statutes section 62-301",
        State::Nevada =>
            "# Holidays of the State of Nevada that aren't in the list above, Nevada Revised Statutes section 236.015",
        State::NewHampshire =>
            "# Holidays of the State of New Hampshire that aren't in the list above, Revised Statutes section 288:1",
        State::NewJersey =>
            "# Holidays of the State of New Jersey that aren't in the list above, New Jersey Statutes section 36:1-1, and Public\n# Law 2020, chapter 76",
        State::NewMexico =>
            "# Holidays of the State of New Mexico that aren't in the list above, New Mexico Statutes section 12-5-2",
        State::NewYork =>
            "# Holidays of the State of New York that aren't in the list above, General Construction Law section 24",
        State::NorthCarolina =>
            "# Holidays of the State of North Carolina that aren't in the list above, General Statutes section 103-4",
        State::NorthDakota =>
            "# Holidays of the State of North Dakota that aren't in the list above, North Dakota Century Code section 1-03-01",
        State::NorthernMarianaIslands =>
            "# Holidays of the Northern Mariana Islands that aren't in the list above, 1 N. Mar. I. Code section 311",
        State::Ohio =>
            "# Holidays of the State of Ohio that aren't in the list above, Ohio Revised Code section 1.14",
        State::Oklahoma =>
            "# Holidays of the State of Oklahoma that aren't in the list above, Oklahoma Statutes title 25, section 82.1",
        State::Oregon =>
            "# Holidays of the State of Oregon that aren't in the list above, Oregon Revised Statutes section 187.010",
        State::Pennsylvania =>
            "# Holidays of the Commonwealth of Pennsylvania that aren't in the list above, 44 Pennsylvania Statutes section 11",
        State::PuertoRico =>
            "# Holidays of the Commonwealth of Puerto Rico that aren't in the list above, Act No. 111-2014",
        State::RhodeIsland =>
            "# Holidays of the State of Rhode Island that aren't in the list above, Rhode Island General Laws section 25-1-1",
        State::SouthCarolina =>
            "# Holidays of the State of South Carolina that aren't in the list above, Code of South Carolina section 53-5-10",
        State::SouthDakota =>
            "# Holidays of the State of South Dakota that aren't in the list above, Codified Laws section 1-5-1",
        State::Tennessee =>
            "# Holidays of the State of Tennessee that aren't in the list above, Tennessee Code section 15-1-101",
        State::Texas =>
            "# State holidays of the State of Texas that aren't in the list above, Texas Government Code section 662.003(b)",
        State::Utah =>
            "# Holidays of the State of Utah that aren't in the list above, Utah Code section 63G-1-301",
        State::Vermont =>
            "# Holidays of the State of Vermont that aren't in the list above, Vermont Statutes title 1, section 371",
        State::VirginIslands =>
            "# Holidays of the Virgin Islands that aren't in the list above, 1 Virgin Islands Code section 171",
        State::Virginia =>
            "# Holidays of the Commonwealth of Virginia that aren't in the list above, Code of Virginia section 2.2-3300",
        State::Washington =>
            "# Holidays of the State of Washington that aren't in the list above, Revised Code of Washington section 1.16.050",
        State::WestVirginia =>
            "# Holidays of the State of West Virginia that aren't in the list above, West Virginia Code section 2-2-1",
        State::Wisconsin =>
            "# Holidays of the State of Wisconsin that aren't in the list above, Wisconsin Statutes section 995.20",
        State::Wyoming =>
            "# Holidays of the State of Wyoming that aren't in the list above, Wyoming Statutes section 8-4-101",
    }
}
