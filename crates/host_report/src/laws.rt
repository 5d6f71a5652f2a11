//! The laws of reports. Each function does nothing: its clauses are theorems over all listings
//! whose numbers are within their types.

ghost use Rattle.std.specs.Prelude.{◌≡◌, map};
ghost use Rattle.std.specs.List.{AllByRecursion};
ghost use Rattle.text_lines.specs.Lines.{AreWords, lines, words};
ghost use Rattle.ledger_model.specs.declared.listing.Listing.{Listing};
ghost use Rattle.ledger_model.specs.Report.{report, report_lines};
ghost use Rattle.host_report.specs.OneText.{OneTextOneListing, TextFixesListing};
ghost use Rattle.host_report.specs.WithinTypes.{IsWithinTypes};

/// Two listings that have one report are equal, whatever they are listings of, where each is shown whole
/// by its report and both have as many maps and slots. Empty maps and slots have no line of their own.
pub fn one_text_one_listing()
    ensures { OneTextOneListing }
{}

/// Two listings that replay one job and have one report are equal.
pub fn text_fixes_listing()
    ensures { TextFixesListing }
{}

/// Each line of a report is a row of words, so a report can be read: the words of its lines are
/// the rows of words that it was made of.
pub fn lines_come_back()
    ensures words { (listing : Listing) → IsWithinTypes listing →
        AllByRecursion AreWords (report_lines listing) }
    ensures again { (listing : Listing) → IsWithinTypes listing →
        map words (lines (report listing)) ≡ report_lines listing }
{}
