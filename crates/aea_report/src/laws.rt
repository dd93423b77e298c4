//! What follows of the definitions.

ghost use Rattle.aea_report.specs.Laws.{HaveOneReading, ReportsAreNotBad, AreBadAtOneLine, AreReportOrBad, LinesAreShort, PrintedAreReports, PrintedReportsFit, PrintedAreOne};

use aea_lattice::{
    blocks_are_inside, passing_are_among, reached_are_determined, words_are_one,
    words_miss_determined,
};

/// No text is a report in two ways.
pub fn reports_have_one_reading()
    ensures { HaveOneReading }
{}

/// A report is bad or too long at no line.
pub fn reports_are_not_bad()
    ensures { ReportsAreNotBad }
{}

/// No text is bad or too long at two lines, or bad and too long.
pub fn reports_are_bad_at_one_line()
    ensures { AreBadAtOneLine }
{}

/// Each text is a report, or bad at a line, or too long at a line.
pub fn each_is_a_report_or_bad()
    ensures { AreReportOrBad }
{}

/// No line of a report has 7,400,000 bytes.
pub fn lines_are_short()
    ensures { LinesAreShort }
{}

/// What is printed for the blocks that are known is a report.
pub fn printed_are_reports()
    ensures { PrintedAreReports }
{
    blocks_are_inside();
}

/// What is printed for the known blocks fits where exactly the blocks that they determine are intact: the codeword of a lost
/// block contains no restored block either.
pub fn printed_reports_fit()
    ensures { PrintedReportsFit }
{
    blocks_are_inside();
    passing_are_among();
    reached_are_determined();
    words_miss_determined();
}

/// For a lattice, its known blocks and a seal one report is printed.
pub fn printed_are_one()
    ensures { PrintedAreOne }
{
    blocks_are_inside();
    reached_are_determined();
    words_are_one();
}
