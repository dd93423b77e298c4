use crate::fault::ReportFault;
use aea_report::Line;

/// What comes next in a report: the line of a block, or its end.
#[derive(Debug, Drop)]
pub enum Next {
    Line { line: Line },
    End,
}

/// How a reader ended: with the end of the report, or with a fault, which it returns from then on.
#[derive(Clone, Copy, Debug, PartialEq, Eq)]
pub enum Ending {
    Ended,
    Failed { fault: ReportFault },
}
