//! Laws of the report. This function does nothing: it is called for what it ensures.
ghost use Rattle.report_views.specs.SameReport.{HaveOneReport};

/// Two answers on the same hosts that differ but in the points by which lines and contradictions are told have one report.
pub fn same_report()
    ensures { HaveOneReport }
{}
