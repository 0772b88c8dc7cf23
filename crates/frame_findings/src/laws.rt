//! What holds of findings and reports. The functions do nothing: what each ensures is the law.

ghost use Rattle.frame_findings.specs.Laws.{FramesStay, OneFindings, OneReports, SomeFindings, SomeReports};

/// Every capture has exactly one list of findings (own).
pub fn one_reception()
    ensures some { SomeFindings }
    ensures no_other { OneFindings }
{}

/// The frames of a list of samples are a prefix of the frames of each longer list that begins with it (own).
pub fn frames_stay()
    ensures { FramesStay }
{}

/// Every capture has exactly one list of reports on its edges (own).
pub fn one_report()
    ensures some { SomeReports }
    ensures no_other { OneReports }
{}
