// What holds of every report, for users of reports to cite.
ghost use Rattle.reports.specs.Bounds.{ShortReports};
ghost use Rattle.reports.specs.Examples.{Examples};

// No report is longer than 128 bytes.
pub fn reports_are_short()
    ensures { ShortReports }
{}

// The worked examples, each one computed from the definitions.
pub fn examples_stand()
    ensures { Examples }
{}
