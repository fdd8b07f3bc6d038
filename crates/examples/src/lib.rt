// The worked examples, each computed from the definitions: from the text of a script to the lines that are printed.
#![tactic(auto)]

ghost use Rattle.examples.specs.Table.{TableHolds};

// Every row of the table holds.
pub fn examples_stand()
    ensures { TableHolds }
{}
