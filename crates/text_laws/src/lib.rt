// The laws of words and lines: reading and listing undo each other.
#![tactic(auto)]

ghost use Rattle.text_laws.specs.Laws.{ReadsBack, ListsBack, NoEnd};

pub fn lines_round_trip()
    ensures reads { ReadsBack }
    ensures lists { ListsBack }
    ensures ends { NoEnd }
{}
