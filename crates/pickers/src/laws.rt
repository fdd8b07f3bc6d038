// What is proved of pickers apart from any call: the law of replay and the worked examples.
ghost use Rattle.pickers.specs.Examples.{Examples};
ghost use Rattle.pickers.specs.Recording.{Replays, ReplaysChoices, TurningDecides};

// A schedule made of the answers of a picker, of any meaning, gives again those that named a case; where they are steady it
// gives all of them, and leads to the same choices.
// A turning picker names a case wherever one is ready, so that all its answers are played again.
pub fn replays_stand()
    ensures answers { Replays }
    ensures choices { ReplaysChoices }
    ensures turning { TurningDecides }
{}

// The worked examples, each one computed from the definitions.
#[tactic(auto, unfolding(crate::specs::Sets::has, crate::specs::Sets::cases, crate::specs::Sets::onward))]
pub fn examples_stand()
    ensures { Examples }
{}
