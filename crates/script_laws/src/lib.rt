// The laws of scripts: which texts are read, and as what.
#![tactic(auto)]

ghost use Rattle.std.specs.Prelude.{◌≡◌};
ghost use Rattle.script.specs.States.{answer};
ghost use Rattle.script.specs.Texts.{read_script};
ghost use Rattle.script_laws.specs.Exact.{Exactly};
ghost use Rattle.script_laws.specs.Laws.{AcceptsKept, AcceptsOnly};
ghost use Rattle.script_laws.specs.Lawful.{AcceptsLawful, LawfulKept};

use script::{Empty, Read, Unread};

// Reads a text, exactly if it is the listing of a script that keeps the rules.
#[tactic(auto, using(crate::proofs::Exact::exactly))]
pub fn read_exactly(empty: Empty, text: &[u8]) -> Result<Read, Unread>
    ensures value { answer result ≡ read_script text.now }
    ensures exact { Exactly text.now (answer result) }
{
    empty.read(text)
}

// The theorems behind it.
pub fn scripts_round_trip()
    ensures kept { AcceptsKept }
    ensures only { AcceptsOnly }
    ensures lawful { AcceptsLawful }
    ensures enough { LawfulKept }
{}
