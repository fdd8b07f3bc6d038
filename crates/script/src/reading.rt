// Reading a text into an empty script.
ghost use Rattle.std.specs.Prelude.{◌≡◌, IfOk};
ghost use Rattle.script.specs.Texts.{read_script};
ghost use Rattle.script.specs.Drafts.{blank};
ghost use Rattle.script.specs.States.{answer, ListedBack};

use crate::draft::Draft;
use crate::state::{Empty, Read, Unread};
use std::alloc::{AllocError, Global};
use words::{Fault, Refusal};

impl Empty {
    // An empty script, unless memory is wanting.
    pub fn new(heap: Global) -> Result<Empty, AllocError>
        ensures { IfOk result (λ e. e.draft ≡ blank) }
    {
        let draft = Draft::new(heap)?;
        Ok(Empty { draft })
    }

    // Reads the text, or gives the empty script back with the text's first fault.
    pub fn read(self, text: &[u8]) -> Result<Read, Unread>
        ensures value { answer result ≡ read_script text.now }
        ensures listed { IfOk result (λ s. ListedBack s text.now) }
    {
        if text.len() > 32768 {
            let fault = Refusal::Overlong.at(0);
            return Err(Unread {
                script: self,
                fault,
            });
        }
        let Empty { mut draft } = self;
        match draft.read_text(text) {
            Ok(()) => Ok(Read {
                draft,
                size: text.len(),
            }),
            Err(fault) => {
                draft.clear();
                Err(Unread {
                    script: Empty { draft },
                    fault,
                })
            }
        }
    }
}
