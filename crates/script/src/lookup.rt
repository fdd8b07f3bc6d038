// Looking a name up among what goes by names.
ghost use Rattle.std.specs.Prelude.{◌≡◌, ℕ, List, map};
ghost use Rattle.script.specs.Rules.{place};

use words::Name;

// What goes by a name.
pub trait Named {
    ghost named: { Self → List ℕ };

    fn name(&self) -> Name
        ensures { result ≡ named self.now };
}

impl Named for Name {
    ghost named = { λ n. n };

    fn name(&self) -> Name {
        *self
    }
}

// The first place at which something of that name stands. One after the other, and by no map: there are at most 32, and
// reading allocates nothing, which entering a name in a map would do.
pub fn find<T: Named>(items: &[T], name: &Name) -> Option<usize>
    ensures { result ≡ place name.now (map T.named items.now) }
{
    // not `==` on names: tried, and its contract compares the letters filled up with zeros, by which [] is [0] too
    items
        .iter()
        .map(|item| item.name())
        .position(|other| other.as_bytes() == name.as_bytes())
}
