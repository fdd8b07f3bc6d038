// Names and their bytes.
ghost use Rattle.std.specs.Prelude.{◌≡◌, if◌then◌else◌, Some, None};
ghost use Rattle.words.specs.Names.{lowers, is_name};

use crate::name::Name;
use crate::reading::cut;

fn are_lower(bytes: &[u8]) -> bool
    ensures { result ≡ lowers bytes.now }
{
    bytes.iter().all(|b| b.is_ascii_lowercase())
}

// Whether the bytes are 1 to 8 lowercase letters.
pub(crate) fn is_name(bytes: &[u8]) -> bool
    ensures { result ≡ is_name bytes.now }
{
    (1..=8).contains(&bytes.len()) && are_lower(bytes)
}

impl Name {
    // The name that the bytes spell, if they spell one.
    pub fn new(bytes: &[u8]) -> Option<Name>
        ensures { result ≡ (if is_name bytes.now then Some bytes.now else None) }
    {
        if !is_name(bytes) {
            return None;
        }
        let mut letters = [0; 8];
        letters[..bytes.len()].copy_from_slice(bytes);
        Some(Name { letters })
    }

    // The bytes that spell it.
    pub fn as_bytes(&self) -> &[u8]
        ensures { result.now ≡ self.now }
    {
        let (letters, _) = cut(&self.letters, 0);
        letters
    }
}
