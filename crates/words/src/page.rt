// A page: a buffer that is written from the front.
ghost use Rattle.std.specs.Prelude.{◌≡◌, true, [], ◌∷◌, length};
ghost use Rattle.std.specs.Fmt.{decimal, signed_decimal};
ghost use Rattle.words.specs.Shows.{show_word, show_field, show_marked, field_said};
ghost use Rattle.words.specs.Pages.{Begins, BeginsAt, Wrote, Put, fits, page_len, less, left};

use crate::field::{Field, digits};
use crate::refusal::Refusal;
use itoa::write_digits;

// The bytes of `out`, of which the first `len` are written. Not std's `Cursor<&mut [u8]>`: its `write` does not say that
// the reference stays the same, so its caller would learn nothing of `out`. Nor `write!`: what it ensures holds where
// it succeeds, and a line that does not fit has to leave the page as it was. That `len` is within `out` is no ghost field,
// which the check does not cover beside a `&mut`.
#[derive(Drop)]
pub struct Page<'a> {
    out: &'a mut [u8],
    len: usize,
}

// What is left of `room` bytes after a space and the field, if they fit.
fn after_field(room: usize, field: &Field) -> Option<usize>
    ensures { result ≡ less room (length (show_field (field_said field.now))) }
{
    room.checked_sub(1)?.checked_sub(field.width())
}

impl<'a> Page<'a> {
    // Nothing is written yet.
    pub fn new(out: &'a mut [u8]) -> Page<'a>
        ensures { Begins out.entry result }
    {
        Page { out, len: 0 }
    }

    // What stands before that place counts as written. Where the place lies behind the buffer, nothing fits.
    pub fn at(out: &'a mut [u8], place: usize) -> Page<'a>
        ensures { BeginsAt out.entry place result }
    {
        Page { out, len: place }
    }

    // How many bytes are written.
    pub fn len(&self) -> usize
        ensures { result ≡ page_len self.now }
    {
        self.len
    }

    // Writes the bytes next, where there is room for them.
    fn push(&mut self, bytes: &[u8])
        requires { fits self.old bytes.now ≡ true }
        ensures { Wrote self.old bytes.now self.new }
    {
        let Page { out, len } = self;
        let end = *len + bytes.len();
        out[*len..end].copy_from_slice(bytes);
        *len = end;
    }

    // The same for one byte.
    fn push_byte(&mut self, b: u8)
        requires { fits self.old (b ∷ []) ≡ true }
        ensures { Wrote self.old (b ∷ []) self.new }
    {
        let Page { out, len } = self;
        out[*len] = b;
        *len += 1;
    }

    // The same for a number, whose digits are written in their place.
    fn push_number(&mut self, n: u32)
        requires { fits self.old (decimal n) ≡ true }
        ensures { Wrote self.old (decimal n) self.new }
    {
        let Page { out, len } = self;
        let end = *len + digits(n);
        let _ = write_digits(u64::from(n), out, end);
        *len = end;
    }

    // The same for a number with its sign.
    fn push_integer(&mut self, z: i32)
        requires { fits self.old (signed_decimal z) ≡ true }
        ensures { Wrote self.old (signed_decimal z) self.new }
    {
        if z < 0 {
            self.push_byte(b'-');
        }
        self.push_number(z.unsigned_abs());
    }

    // The same for a register's letter and number.
    fn push_register(&mut self, letter: u8, n: u8)
        requires { fits self.old (letter ∷ decimal n) ≡ true }
        ensures { Wrote self.old (letter ∷ decimal n) self.new }
    {
        self.push_byte(letter);
        self.push_number(u32::from(n));
    }

    // The same for a field's word.
    fn push_word(&mut self, field: &Field)
        requires { fits self.old (show_word (field_said field.now)) ≡ true }
        ensures { Wrote self.old (show_word (field_said field.now)) self.new }
    {
        match field {
            Field::Name(name) => self.push(name.as_bytes()),
            Field::Integer(z) => self.push_integer(*z),
            Field::Natural(n) => self.push_number(*n),
            Field::Value(n) => self.push_register(b'v', *n),
            Field::Handle(n) => self.push_register(b'h', *n),
        }
    }

    // The same for a space and a field.
    fn push_field(&mut self, field: &Field)
        requires { fits self.old (show_field (field_said field.now)) ≡ true }
        ensures { Wrote self.old (show_field (field_said field.now)) self.new }
    {
        self.push_byte(b' ');
        self.push_word(field);
    }

    // The same for a mark and fields.
    fn push_fields(&mut self, mark: &[u8], fields: &[Field])
        requires { fits self.old (show_marked mark.now fields.now) ≡ true }
        ensures { Wrote self.old (show_marked mark.now fields.now) self.new }
    {
        self.push(mark);
        for field in fields {
            self.push_field(field);
        }
    }

    // How much room is left after a mark and fields, if they fit.
    fn room_after(&self, mark: &[u8], fields: &[Field]) -> Option<usize>
        ensures { result ≡ left self.now (show_marked mark.now fields.now) }
    {
        let Page { out, len } = self;
        let room = out.len().checked_sub(*len)?;
        let left = room.checked_sub(mark.len())?;
        fields.iter().try_fold(left, after_field)
    }

    // Writes a mark and its fields next; writes nothing where they do not fit. The two go side by side: a value of both would
    // be made for each line that is listed, and taken apart here.
    pub fn put_fields(&mut self, mark: &[u8], fields: &[Field]) -> Result<(), Refusal>
        ensures { Put self.old (show_marked mark.now fields.now) self.new result }
    {
        self.room_after(mark, fields).ok_or(Refusal::Small)?;
        self.push_fields(mark, fields);
        Ok(())
    }

    // Writes the end of a line next, or nothing where it does not fit.
    pub fn end_line(&mut self) -> Result<(), Refusal>
        ensures { Put self.old (10 ∷ []) self.new result }
    {
        let Page { out, len } = self;
        if *len >= out.len() {
            return Err(Refusal::Small);
        }
        self.push_byte(b'\n');
        Ok(())
    }
}
