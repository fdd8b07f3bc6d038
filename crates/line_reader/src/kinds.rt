// The kinds of field that a line has, and how each is read.
ghost use Rattle.lines.specs.Lines.{Reader, only, both, as_value, as_handle, as_integer, as_natural, as_name, as_operand};
ghost use Rattle.line_reader.specs.Reads.{Reads};

use crate::fields::Fields;
use lines::Operand;
use words::{Fault, Name, Word};

// A kind of field, or several of them: `reader` is what the specification reads.
pub(crate) trait Kind {
    type Out: Drop;

    ghost reader: { Reader Self.Out };

    fn read(fields: &mut Fields<'_>) -> Result<Self::Out, Fault>
        ensures { Reads reader fields.old result fields.new };
}

// A value register.
pub(crate) enum Value {}

impl Kind for Value {
    type Out = u8;

    ghost reader = { only as_value };

    fn read(fields: &mut Fields<'_>) -> Result<u8, Fault> {
        fields.only(|word| match word {
            Word::Value(v) => Some(v),
            _ => None,
        })
    }
}

// A handle register. Apart from `Value`: the two differ in the variant of a pattern, and a variant is no parameter.
pub(crate) enum Handle {}

impl Kind for Handle {
    type Out = u8;

    ghost reader = { only as_handle };

    fn read(fields: &mut Fields<'_>) -> Result<u8, Fault> {
        fields.only(|word| match word {
            Word::Handle(h) => Some(h),
            _ => None,
        })
    }
}

// A number.
impl Kind for i32 {
    type Out = i32;

    ghost reader = { only as_integer };

    fn read(fields: &mut Fields<'_>) -> Result<i32, Fault> {
        fields.only(|word| match word {
            Word::Number(n) => Some(n),
            _ => None,
        })
    }
}

// A number without a minus: a capacity, a target, or how many cases.
impl Kind for u32 {
    type Out = u32;

    ghost reader = { only as_natural };

    fn read(fields: &mut Fields<'_>) -> Result<u32, Fault> {
        fields.only(|word| match word {
            Word::Number(n) => u32::try_from(n).ok(),
            _ => None,
        })
    }
}

// A name, held by value.
impl Kind for Name {
    type Out = Name;

    ghost reader = { only as_name };

    fn read(fields: &mut Fields<'_>) -> Result<Name, Fault> {
        fields.only(|word| match word {
            Word::Name(bytes) => Name::new(bytes),
            _ => None,
        })
    }
}

pub(crate) type Channel = Operand<Name>;

// The name of a channel, or a handle register.
impl Kind for Channel {
    type Out = Channel;

    ghost reader = { only as_operand };

    fn read(fields: &mut Fields<'_>) -> Result<Channel, Fault> {
        fields.only(|word| match word {
            Word::Name(bytes) => Name::new(bytes).map(Operand::Named),
            Word::Handle(h) => Some(Operand::Held(h)),
            _ => None,
        })
    }
}

// One after the other.
impl<A: Kind, B: Kind> Kind for (A, B) {
    type Out = (A::Out, B::Out);

    ghost reader = { both A.reader B.reader };

    fn read(fields: &mut Fields<'_>) -> Result<(A::Out, B::Out), Fault> {
        let a = A::read(fields)?;
        let b = B::read(fields)?;
        Ok((a, b))
    }
}

pub(crate) type TwoValues = (Value, Value);

pub(crate) type HandleValue = (Handle, Value);
