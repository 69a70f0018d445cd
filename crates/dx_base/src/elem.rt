//! The types of values, and their ranges.
ghost use Rattle.std.specs.Prelude.{◌≡◌};
ghost use Rattle.dx_base.specs.Elem as spec;

/// The type of an array's values.
#[derive(Clone, Copy, Debug, PartialEq, Eq)]
pub enum ElemType {
    /// Signed, 8 bits.
    Byte,
    /// Unsigned, 8 bits.
    UByte,
    /// Signed, 16 bits.
    Short,
    /// Unsigned, 16 bits.
    UShort,
    /// Signed, 32 bits.
    Int,
    /// Unsigned, 32 bits.
    UInt,
}

impl ElemType {
    /// How many bytes a value of the type states.
    pub fn byte_count(self) -> u64
        ensures { result ≡ spec.byte_count self }
    {
        match self {
            ElemType::Byte | ElemType::UByte => 1,
            ElemType::Short | ElemType::UShort => 2,
            ElemType::Int | ElemType::UInt => 4,
        }
    }

    /// The least number of the type.
    pub fn lowest(self) -> i64
        ensures { result ≡ spec.lowest self }
    {
        match self {
            ElemType::Byte => -128,
            ElemType::Short => -32768,
            ElemType::Int => -2147483648,
            ElemType::UByte | ElemType::UShort | ElemType::UInt => 0,
        }
    }

    /// The greatest number of the type.
    pub fn highest(self) -> i64
        ensures { result ≡ spec.highest self }
    {
        match self {
            ElemType::Byte => 127,
            ElemType::UByte => 255,
            ElemType::Short => 32767,
            ElemType::UShort => 65535,
            ElemType::Int => 2147483647,
            ElemType::UInt => 4294967295,
        }
    }
}

/// Whether a number is one of the type.
pub fn in_range(t: ElemType, v: i64) -> bool
    ensures { result ≡ spec.in_range t v }
{
    t.lowest() <= v && v <= t.highest()
}
