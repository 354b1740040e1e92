ghost use Rattle.std.specs.Prelude.{◌≡◌};
ghost use Rattle.class_pool.specs.Tags as spec;

/// The tag that an entry of a constant pool begins with (JVMS 4.4): which kind of entry it is.
#[derive(Clone, Copy, Debug, PartialEq, Eq)]
pub enum Tag {
    Utf8,
    Integer,
    Float,
    Long,
    Double,
    Class,
    Str,
    Field,
    Method,
    Interface,
    NameType,
}

impl Tag {
    /// The tag of a byte, none where no entry that is read here has it.
    pub fn of(byte: u8) -> Option<Tag>
        ensures { result ≡ spec.tag_of byte }
    {
        match byte {
            1 => Some(Tag::Utf8),
            3 => Some(Tag::Integer),
            4 => Some(Tag::Float),
            5 => Some(Tag::Long),
            6 => Some(Tag::Double),
            7 => Some(Tag::Class),
            8 => Some(Tag::Str),
            9 => Some(Tag::Field),
            10 => Some(Tag::Method),
            11 => Some(Tag::Interface),
            12 => Some(Tag::NameType),
            _ => None,
        }
    }

    /// The byte.
    pub fn byte(self) -> u8
        ensures { result ≡ spec.byte_of self }
    {
        match self {
            Tag::Utf8 => 1,
            Tag::Integer => 3,
            Tag::Float => 4,
            Tag::Long => 5,
            Tag::Double => 6,
            Tag::Class => 7,
            Tag::Str => 8,
            Tag::Field => 9,
            Tag::Method => 10,
            Tag::Interface => 11,
            Tag::NameType => 12,
        }
    }
}
