use item_types::Text;

/// An entry of a constant pool (JVMS 4.4). The numbers in the kinds that refer to others are
/// indices into the same pool.
#[derive(Debug, Drop)]
pub enum Entry {
    /// A text (JVMS 4.4.7).
    Utf8(Text),
    /// An int (JVMS 4.4.4).
    Integer(u32),
    /// The bits of a float (JVMS 4.4.4).
    Float(u32),
    /// A long (JVMS 4.4.5). A `Gap` follows it.
    Long(i64),
    /// The bits of a double (JVMS 4.4.5). A `Gap` follows it.
    Double(u64),
    /// A class, by its name's text (JVMS 4.4.1).
    Class(u16),
    /// A string, by its text (JVMS 4.4.3).
    Str(u16),
    /// A field of a class, by class and name and type (JVMS 4.4.2).
    Field(u16, u16),
    /// A method of a class, by class and name and type (JVMS 4.4.2).
    Method(u16, u16),
    /// A method of an interface, by class and name and type (JVMS 4.4.2).
    Interface(u16, u16),
    /// A name and a descriptor, by their texts (JVMS 4.4.6).
    NameType(u16, u16),
    /// The index behind a `Long` or a `Double`, which holds nothing.
    Gap,
}
