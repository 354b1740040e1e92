/// What an operation sees of a value. `T` is a text, as `&str`.
#[derive(Clone, Copy)]
pub enum Operand<T> {
    Null,
    Bool(bool),
    Long(i64),
    Str(T),
    /// A list, with how many elements it has.
    List(i64),
    /// A bean, a recorder, a proxy: no operation here takes it.
    Other,
}
