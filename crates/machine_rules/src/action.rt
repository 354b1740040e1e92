/// What an object is made as.
#[derive(Clone, Copy, Debug, PartialEq, Eq)]
pub enum Kind {
    /// A list.
    List,
    /// A bean of this number.
    Bean(u32),
    /// An object of the recorder of this number.
    Recorder(u32),
}

/// What an instruction does inside its frame, with all that it names resolved. A text stands in
/// the form `T`.
#[derive(Drop)]
pub enum Action<T> {
    /// `aconst_null`
    AconstNull,
    /// `iconst_0` and `iconst_1`
    Iconst(bool),
    /// `ldc` and `ldc_w`
    LdcText(T),
    /// `ldc2_w`
    LdcLong(i64),
    /// `aload`, `aload_0` and `wide aload`, with the local's number.
    Aload(u16),
    /// `pop`
    Pop,
    /// `dup`
    Dup,
    /// `getstatic`, with the number of the loaded class and the place of the field among its fields.
    GetStatic(usize, usize),
    /// `putstatic`, as `getstatic`.
    PutStatic(usize, usize),
    /// `putfield`, with the bean's number and the place of the field.
    PutField(u32, u32),
    /// `new` of an object.
    New(Kind),
    /// `new` of the context.
    NewContext,
    /// `invokespecial` of an object's `<init>`.
    Init(Kind),
    /// `invokespecial` of the context's `<init>`.
    InitContext,
    /// `invokevirtual` of `ArrayList.add`.
    Add,
    /// `invokevirtual` of the context's `putValue`.
    PutValue,
    /// `invokevirtual` of the context's `getValue`.
    GetValue,
    /// `invokestatic` of `Boolean.valueOf`.
    BooleanOf,
    /// `invokestatic` of `Long.valueOf`.
    LongOf,
    /// `invokevirtual` of a recorder's method, with the numbers of the recorder and of the method,
    /// and how many parameters it has.
    Invoke(u32, u32, usize),
}

/// An instruction, with all that it names resolved.
#[derive(Drop)]
pub enum Row<T> {
    /// One that leaves its frame's locals as they are, and stays in it.
    Do(Action<T>),
    /// `astore` and `wide astore`, with the local's number.
    Store(u16),
    /// `invokestatic` of a method of a loaded class: the class's number, the method's place among
    /// the class's methods, and how many parameters it has.
    Enter(usize, usize, usize),
    /// `return`
    Return,
}

/// The two methods of `app/Main` that a startup runs.
#[derive(Clone, Copy, Debug, PartialEq, Eq)]
pub enum First {
    /// `<clinit>`
    Initializer,
    /// `start`
    Start,
}
