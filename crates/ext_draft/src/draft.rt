use item_types::{BeanDecl, ItemDecl, Phase, Seq, Text};

/// An entry of `consumes`, its item not looked up yet.
#[derive(Drop)]
pub struct DraftConsume {
    pub item: Text,
    pub optional: bool,
}

/// An entry of `produces`, its item not looked up yet.
#[derive(Drop)]
pub struct DraftProduce {
    pub item: Text,
    pub flags: Flags,
}

/// The words after an item that is produced.
#[derive(Clone, Copy)]
pub struct Flags {
    pub weak: bool,
    pub overridable: bool,
}

/// A recorder's method as the file writes it, its body not parsed yet.
#[derive(Drop)]
pub struct DraftMethod {
    pub name: Text,
    pub params: Seq<Text>,
    pub body: Text,
}

/// A recorder as the file writes it.
#[derive(Drop)]
pub struct DraftRecorder {
    pub name: Text,
    pub fields: Seq<Text>,
    pub statics: Seq<Text>,
    pub methods: Seq<DraftMethod>,
}

/// A step as the file writes it, its body not parsed yet.
#[derive(Drop)]
pub struct DraftStep {
    pub name: Text,
    pub consumes: Seq<DraftConsume>,
    pub produces: Seq<DraftProduce>,
    /// When the calls that it records are played; `None` where it records none.
    pub phase: Option<Phase>,
    /// The keys of `config` that have to be true for it to be active.
    pub only_if: Seq<Text>,
    /// The keys of `config` that have to be false for it to be active.
    pub only_if_not: Seq<Text>,
    pub body: Text,
}

/// An extension as the file writes it.
#[derive(Drop)]
pub struct DraftExtension {
    pub name: Text,
    pub items: Seq<ItemDecl>,
    pub beans: Seq<BeanDecl>,
    pub recorders: Seq<DraftRecorder>,
    pub steps: Seq<DraftStep>,
}

/// A key of `config` and its truth value.
#[derive(Drop)]
pub struct Setting {
    pub name: Text,
    pub on: bool,
}

/// A file whose keys were all read and whose names weren't looked up yet.
#[derive(Drop)]
pub struct Draft {
    pub app: Text,
    /// The major version of the class files: 61 or 65 (JVMS 4.1).
    pub major: u16,
    /// The keys of `config` in byte order.
    pub config: Seq<Setting>,
    pub finals: Seq<Text>,
    pub extensions: Seq<DraftExtension>,
}

/// The format of a file.
#[derive(Clone, Copy, Debug, PartialEq, Eq)]
pub enum Format {
    One,
    Two,
}

/// How many things of a kind the extensions before have.
#[derive(Clone, Copy)]
pub struct Sums {
    pub items: usize,
    pub beans: usize,
    pub recorders: usize,
    pub methods: usize,
    pub steps: usize,
}
