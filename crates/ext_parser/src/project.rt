use item_types::{Names, Seq, StepDecl, Text};
use step_lang::{Body, Methods};

/// What a project file writes: an application's extensions, numbered in the order of the file.
#[derive(Drop)]
pub struct Project {
    /// The application's name.
    pub app: Text,
    /// The major version of the class files that are emitted for it: 61 or 65 (JVMS 4.1).
    pub major: u16,
    /// All that the extensions declare.
    pub names: Names,
    /// The steps of all extensions.
    pub steps: Seq<StepDecl>,
    /// The numbers of the final items, in the order of the file.
    pub finals: Seq<u32>,
    /// A body for each step.
    pub bodies: Seq<Body>,
    /// A list of methods for each recorder.
    pub methods: Methods,
}
