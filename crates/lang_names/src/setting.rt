ghost use Rattle.std.specs.Prelude.{◌≡◌, ◌<◌, length, slice_get};
ghost use Rattle.syntax_tree.specs.Known as spec;
ghost use Rattle.lang_names.specs.Settings.{known_of};

use item_types::{Consume, Names, Produce, StepDecl, Text};

/// What a text's names may be: all that is declared, what its step may take, produce and record,
/// and what its recorder has.
#[derive(Drop)]
pub(crate) struct Setting<'a> {
    pub names: &'a Names,
    pub consumes: &'a [Consume],
    pub produces: &'a [Produce],
    pub records: bool,
    pub fields: &'a [Text],
    pub statics: &'a [Text],
}

impl<'a> Setting<'a> {
    /// The setting of a step's body.
    pub fn of_step(names: &'a Names, decl: &'a StepDecl) -> Setting<'a>
        ensures { known_of result ≡ spec.of_step names.now decl.now }
    {
        Setting {
            names,
            consumes: decl.consumes.as_slice(),
            produces: decl.produces.as_slice(),
            records: decl.phase.is_some(),
            fields: &[],
            statics: &[],
        }
    }

    /// The setting of a method of that recorder.
    pub fn of_recorder(names: &'a Names, recorder: u32) -> Setting<'a>
        ensures { known_of result ≡ spec.of_recorder names.now recorder }
    {
        match names.recorders.as_slice().get(recorder as usize) {
            Some(decl) => Setting {
                names,
                consumes: &[],
                produces: &[],
                records: false,
                fields: decl.fields.as_slice(),
                statics: decl.statics.as_slice(),
            },
            None => Setting {
                names,
                consumes: &[],
                produces: &[],
                records: false,
                fields: &[],
                statics: &[],
            },
        }
    }
}
