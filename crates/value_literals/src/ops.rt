ghost use Rattle.std.specs.Prelude.{◌≡◌, ◌++◌, ◌∷◌, [], IfOk, OnOk};
ghost use Rattle.std.specs.List.{flat_map};
ghost use Rattle.value_literals.specs.Code as spec;
ghost use Rattle.value_literals.specs.Emitted.{part_code, part_of, run_code, run_descriptor};
ghost use Rattle.class_pool.specs.declared.shown.Shown.TheVariants as shown;
ghost use Rattle.value_literals.specs.declared.op.Op.TheVariants as one;
ghost use Rattle.class_code.specs.declared.opcode.Opcode.TheVariants as op;

use crate::op::Op;
use crate::texts::{
    field_name, kept_key, kind_class, method_descriptor, number_name, of_class, part_name, sig_of,
};
use class_code::Opcode;
use class_pool::Shown;
use item_types::{Memory, Names, Same, Seq, Text};
use recording_units::{Arg, Kept, Kind, Piece};
use std::alloc::Global;

fn method(alloc: Global, class: &str, name: &str, descriptor: &str) -> Result<Shown, Memory>
    ensures { IfOk result (λ w. w ≡ shown.Method class.now name.now descriptor.now) }
{
    Ok(Shown::Method(
        Text::of(alloc, class)?,
        Text::of(alloc, name)?,
        Text::of(alloc, descriptor)?,
    ))
}

fn boolean_value_of(alloc: Global) -> Result<Shown, Memory>
    ensures { IfOk result (λ w. w ≡ spec.boolean_value_of) }
{
    method(
        alloc,
        "java/lang/Boolean",
        "valueOf",
        "(Z)Ljava/lang/Boolean;",
    )
}

fn long_value_of(alloc: Global) -> Result<Shown, Memory>
    ensures { IfOk result (λ w. w ≡ spec.long_value_of) }
{
    method(alloc, "java/lang/Long", "valueOf", "(J)Ljava/lang/Long;")
}

fn list_add(alloc: Global) -> Result<Shown, Memory>
    ensures { IfOk result (λ w. w ≡ spec.list_add) }
{
    method(alloc, "java/util/ArrayList", "add", "(Ljava/lang/Object;)Z")
}

fn put_value(alloc: Global) -> Result<Shown, Memory>
    ensures { IfOk result (λ w. w ≡ spec.put_value) }
{
    method(
        alloc,
        "io/quarkus/runtime/StartupContext",
        "putValue",
        "(Ljava/lang/String;Ljava/lang/Object;)V",
    )
}

fn get_value(alloc: Global) -> Result<Shown, Memory>
    ensures { IfOk result (λ w. w ≡ spec.get_value) }
{
    method(
        alloc,
        "io/quarkus/runtime/StartupContext",
        "getValue",
        "(Ljava/lang/String;)Ljava/lang/Object;",
    )
}

fn init_of(alloc: Global, class: Text) -> Result<Shown, Memory>
    ensures { IfOk result (λ w. w ≡ spec.init_of class) }
{
    Ok(Shown::Method(class, Text::of(alloc, "<init>")?, Text::of(alloc, "()V")?))
}

fn number_field(
    alloc: Global,
    names: &Names,
    class: &Text,
    n: u32,
    kind: Kind,
) -> Result<Shown, Memory>
    ensures { IfOk result (λ w. w ≡ spec.number_field names.now class.now n kind) }
{
    let made = kind_class(alloc, names, kind)?;
    Ok(Shown::Field(
        class.try_copy(alloc)?,
        number_name(alloc, n)?,
        of_class(alloc, &made)?,
    ))
}

fn bean_field(alloc: Global, names: &Names, bean: u32, field: u32) -> Result<Shown, Memory>
    ensures { IfOk result (λ w. w ≡ spec.bean_field names.now bean field) }
{
    Ok(Shown::Field(
        kind_class(alloc, names, Kind::Bean(bean))?,
        field_name(alloc, names, bean, field)?,
        Text::of(alloc, "Ljava/lang/Object;")?,
    ))
}

fn recorder_method(
    alloc: Global,
    names: &Names,
    recorder: u32,
    method: u32,
) -> Result<Shown, Memory>
    ensures { IfOk result (λ w. w ≡ spec.recorder_method names.now recorder method) }
{
    let class = kind_class(alloc, names, Kind::Recorder(recorder))?;
    match sig_of(names, recorder, method) {
        Some(sig) => Ok(Shown::Method(
            class,
            sig.name.try_copy(alloc)?,
            method_descriptor(alloc, sig.params.as_slice())?,
        )),
        None => Ok(Shown::Method(class, Text::of(alloc, "")?, method_descriptor(alloc, &[])?)),
    }
}

/// Appends the code that pushes a value.
fn push_value_code(
    alloc: Global,
    names: &Names,
    class: &Text,
    value: &Arg,
    code: &mut Seq<Op>,
) -> Result<(), Memory>
    ensures { OnOk result (code.new ≡ code.old ++ spec.value_code names.now class.now value.now) }
{
    match value {
        Arg::Null => code.push(Op::Plain(Opcode::AconstNull)),
        Arg::Bool(b) => {
            let opcode = if *b { Opcode::Iconst1 } else { Opcode::Iconst0 };
            code.push(Op::Plain(opcode))?;
            code.push(Op::Naming(Opcode::Invokestatic, boolean_value_of(alloc)?))
        }
        Arg::Long(n) => {
            code.push(Op::Naming(Opcode::Ldc2W, Shown::Long(*n)))?;
            code.push(Op::Naming(Opcode::Invokestatic, long_value_of(alloc)?))
        }
        Arg::Str(text) => {
            let text = Text::of(alloc, text.as_str())?;
            code.push(Op::Naming(Opcode::LdcW, Shown::Str(text)))
        },
        Arg::Kept(kept) => {
            code.push(Op::Plain(Opcode::Aload0))?;
            code.push(Op::Naming(Opcode::LdcW, Shown::Str(kept_key(alloc, *kept)?)))?;
            code.push(Op::Naming(Opcode::Invokevirtual, get_value(alloc)?))
        }
        Arg::Made(n, kind) => code.push(Op::Naming(
            Opcode::Getstatic,
            number_field(alloc, names, class, *n, *kind)?,
        )),
    }
}

fn push_args_code(
    alloc: Global,
    names: &Names,
    class: &Text,
    args: &[Arg],
    code: &mut Seq<Op>,
) -> Result<(), Memory>
    ensures { OnOk result (code.new ≡ code.old ++ flat_map (spec.value_code names.now class.now) args.now) }
{
    for arg in args {
        push_value_code(alloc, names, class, arg, code)?;
    }
    Ok(())
}

/// The receiver, the arguments and the call.
fn push_call_code(
    alloc: Global,
    names: &Names,
    class: &Text,
    n: u32,
    recorder: u32,
    method: u32,
    args: &[Arg],
    code: &mut Seq<Op>,
) -> Result<(), Memory>
    ensures { OnOk result (code.new ≡ code.old ++ spec.call_code names.now class.now n recorder method args.now []) }
{
    code.push(Op::Naming(
        Opcode::Getstatic,
        number_field(alloc, names, class, n, Kind::Recorder(recorder))?,
    ))?;
    push_args_code(alloc, names, class, args, code)?;
    code.push(Op::Naming(
        Opcode::Invokevirtual,
        recorder_method(alloc, names, recorder, method)?,
    ))
}

fn push_kept(alloc: Global, kept: Kept, code: &mut Seq<Op>) -> Result<(), Memory>
    ensures { OnOk result (code.new ≡ code.old ++ one.Plain op.Aload0 ∷ one.Naming op.LdcW (shown.Str (spec.kept_key kept)) ∷ []) }
{
    code.push(Op::Plain(Opcode::Aload0))?;
    code.push(Op::Naming(Opcode::LdcW, Shown::Str(kept_key(alloc, kept)?)))
}

fn push_add(alloc: Global, code: &mut Seq<Op>) -> Result<(), Memory>
    ensures { OnOk result (code.new ≡ code.old ++ one.Naming op.Invokevirtual spec.list_add ∷ one.Plain op.Pop ∷ []) }
{
    code.push(Op::Naming(Opcode::Invokevirtual, list_add(alloc)?))?;
    code.push(Op::Plain(Opcode::Pop))
}

fn push_element_code(
    alloc: Global,
    names: &Names,
    class: &Text,
    value: &Arg,
    code: &mut Seq<Op>,
) -> Result<(), Memory>
    ensures { OnOk result (code.new ≡ code.old ++ (spec.value_code names.now class.now value.now ++ one.Naming op.Invokevirtual spec.list_add ∷ one.Plain op.Pop ∷ [])) }
{
    push_value_code(alloc, names, class, value, code)?;
    push_add(alloc, code)
}

/// Appends the code of a unit.
pub fn push_unit_code(
    alloc: Global,
    names: &Names,
    class: &Text,
    unit: &Piece,
    code: &mut Seq<Op>,
) -> Result<(), Memory>
    ensures { OnOk result (code.new ≡ code.old ++ spec.unit_code names.now class.now unit.now) }
{
    match unit {
        Piece::Make(n, kind) => {
            let made = kind_class(alloc, names, *kind)?;
            code.push(Op::Naming(Opcode::New, Shown::Class(made.try_copy(alloc)?)))?;
            code.push(Op::Plain(Opcode::Dup))?;
            code.push(Op::Naming(Opcode::Invokespecial, init_of(alloc, made)?))?;
            code.push(Op::Naming(
                Opcode::Putstatic,
                number_field(alloc, names, class, *n, *kind)?,
            ))
        }
        Piece::SetElement(n, value) => {
            code.push(Op::Naming(
                Opcode::Getstatic,
                number_field(alloc, names, class, *n, Kind::List)?,
            ))?;
            push_element_code(alloc, names, class, value, code)
        }
        Piece::SetField(n, bean, field, value) => {
            code.push(Op::Naming(
                Opcode::Getstatic,
                number_field(alloc, names, class, *n, Kind::Bean(*bean))?,
            ))?;
            push_value_code(alloc, names, class, value, code)?;
            code.push(Op::Naming(Opcode::Putfield, bean_field(alloc, names, *bean, *field)?))
        }
        Piece::CallOf(n, recorder, method, args, None) => {
            push_call_code(
                alloc,
                names,
                class,
                *n,
                *recorder,
                *method,
                args.as_slice(),
                code,
            )?;
            code.push(Op::Plain(Opcode::Pop))
        }
        Piece::CallOf(n, recorder, method, args, Some(kept)) => {
            push_kept(alloc, *kept, code)?;
            push_call_code(
                alloc,
                names,
                class,
                *n,
                *recorder,
                *method,
                args.as_slice(),
                code,
            )?;
            code.push(Op::Naming(Opcode::Invokevirtual, put_value(alloc)?))
        }
    }
}

/// The code of a part.
pub fn part_ops(
    alloc: Global,
    names: &Names,
    class: &Text,
    units: &[Piece],
) -> Result<Seq<Op>, Memory>
    ensures { IfOk result (λ code. code ≡ part_code names.now class.now units.now) }
{
    let mut code = Seq::new(alloc);
    for unit in units {
        push_unit_code(alloc, names, class, unit, &mut code)?;
    }
    code.push(Op::Plain(Opcode::Return))?;
    Ok(code)
}

fn part_of(alloc: Global, class: &Text, j: u32) -> Result<Shown, Memory>
    ensures { IfOk result (λ w. w ≡ part_of class.now j) }
{
    Ok(Shown::Method(
        class.try_copy(alloc)?,
        part_name(alloc, j)?,
        Text::of(alloc, "(Lio/quarkus/runtime/StartupContext;)V")?,
    ))
}

fn push_part_call(alloc: Global, class: &Text, j: u32, code: &mut Seq<Op>) -> Result<(), Memory>
    ensures { OnOk result (code.new ≡ code.old ++ one.Plain op.Aload0 ∷ one.Naming op.Invokestatic (part_of class.now j) ∷ []) }
{
    code.push(Op::Plain(Opcode::Aload0))?;
    code.push(Op::Naming(Opcode::Invokestatic, part_of(alloc, class, j)?))
}

/// The code that runs so many parts.
pub fn run_ops(alloc: Global, class: &Text, count: u32) -> Result<Seq<Op>, Memory>
    ensures { IfOk result (λ code. code ≡ run_code class.now 0 count) }
{
    let mut code = Seq::new(alloc);
    for j in 0..count {
        push_part_call(alloc, class, j, &mut code)?;
    }
    code.push(Op::Plain(Opcode::Return))?;
    Ok(code)
}
