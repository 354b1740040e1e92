ghost use Rattle.std.specs.Prelude.{◌≡◌, ◌++◌, string_bytes, slice_get, OnOk};
ghost use Rattle.build_history.specs.Jobs.{decl_at};
ghost use Rattle.build_history.specs.EventText.{values_text, method_in, kept_text, call_text, calls_text};

use crate::job::Job;
use crate::reason_words::push_proxy;
use item_types::{Memory, Names, Phase, Proxy, Value, push_values};
use recorder_proxy::Call;

/// Appends the lines of the calls of a step.
pub(crate) fn push_calls(
    job: &Job,
    step: u32,
    calls: &[Call],
    out: &mut String,
) -> Result<(), Memory>
    ensures { OnOk result (string_bytes out.new ≡ string_bytes out.old ++ calls_text job.now step 0 calls.now) }
{
    let phase = job.phase(step);
    for (number, call) in calls.iter().enumerate() {
        push_call(job, step, phase, number, call, out)?;
    }
    Ok(())
}

fn push_call(
    job: &Job,
    step: u32,
    phase: Option<Phase>,
    number: usize,
    call: &Call,
    out: &mut String,
) -> Result<(), Memory>
    requires { phase ≡ (decl_at job.now step).phase }
    ensures { OnOk result (string_bytes out.new ≡ string_bytes out.old ++ call_text job.now step number call.now) }
{
    let names = job.names();
    out.push_str("  call ")?;
    push_method(names, call.recorder, call.method, out)?;
    push_list(call.args.as_slice(), names, out)?;
    push_kept(step, number, phase, call.keeps, out)?;
    out.push_str("\n")?;
    Ok(())
}

/// Appends the values between round brackets.
pub(crate) fn push_list(values: &[Value], names: &Names, out: &mut String) -> Result<(), Memory>
    ensures { OnOk result (string_bytes out.new ≡ string_bytes out.old ++ values_text names.now values.now) }
{
    out.push_str("(")?;
    push_values(values, names, "", out)?;
    out.push_str(")")?;
    Ok(())
}

fn push_method(names: &Names, recorder: u32, method: u32, out: &mut String) -> Result<(), Memory>
    ensures { OnOk result (string_bytes out.new ≡ string_bytes out.old ++ method_in (slice_get names.now.recorders recorder) method) }
{
    match names.recorders.as_slice().get(recorder as usize) {
        Some(decl) => {
            out.push_str(decl.name.as_str())?;
            out.push_str(".")?;
            match decl.methods.as_slice().get(method as usize) {
                Some(sig) => out.push_str(sig.name.as_str())?,
                None => {}
            }
        }
        None => out.push_str(".")?,
    }
    Ok(())
}

fn push_kept(
    step: u32,
    number: usize,
    phase: Option<Phase>,
    keeps: bool,
    out: &mut String,
) -> Result<(), Memory>
    ensures { OnOk result (string_bytes out.new ≡ string_bytes out.old ++ kept_text step number phase keeps) }
{
    if !keeps {
        return Ok(());
    }
    match phase {
        Some(Phase::Static) => write!(out, " -> @{step}.{number}.static")?,
        Some(Phase::Runtime) => write!(out, " -> @{step}.{number}.runtime")?,
        None => {}
    }
    Ok(())
}
