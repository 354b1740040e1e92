ghost use Rattle.std.specs.Prelude.{◌≡◌, ◌++◌, codes, string_bytes, IfOk};
ghost use Rattle.std.specs.Fmt.{decimal};
ghost use Rattle.build_report.specs.ProjectFaultText.{body_fault_text, project_fault_text, token_text};

use ext_parser::{LangFault, ProjectFault};
use item_types::Memory;
use std::alloc::Global;

/// Where a file's first fault stands and what it is, on one line without its end.
///
/// # Errors
/// `Memory` for want of memory.
pub fn report_project(alloc: Global, fault: &ProjectFault) -> Result<String, Memory>
    requires { fault.now ≡ ProjectFault.Memory → ⊥ }
    ensures { IfOk result (λ text. string_bytes text ≡ project_fault_text fault.now) }
{
    match fault {
        ProjectFault::Limit { path, found } => over_the_limit(alloc, path.as_str(), *found),
        ProjectFault::Toml => joined(alloc, "file", ": not TOML"),
        ProjectFault::Field(path) => joined(alloc, path.as_str(), ": wrong field"),
        ProjectFault::Name(path) => joined(alloc, path.as_str(), ": wrong name"),
        ProjectFault::Repeated(path) => joined(alloc, path.as_str(), ": repeated"),
        ProjectFault::Unknown(path) => joined(alloc, path.as_str(), ": unknown name"),
        ProjectFault::Body(path, fault) => body_text(alloc, path.as_str(), fault),
        ProjectFault::Memory => Err(Memory),
    }
}

fn joined(alloc: Global, path: &str, words: &str) -> Result<String, Memory>
    ensures { IfOk result (λ text. string_bytes text ≡ path.now ++ words.now) }
{
    let mut text = String::from_str(alloc, path)?;
    text.push_str(words)?;
    Ok(text)
}

fn over_the_limit(alloc: Global, path: &str, found: u64) -> Result<String, Memory>
    ensures { IfOk result (λ text. string_bytes text ≡ path.now ++ codes ": " ++ decimal found ++ codes " is over the limit") }
{
    let mut text = String::from_str(alloc, path)?;
    write!(text, ": {found}")?;
    text.push_str(" is over the limit")?;
    Ok(text)
}

/// What is wrong at a token of the text at that path.
fn body_text(alloc: Global, path: &str, fault: &LangFault) -> Result<String, Memory>
    ensures { IfOk result (λ text. string_bytes text ≡ body_fault_text path.now fault.now) }
{
    match fault {
        LangFault::Token { at } => token_text(alloc, path, *at, "wrong token"),
        LangFault::TooDeep { at } => token_text(alloc, path, *at, "too deep"),
        LangFault::Syntax { at } => token_text(alloc, path, *at, "syntax"),
        LangFault::Unknown { at } => token_text(alloc, path, *at, "unknown name"),
        LangFault::Undeclared { at } => token_text(alloc, path, *at, "wrong use"),
        LangFault::Memory => Err(Memory),
    }
}

fn token_text(alloc: Global, path: &str, at: u32, words: &str) -> Result<String, Memory>
    ensures { IfOk result (λ text. string_bytes text ≡ token_text path.now at words.now) }
{
    let mut text = String::from_str(alloc, path)?;
    text.push_str(": token ")?;
    write!(text, "{at}")?;
    text.push_str(": ")?;
    text.push_str(words)?;
    Ok(text)
}
