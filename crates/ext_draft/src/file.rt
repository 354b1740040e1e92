ghost use Rattle.std.specs.Prelude.{◌≡◌, ◌⊎◌, [], Err, codes};
ghost use Rattle.toml.specs.View.{table_view};
ghost use Rattle.toml_keys.specs.Documents.{integer_at, texts_of};
ghost use Rattle.ext_draft.specs.FirstWalk.{extensions_of, file, file_keys, format_of, java_major, major_of};
ghost use Rattle.ext_draft.specs.Reading.{field, without_others};

use crate::config::config_at;
use crate::draft::{Draft, DraftExtension, Format};
use crate::extension::extensions_at;
use crate::fault::DraftFault;
use crate::faults::wrong_field;
use crate::prefix::Prefix;
use crate::table::{list_at, list_of, name_at, without_others};
use item_types::Seq;
use std::alloc::Global;
use toml::Table;
use toml_keys::integer_at;

fn format_of(table: &Table) -> Option<Format>
    ensures { result ≡ format_of (integer_at (codes "format") (table_view table.now)) }
{
    match integer_at(table, "format") {
        Some(number) => {
            if number == 1 {
                Some(Format::One)
            } else if number == 2 {
                Some(Format::Two)
            } else {
                None
            }
        }
        None => None,
    }
}

fn format_in(alloc: Global, table: &Table) -> Result<Format, DraftFault>
    ensures { (result ≡ Err DraftFault.Memory) ⊎ (result ≡ field (codes "format") (format_of (integer_at (codes "format") (table_view table.now)))) }
{
    match format_of(table) {
        Some(format) => Ok(format),
        None => wrong_field(alloc, &Prefix::File, "format"),
    }
}

fn java_major(table: &Table) -> Option<u16>
    ensures { result ≡ java_major (integer_at (codes "java") (table_view table.now)) }
{
    match integer_at(table, "java") {
        Some(number) => {
            if number == 17 {
                Some(61)
            } else if number == 21 {
                Some(65)
            } else {
                None
            }
        }
        None => None,
    }
}

fn major_of(alloc: Global, format: Format, table: &Table) -> Result<u16, DraftFault>
    ensures { (result ≡ Err DraftFault.Memory) ⊎ (result ≡ major_of format (table_view table.now)) }
{
    match format {
        Format::One => Ok(61),
        Format::Two => match java_major(table) {
            Some(major) => Ok(major),
            None => wrong_field(alloc, &Prefix::File, "java"),
        },
    }
}

fn extensions_of(alloc: Global, table: &Table) -> Result<Seq<DraftExtension>, DraftFault>
    ensures { (result ≡ Err DraftFault.Memory) ⊎ (result ≡ extensions_of (table_view table.now)) }
{
    match list_at(alloc, 256, 0, &Prefix::File, table, "extensions") {
        Ok(values) => extensions_at(alloc, &Prefix::File, "extensions", values),
        Err(fault) => Err(fault),
    }
}

/// What was read of the file, if it has no key but its own.
fn file_without_others(
    alloc: Global,
    format: Format,
    table: &Table,
    draft: Draft,
) -> Result<Draft, DraftFault>
    ensures { (result ≡ Err DraftFault.Memory) ⊎ (result ≡ without_others (file_keys format) [] (table_view table.now) draft) }
{
    match format {
        Format::One => without_others(
            alloc,
            &["format", "app", "config", "finals", "extensions"],
            &Prefix::File,
            table,
            draft,
        ),
        Format::Two => without_others(
            alloc,
            &["format", "app", "java", "config", "finals", "extensions"],
            &Prefix::File,
            table,
            draft,
        ),
    }
}

/// The first walk over a file: what its keys say, or the first fault among them.
pub fn file(alloc: Global, table: &Table) -> Result<Draft, DraftFault>
    ensures { (result ≡ Err DraftFault.Memory) ⊎ (result ≡ file (table_view table.now)) }
{
    let format = format_in(alloc, table)?;
    let app = name_at(alloc, &Prefix::File, table, "app")?;
    let major = major_of(alloc, format, table)?;
    let config = config_at(alloc, table)?;
    let finals = list_of(alloc, 2048, 0, &Prefix::File, table, "finals")?;
    let extensions = extensions_of(alloc, table)?;
    let draft = Draft {
        app,
        major,
        config,
        finals,
        extensions,
    };
    file_without_others(alloc, format, table, draft)
}
