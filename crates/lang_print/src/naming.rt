ghost use Rattle.std.specs.Prelude.{◌≡◌};
ghost use Rattle.lang_print.specs.Naming as spec;

use item_types::Names;

/// The name of that item; the empty text where there is no such item.
pub(crate) fn item_name(names: &Names, item: u32) -> &str
    ensures { result.now ≡ spec.item_name names.now item }
{
    match names.items.as_slice().get(item as usize) {
        Some(decl) => decl.name.as_str(),
        None => "",
    }
}

pub(crate) fn recorder_name(names: &Names, recorder: u32) -> &str
    ensures { result.now ≡ spec.recorder_name names.now recorder }
{
    match names.recorders.as_slice().get(recorder as usize) {
        Some(decl) => decl.name.as_str(),
        None => "",
    }
}

pub(crate) fn method_name(names: &Names, recorder: u32, method: u32) -> &str
    ensures { result.now ≡ spec.method_name names.now recorder method }
{
    match names.recorders.as_slice().get(recorder as usize) {
        Some(decl) => match decl.methods.as_slice().get(method as usize) {
            Some(sig) => sig.name.as_str(),
            None => "",
        },
        None => "",
    }
}
