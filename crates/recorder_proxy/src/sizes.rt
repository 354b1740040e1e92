ghost use Rattle.std.specs.Prelude.{◌≡◌, ◌+◌, ◌<◌, ◌^◌, sum_by};
ghost use Rattle.item_types.specs.Measure.{cells, text_len};
ghost use Rattle.recorder_proxy.specs.Sizes.{cells_of, text_of};

use crate::call::Call;
use item_types::{Seq, Value};

/// How many cells the calls take: 1 for each call, and the cells of its arguments. It takes no
/// memory.
pub fn cells_of(calls: &Seq<Call>) -> u64
    requires { cells_of calls.now < 2 ^ 64 }
    ensures { result ≡ cells_of calls.now }
{
    let mut total = 0;
    for call in calls.as_slice() {
        total += 1 + cells_of_all(call.args.as_slice());
    }
    total
}

/// How many bytes the texts in the calls' arguments take in modified UTF-8. It takes no memory.
pub fn text_of(calls: &Seq<Call>) -> u64
    requires { text_of calls.now < 2 ^ 64 }
    ensures { result ≡ text_of calls.now }
{
    let mut total = 0;
    for call in calls.as_slice() {
        total += text_of_all(call.args.as_slice());
    }
    total
}

fn cells_of_all(values: &[Value]) -> u64
    requires { sum_by cells values.now < 2 ^ 64 }
    ensures { result ≡ sum_by cells values.now }
{
    let mut total = 0;
    for value in values {
        total += value.cells();
    }
    total
}

fn text_of_all(values: &[Value]) -> u64
    requires { sum_by text_len values.now < 2 ^ 64 }
    ensures { result ≡ sum_by text_len values.now }
{
    let mut total = 0;
    for value in values {
        total += value.text_len();
    }
    total
}
