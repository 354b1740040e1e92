use item_types::{Seq, Value};
use recorder_proxy::Call;
use step_eval::Reason;

/// What happens to a build step in a run. Steps and items are told by their numbers.
#[derive(Drop)]
pub enum Event {
    /// The step starts.
    Start {
        step: u32,
    },
    /// It takes what was produced of an item that it consumes.
    Take {
        step: u32,
        item: u32,
        values: Seq<Value>,
    },
    /// It produces a value of the item.
    Put {
        step: u32,
        item: u32,
        value: Value,
    },
    /// It ends, with the calls that it recorded.
    End {
        step: u32,
        calls: Seq<Call>,
    },
    /// It fails, for this reason.
    Fail {
        step: u32,
        reason: Reason,
    },
}
