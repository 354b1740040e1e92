use item_types::{Bytes, Seq, Text};

/// What a command comes to: the status, the text for the sink, and the files that it writes to the
/// shelf, in this order.
#[derive(Drop)]
pub struct Outcome {
    pub status: u8,
    pub text: Text,
    pub files: Seq<(Text, Bytes)>,
}
