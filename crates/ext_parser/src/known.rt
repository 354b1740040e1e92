use name_index::Index;

/// What a file's names may stand for.
#[derive(Drop)]
pub struct Known<'a> {
    /// The names of all items that the file declares.
    pub items: Index<'a>,
    /// The keys of `config`.
    pub config: Index<'a>,
}
