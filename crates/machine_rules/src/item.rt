use startup_rules::Slot;

/// What stands on an operand stack, in a local or in a static field.
#[derive(Drop)]
pub enum Item {
    /// A reference that a field or a list may hold.
    Slot(Slot),
    /// The startup's context.
    Context,
    /// The int 0 or 1.
    Int(bool),
    /// A long, of two units.
    Long(i64),
}
