/// What a seat at the board knows. No value of it is made; a clause reads an array as a list, of
/// any length.
pub struct SeatView {
    /// How much of the board it has.
    pub parts: u64,
    /// The number of steps of the plan.
    pub steps: u32,
    /// The edges of the plan.
    pub edges: [(u32, u32); 0],
    /// The steps that this seat ended.
    pub ended: [u32; 0],
    /// The steps whose count this seat found to reach 0.
    pub told: [u32; 0],
    /// The steps that this seat found to be ended already.
    pub late: [u32; 0],
    /// The edges that this seat counted down.
    pub downs: [(u32, u32); 0],
}
