ghost use Rattle.std.specs.Prelude.{◌≡◌, ℕ, List, IfOk, take};
ghost use Rattle.ext_draft.specs.DraftOfTheBytes.{draft};
ghost use Rattle.ext_draft.specs.Limits.{KeepsLimits};

/// A law: a reader may stop after 1,048,577 bytes. It does nothing.
pub fn draft_of_cut_bytes()
    ensures { (bytes : List ℕ) → draft (take 1048577 bytes) ≡ draft bytes }
{}

/// A law: what a file declares keeps the limits on the whole file. It does nothing.
pub fn drafts_keep_limits()
    ensures { (bytes : List ℕ) → IfOk (draft bytes) KeepsLimits }
{}
