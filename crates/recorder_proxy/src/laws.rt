ghost use Rattle.std.specs.Prelude.{◌≡◌, ℕ, [], ◌∷◌, ◌++◌, take};
ghost use Rattle.std.specs.List.{All};
ghost use Rattle.recorder_proxy.specs.Playable.{EachAfter, CallsNameKept, HasNoProxy, IsPlayable, MayComeIn};

use crate::call::Recording;

/// No recordings can be played.
pub fn empty_law()
    ensures { (most most_cells most_text : ℕ) → IsPlayable most most_cells most_text [] }
{}

/// Where recordings can be played, so can the first `count` of them.
pub fn prefix_law(recordings: &[Recording], count: usize)
    ensures { (most most_cells most_text : ℕ) → IsPlayable most most_cells most_text recordings.now → IsPlayable most most_cells most_text (take count recordings.now) }
{
    let _ = recordings;
    let _ = count;
}

/// Where recordings can be played, so can these with one more that may come in between.
pub fn insert_law(before: &[Recording], recording: &Recording, after: &[Recording])
    ensures { (most most_cells most_text : ℕ) → IsPlayable most most_cells most_text (before.now ++ after.now) → MayComeIn most most_cells most_text before.now after.now recording.now → IsPlayable most most_cells most_text (before.now ++ recording.now ∷ after.now) }
{
    let _ = before;
    let _ = recording;
    let _ = after;
}

/// In recordings without proxies each proxy names a call that is kept before.
pub fn plain_law(recordings: &[Recording])
    ensures { All (λ r. HasNoProxy r.calls) recordings.now → EachAfter CallsNameKept recordings.now }
{
    let _ = recordings;
}

/// A recording without proxies names what is kept before it, whatever that is.
pub fn plain_recording_law(earlier: &[Recording], recording: &Recording)
    ensures { HasNoProxy recording.now.calls → CallsNameKept earlier.now recording.now }
{
    let _ = earlier;
    let _ = recording;
}
