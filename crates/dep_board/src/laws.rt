ghost use Rattle.std.specs.Prelude.{◌≡◌, ℕ, ◌<◌, ◌≤◌, List, length};
ghost use Rattle.atomic_table.specs.Table.{State};
ghost use Rattle.dep_board.specs.declared.view.SeatView.{SeatView};
ghost use Rattle.dep_board.specs.Counts.{times, total};
ghost use Rattle.dep_board.specs.Edges.{producers};
ghost use Rattle.dep_board.specs.Rule.{IsKept, ended_in, told_in, down_in};

/// A law: at every moment each step is ended by one seat at most, and the seat that was told of a
/// step is one, and was told after all edges into it were counted down. None is missed: once they
/// are all counted down, one seat was told. It does nothing.
pub fn each_release_is_told_once()
    ensures ended_once { (steps : ℕ) (edges : List (ℕ × ℕ)) (s : State (Unit {0}) SeatView) → IsKept steps edges s → (p : ℕ) → total (ended_in p) s.views ≤ 1 }
    ensures told_once { (steps : ℕ) (edges : List (ℕ × ℕ)) (s : State (Unit {0}) SeatView) → IsKept steps edges s → (t : ℕ) → total (told_in t) s.views ≤ 1 }
    ensures after_all_edges { (steps : ℕ) (edges : List (ℕ × ℕ)) (s : State (Unit {0}) SeatView) → IsKept steps edges s → (t : ℕ) → 0 < total (told_in t) s.views → (p : ℕ) → total (down_in p t) s.views ≡ times p (producers t edges) }
    ensures none_is_missed { (steps : ℕ) (edges : List (ℕ × ℕ)) (s : State (Unit {0}) SeatView) → IsKept steps edges s → (t : ℕ) → 0 < length (producers t edges) → ((p : ℕ) → total (down_in p t) s.views ≡ times p (producers t edges)) → total (told_in t) s.views ≡ 1 }
{}
