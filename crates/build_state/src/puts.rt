ghost use Rattle.std.specs.Prelude.{◌≡◌, ◌≤◌, ◌<◌, [], ◌∷◌, ◌++◌, length, IfOk, OnOk, IfSome, IfNone, IsTrue};
ghost use Rattle.build_history.specs.Scripts.{kept};
ghost use Rattle.std.specs.List.{All};
ghost use Rattle.value_order.specs.Found.{kind_of, HasKey};
ghost use Rattle.build_state.specs.Keeping.{values_kept};
ghost use Rattle.build_state.specs.Rooms.{IsKeyed, IsRoomier, HasMore};
ghost use Rattle.build_state.specs.Twins.{IsTwin};

use build_history::{History, Job};
use item_store::Store;
use item_types::{ItemKind, Memory, Names, Seq, Value};
use std::alloc::Global;
use std::marker::Model;

/// A put of which there are two values, for the history and for the store, so that it takes no
/// memory.
#[derive(Drop)]
pub struct Twin {
    pub item: u32,
    pub value: Value,
    pub again: Value,
}

/// The puts of a step that aren't in the history yet, the next one last, and a second value of
/// each.
#[derive(Drop)]
pub struct Puts {
    puts: Vec<(u32, Value)>,
    again: Vec<Value>,
}

impl Model for Puts {
    ghost use Rattle.std.specs.Prelude.{◌≡◌, List, map, reverse};
    ghost use Rattle.item_types.specs.contracts.value.Value as value;
    ghost use Rattle.std.specs.Coded.{codes};
    ghost use Rattle.build_state.specs.Twins.{Put, value_of};

    ghost Value = { List Put };

    ghost coded = { Prim.hlevel (codes, value.the_row.coded) };

    ghost view = { λ p. reverse p.puts.items };

    ghost invariant = { λ p. p.again.items ≡ map value_of p.puts.items };
}

impl Puts {
    /// No puts. It takes no memory.
    pub fn none(alloc: Global) -> Puts
        ensures { result ≡ [] }
    {
        Puts {
            puts: Vec::new(alloc),
            again: Vec::new(alloc),
        }
    }

    /// Those of the puts whose item the step effectively produces, of each of which there is a
    /// second value. It takes no memory.
    pub fn kept(job: &Job, step: u32, puts: Seq<(u32, Value)>, again: Seq<Value>) -> Puts
        requires { again ≡ values_kept job.now step puts }
        ensures { result ≡ kept job.now step puts }
    {
        let mut puts = puts.into_vec();
        puts.retain(|put| job.keeps(step, put.0));
        puts.reverse();
        let mut again = again.into_vec();
        again.reverse();
        Puts { puts, again }
    }

    /// How many puts there are.
    pub fn len(&self) -> usize
        ensures { result ≡ length self.now }
    {
        self.puts.len()
    }

    /// Takes the next put out. It takes no memory.
    pub fn next(&mut self) -> Option<Twin>
        ensures some { IfSome result (λ t. self.old ≡ (t.item, t.value) ∷ self.new) }
        ensures twin { IfSome result IsTwin }
        ensures none { IfNone result (self.old ≡ []) }
    {
        match (self.puts.pop(), self.again.pop()) {
            (Some((item, value)), Some(again)) => Some(Twin { item, value, again }),
            _ => None,
        }
    }
}

/// A second value of each of the puts whose item the step effectively produces.
///
/// # Errors
/// `Memory` for want of memory.
pub(crate) fn seconds(
    alloc: Global,
    job: &Job,
    step: u32,
    puts: &[(u32, Value)],
) -> Result<Seq<Value>, Memory>
    ensures { IfOk result (λ again. again ≡ values_kept job.now step puts.now) }
{
    let mut again = Seq::with_capacity(alloc, puts.len())?;
    for put in puts {
        push_second(alloc, job, step, put, &mut again)?;
    }
    Ok(again)
}

/// Appends a second value of the put, where the step effectively produces its item.
fn push_second(
    alloc: Global,
    job: &Job,
    step: u32,
    put: &(u32, Value),
    again: &mut Seq<Value>,
) -> Result<(), Memory>
    ensures { OnOk result (again.new ≡ again.old ++ values_kept job.now step (put.now ∷ [])) }
{
    if !job.keeps(step, put.0) {
        return Ok(());
    }
    again.push(put.1.try_copy()?)
}

/// Makes room, in the history and in the store, for the puts whose item the step effectively
/// produces.
///
/// # Errors
/// `Memory` for want of memory: there is no less room than before.
pub(crate) fn make_room(
    job: &Job,
    step: u32,
    puts: &[(u32, Value)],
    history: &mut History,
    store: &mut Store,
) -> Result<(), Memory>
    requires { store.old.names ≡ job.now.names }
    ensures events { history.new.events ≡ history.old.events }
    ensures spare { history.old.spare ≤ history.new.spare }
    ensures store { IsRoomier store.old store.new }
    ensures ok { OnOk result (HasMore history.old.spare history.new.spare store.old store.new (kept job.now step puts.now)) }
    ensures keyed { OnOk result (All (IsKeyed job.now.names) (kept job.now step puts.now)) }
{
    for put in puts {
        make_room_for(job, step, put, history, store)?;
    }
    Ok(())
}

/// The same for one put.
fn make_room_for(
    job: &Job,
    step: u32,
    put: &(u32, Value),
    history: &mut History,
    store: &mut Store,
) -> Result<(), Memory>
    requires { store.old.names ≡ job.now.names }
    ensures events { history.new.events ≡ history.old.events }
    ensures spare { history.old.spare ≤ history.new.spare }
    ensures store { IsRoomier store.old store.new }
    ensures ok { OnOk result (HasMore history.old.spare history.new.spare store.old store.new (kept job.now step (put.now ∷ []))) }
    ensures keyed { OnOk result (All (IsKeyed job.now.names) (kept job.now step (put.now ∷ []))) }
{
    if !job.keeps(step, put.0) {
        return Ok(());
    }
    if !is_storable(job.names(), put.0, &put.1) {
        return Err(Memory);
    }
    history.reserve(1)?;
    store.reserve(put.0, 1)
}

/// Whether a store takes the value for the item. What an evaluation puts, a store takes.
fn is_storable(names: &Names, item: u32, value: &Value) -> bool
    ensures range { IsTrue result → item < length names.now.items }
    ensures key { IsTrue result → HasKey names.now (kind_of names.now item) value.now }
{
    match names.items.as_slice().get(item as usize) {
        Some(decl) => match &decl.kind {
            ItemKind::Ordered(field) => value.key(names, field).is_some(),
            _ => true,
        },
        None => false,
    }
}
