ghost use Rattle.std.specs.Prelude.{◌≡◌, slice_get};
ghost use Rattle.step_state.specs.Evaluation.{Evals, Gives};
ghost use Rattle.step_state.specs.Spending as spec;
ghost use Rattle.step_state.specs.Scoped as names_in;

use crate::measure::{size_of, size_of_all};
use crate::outcome::Reason;
use crate::scope::Scope;
use crate::stop::Stop;
use item_types::{ItemKind, Names, NodeId, Seq, Shared, Text, Value};
use recorder_proxy::Call;
use std::alloc::Global;

const MAX_TURNS: u32 = 100_000;

const MAX_DEPTH: u32 = 64;

const MAX_CELLS: u64 = 65_536;

const MAX_TEXT: u64 = 1_048_576;

const MAX_PUT_CELLS: u64 = 4_096;

const MAX_PUT_TEXT: u64 = 131_072;

const MAX_CALL_CELLS: u64 = 8_192;

const MAX_CALL_TEXT: u64 = 131_072;

/// What an evaluation has come to: the names in scope, what it made, produced and recorded, and
/// the sums that its limits are held against.
#[derive(Drop)]
pub struct State<'a> {
    pub scope: Scope<'a, Value>,
    pub nodes: u32,
    pub turns: u32,
    pub cells: u64,
    pub text: u64,
    pub puts: Seq<(u32, Value)>,
    pub put_cells: u64,
    pub put_text: u64,
    pub calls: Seq<Call>,
    pub call_cells: u64,
    pub call_text: u64,
}

impl<'a> State<'a> {
    /// Nothing made, produced or recorded yet. It takes no memory.
    pub fn new(alloc: Global) -> State<'a>
        ensures { result ≡ spec.start }
    {
        State {
            scope: Scope::new(alloc),
            nodes: 0,
            turns: 0,
            cells: 0,
            text: 0,
            puts: Seq::new(alloc),
            put_cells: 0,
            put_text: 0,
            calls: Seq::new(alloc),
            call_cells: 0,
            call_text: 0,
        }
    }

    /// One more statement or turn.
    pub fn turn(&mut self) -> Result<(), Stop>
        ensures { Evals (spec.turn self.old) result self.new }
    {
        if self.turns >= MAX_TURNS {
            return Err(Stop::Fails(Reason::TooManyTurns));
        }
        self.turns += 1;
        Ok(())
    }

    /// The value of an expression whose first token is this.
    pub fn made(&mut self, at: u32, value: Value) -> Result<Value, Stop>
        ensures { Evals (spec.made at value self.old) result self.new }
    {
        let size = size_of(&value);
        if size.depth > MAX_DEPTH {
            return Err(Stop::Fails(Reason::TooDeep { at }));
        }
        let cells = self.cells.saturating_add(size.cells);
        if cells > MAX_CELLS {
            return Err(Stop::Fails(Reason::TooManyCells));
        }
        let text = self.text.saturating_add(size.text);
        if text > MAX_TEXT {
            return Err(Stop::Fails(Reason::TooMuchText));
        }
        self.cells = cells;
        self.text = text;
        Ok(value)
    }

    /// A new list, as the value of an expression.
    #[tactic(auto, unfolding(crate::specs::Spending::made_list))]
    pub fn made_list(
        &mut self,
        alloc: Global,
        at: u32,
        step: u32,
        parts: Seq<Value>,
    ) -> Result<Value, Stop>
        ensures { Evals (spec.made_list at step parts self.old) result self.new }
    {
        let k = self.node()?;
        let parts = Shared::of(alloc, parts)?;
        self.made(at, Value::List(NodeId { step, k }, parts))
    }

    /// A new bean, as the value of an expression.
    #[tactic(auto, unfolding(crate::specs::Spending::made_bean))]
    pub fn made_bean(
        &mut self,
        alloc: Global,
        at: u32,
        step: u32,
        bean: u32,
        parts: Seq<Value>,
    ) -> Result<Value, Stop>
        ensures { Evals (spec.made_bean at step bean parts self.old) result self.new }
    {
        let k = self.node()?;
        let parts = Shared::of(alloc, parts)?;
        self.made(at, Value::Bean(NodeId { step, k }, bean, parts))
    }

    fn node(&mut self) -> Result<u32, Stop>
        ensures { Evals (spec.node self.old) result self.new }
    {
        if self.nodes == u32::MAX {
            return Err(Stop::Memory);
        }
        let k = self.nodes;
        self.nodes += 1;
        Ok(k)
    }

    /// The newest value of a name.
    pub fn look(&self, name: &Text) -> Result<Value, Stop>
        ensures { Evals (names_in.look name.now self.now) result self.now }
    {
        match self.scope.newest(name.as_str()) {
            Some(value) => Ok(value.try_copy()?),
            None => Ok(Value::Null),
        }
    }

    /// A new name.
    pub fn bind(&mut self, name: &'a Text, value: Value) -> Result<(), Stop>
        ensures { Evals (names_in.bind name.now value self.old) result self.new }
    {
        self.scope.push(name.as_str(), value)?;
        Ok(())
    }

    /// Puts a value of the item.
    #[tactic(auto, unfolding(crate::specs::Spending::put))]
    pub fn put(&mut self, names: &Names, item: u32, value: Value) -> Result<(), Stop>
        ensures { Evals (spec.put names.now item value self.old) result self.new }
    {
        fits_item(names, item, &value, self.puts.as_slice())?;
        self.keep_put(item, value)
    }

    fn keep_put(&mut self, item: u32, value: Value) -> Result<(), Stop>
        ensures { Evals (spec.keep_put item value self.old) result self.new }
    {
        let size = size_of(&value);
        let cells = self.put_cells.saturating_add(size.cells);
        let text = self.put_text.saturating_add(size.text);
        if cells > MAX_PUT_CELLS || text > MAX_PUT_TEXT {
            return Err(Stop::Fails(Reason::TooManyPut));
        }
        self.puts.push((item, value))?;
        self.put_cells = cells;
        self.put_text = text;
        Ok(())
    }

    /// Records a call, and gives its number.
    #[tactic(auto, unfolding(crate::specs::Spending::record_call))]
    pub fn record_call(
        &mut self,
        recorder: u32,
        method: u32,
        args: Seq<Value>,
        keeps: bool,
    ) -> Result<u32, Stop>
        ensures { Evals (spec.record_call recorder method args keeps self.old) result self.new }
    {
        let size = size_of_all(args.as_slice());
        let cells = self.call_cells.saturating_add(size.cells.saturating_add(1));
        let text = self.call_text.saturating_add(size.text);
        if cells > MAX_CALL_CELLS || text > MAX_CALL_TEXT {
            return Err(Stop::Fails(Reason::TooManyRecorded));
        }
        let Ok(number) = u32::try_from(self.calls.len()) else {
            return Err(Stop::Memory);
        };
        self.calls.push(Call {
            recorder,
            method,
            args,
            keeps,
        })?;
        self.call_cells = cells;
        self.call_text = text;
        Ok(number)
    }
}

/// Whether the value may be produced of the item.
fn fits_item(names: &Names, item: u32, value: &Value, puts: &[(u32, Value)]) -> Result<(), Stop>
    ensures { Gives (spec.fits_item names.now item value.now puts.now (slice_get names.now.items item)) result }
{
    match names.items.as_slice().get(item as usize) {
        Some(decl) => fits_kind(names, item, value, puts, &decl.kind),
        None => Ok(()),
    }
}

fn fits_kind(
    names: &Names,
    item: u32,
    value: &Value,
    puts: &[(u32, Value)],
    kind: &ItemKind,
) -> Result<(), Stop>
    ensures { Gives (spec.fits_kind names.now item value.now puts.now kind.now) result }
{
    match kind {
        ItemKind::Simple => {
            if is_put(item, puts) {
                return Err(Stop::Fails(Reason::Twice(item)));
            }
            Ok(())
        }
        ItemKind::Ordered(field) => match value.key(names, field) {
            Some(_) => Ok(()),
            None => Err(Stop::Fails(Reason::NoKey(item))),
        },
        ItemKind::Multi | ItemKind::Empty => Ok(()),
    }
}

fn is_put(item: u32, puts: &[(u32, Value)]) -> bool
    ensures { result ≡ spec.is_put item puts.now }
{
    puts.iter().any(|p| p.0 == item)
}
