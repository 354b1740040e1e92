// The operations that end in a text that is told. `at` is the number of the operation's token.

ghost use Rattle.std.specs.Prelude.{◌≡◌};
ghost use Rattle.startup_rules.specs.Operations as rules;
ghost use Rattle.startup_rules.specs.Acting.{op};
ghost use Rattle.method_exec.specs.Walking.{Does, Gives};

use crate::setting::Setting;
use crate::stop::{Stop, failed, wrong_kind};
use item_types::Text;
use itoa::Buffer;
use startup_rules::{MethodFault, Op, Slot};
use startup_world::World;
use std::alloc::Global;

/// The line that a value prints.
fn line_of(alloc: Global, v: Slot, at: u32) -> Result<Text, Stop>
    ensures { Gives (rules.line_of at v) result }
{
    match v {
        Slot::Null => Ok(Text::of(alloc, "null")?),
        Slot::Bool(true) => Ok(Text::of(alloc, "true")?),
        Slot::Bool(false) => Ok(Text::of(alloc, "false")?),
        Slot::Long(n) => {
            let mut buffer = Buffer::new();
            Ok(Text::of(alloc, buffer.format(n))?)
        }
        Slot::Str(text) => Ok(text.into_text(alloc)?),
        Slot::Obj(_) => Err(wrong_kind(at)),
    }
}

/// Adds a line.
#[tactic(auto, unfolding(startup_rules::specs::Operations::effect))]
pub fn print(cx: &Setting<'_>, world: &mut World, v: Slot, at: u32) -> Result<Slot, Stop>
    ensures { Does (op cx.now.within (Op.Print v at) world.old) result world.new }
{
    let line = line_of(world.alloc(), v, at)?;
    world.pay_text(line.modified_len().saturating_add(1))?;
    world.push_line(line)?;
    Ok(Slot::Null)
}

/// The failure that says this text.
#[tactic(auto, unfolding(startup_rules::specs::Operations::effect))]
pub fn fail_with(cx: &Setting<'_>, world: &World, v: Slot, at: u32) -> Result<Slot, Stop>
    ensures { Does (op cx.now.within (Op.FailWith v at) world.now) result world.now }
{
    match v {
        Slot::Str(text) => Err(failed(MethodFault::Said(text.into_text(world.alloc())?))),
        _ => Err(wrong_kind(at)),
    }
}
