// The operations on fields, lists, new objects and statics. `at` is the number of the operation's
// token.

ghost use Rattle.std.specs.Prelude.{◌≡◌, ◌<◌, length, position, slice_get, IfOk};
ghost use Rattle.std.specs.Str.{bytes_eq};
ghost use Rattle.item_types.specs.Named.{place_of as first_place};
ghost use Rattle.operators.specs.Found.{arranged};
ghost use Rattle.startup_rules.specs.Operations as rules;
ghost use Rattle.startup_rules.specs.Worlds as worlds;
ghost use Rattle.startup_rules.specs.Acting.{op};
ghost use Rattle.method_exec.specs.Walking.{Does, Gives, Makes};

use crate::named::Named;
use crate::setting::Setting;
use crate::stop::{Stop, wrong_kind};
use item_types::{BeanDecl, Memory, Names, Seq, Text};
use startup_rules::{Object, Op, Slot};
use startup_world::{World, parts};
use std::alloc::Global;

/// The declared names of an object's fields; a list has none.
fn declared<'a>(names: &'a Names, object: &Object) -> &'a [Text]
    ensures { result.now ≡ rules.declared names.now object.now }
{
    match object {
        Object::List(_) => &[],
        Object::Bean(bean, _) => names.fields_of(*bean),
        Object::Recorder(recorder, _) => names.recorder_fields(*recorder),
    }
}

/// The place of the first of these names that is this one.
fn place_of(name: &str, names: &[Text]) -> Option<usize>
    ensures { result ≡ first_place name.now names.now }
{
    names.iter().position(|n| n.as_str() == name)
}

/// The place of a field that the object has.
fn field_place(names: &Names, object: &Object, name: &str, at: u32) -> Result<usize, Stop>
    ensures value { Gives (rules.field_place names.now at name.now object.now) result }
    ensures within { IfOk result (λ k. k < length (worlds.parts object.now)) }
{
    match place_of(name, declared(names, object)) {
        Some(place) => {
            if place < parts(object).len() {
                return Ok(place);
            }
            Err(wrong_kind(at))
        }
        None => Err(wrong_kind(at)),
    }
}

/// A field of a bean or recorder.
#[tactic(auto, unfolding(startup_rules::specs::Operations::effect))]
pub fn field_of(
    cx: &Setting<'_>,
    world: &World,
    v: &Slot,
    name: &Text,
    at: u32,
) -> Result<Slot, Stop>
    ensures { Does (op cx.now.within (Op.FieldOf v.now name.now at) world.now) result world.now }
{
    let Some(object) = world.object_of(v) else {
        return Err(wrong_kind(at));
    };
    let place = match field_place(cx.names(), object, name.as_str(), at) {
        Ok(place) => place,
        Err(stop) => return Err(stop),
    };
    Ok(parts(object)[place].share()?)
}

/// A field of a bean or recorder is the value from now on.
#[tactic(auto, unfolding(startup_rules::specs::Operations::effect))]
pub fn set(
    cx: &Setting<'_>,
    world: &mut World,
    target: &Slot,
    v: Slot,
    name: &Text,
    at: u32,
) -> Result<Slot, Stop>
    ensures { Does (op cx.now.within (Op.Set target.now v name.now at) world.old) result world.new }
{
    let Slot::Obj(number) = target else {
        return Err(wrong_kind(at));
    };
    let Some(object) = world.object_of(target) else {
        return Err(wrong_kind(at));
    };
    let place = match field_place(cx.names(), object, name.as_str(), at) {
        Ok(place) => place,
        Err(stop) => return Err(stop),
    };
    world.set_at(*number, place, v);
    Ok(Slot::Null)
}

/// One more element of a list.
#[tactic(auto, unfolding(startup_rules::specs::Operations::effect))]
pub fn add(cx: &Setting<'_>, world: &mut World, list: &Slot, v: Slot, at: u32) -> Result<Slot, Stop>
    ensures { Does (op cx.now.within (Op.Add list.now v at) world.old) result world.new }
{
    let Slot::Obj(number) = list else {
        return Err(wrong_kind(at));
    };
    if world.items_of(list).is_none() {
        return Err(wrong_kind(at));
    }
    world.pay_cells(1)?;
    world.list_add(*number, v)?;
    Ok(Slot::Null)
}

/// A new object, of that many parts.
fn made(world: &mut World, object: Object, count: usize) -> Result<Slot, Stop>
    requires { count ≡ length (worlds.parts object) }
    ensures { Makes (rules.made object world.old) result world.old world.new }
{
    let Ok(number) = u32::try_from(world.objects().len()) else {
        return Err(Stop::Memory);
    };
    world.pay_cells(count.saturating_add(1))?;
    world.push_object(object)?;
    Ok(Slot::Obj(number))
}

/// A new list.
#[tactic(auto, unfolding(startup_rules::specs::Operations::effect))]
pub fn list_of(cx: &Setting<'_>, world: &mut World, items: Seq<Slot>) -> Result<Slot, Stop>
    ensures { Does (op cx.now.within (Op.ListOf items) world.old) result world.new }
{
    let count = items.len();
    made(world, Object::List(items), count)
}

/// The place of the first bean of that name.
fn bean_place(beans: &[BeanDecl], name: &str) -> Option<usize>
    ensures { result ≡ position (λ (b : BeanDecl). bytes_eq b.name name.now) beans.now }
{
    beans.iter().position(|bean| bean.name.as_str() == name)
}

/// The number of the first bean of that name, or how many beans there are.
fn bean_of(names: &Names, name: &str) -> usize
    ensures { result ≡ rules.bean_of names.now name.now }
{
    let beans = names.beans.as_slice();
    bean_place(beans, name).unwrap_or(beans.len())
}

/// The values in the declared order of their fields; a field that wasn't written is null.
fn arranged(alloc: Global, fields: &[Text], written: &Named<'_>) -> Result<Seq<Slot>, Memory>
    ensures { IfOk result (λ values. values ≡ arranged Slot.Null fields.now written.now) }
{
    let mut values = Seq::with_capacity(alloc, fields.len())?;
    for field in fields {
        let value = match written.newest(field.as_str()) {
            Some(value) => value.share()?,
            None => Slot::Null,
        };
        values.push(value)?;
    }
    Ok(values)
}

/// A new bean.
#[tactic(auto, unfolding(startup_rules::specs::Operations::effect))]
pub fn bean(
    cx: &Setting<'_>,
    world: &mut World,
    written: &Named<'_>,
    name: &str,
) -> Result<Slot, Stop>
    ensures { Does (op cx.now.within (Op.Bean written.now name.now) world.old) result world.new }
{
    let Ok(number) = u32::try_from(bean_of(cx.names(), name)) else {
        return Err(Stop::Memory);
    };
    let values = arranged(world.alloc(), cx.names().fields_of(number), written)?;
    let count = values.len();
    made(world, Object::Bean(number, values), count)
}

/// A static of the recorder.
#[tactic(auto, unfolding(startup_rules::specs::Operations::effect))]
pub fn get_static(cx: &Setting<'_>, world: &World, name: &Text) -> Result<Slot, Stop>
    ensures { Does (op cx.now.within (Op.GetStatic name.now) world.now) result world.now }
{
    let Some(place) = cx.names().static_place(cx.recorder(), name.as_str()) else {
        return Ok(Slot::Null);
    };
    match world.static_at(cx.recorder(), place) {
        Some(slot) => Ok(slot.share()?),
        None => Ok(Slot::Null),
    }
}

/// A static of the recorder is the value from now on.
#[tactic(auto, unfolding(startup_rules::specs::Operations::effect))]
pub fn put_static(cx: &Setting<'_>, world: &mut World, v: Slot, name: &Text) -> Result<Slot, Stop>
    ensures { Does (op cx.now.within (Op.PutStatic v name.now) world.old) result world.new }
{
    if let Some(place) = cx.names().static_place(cx.recorder(), name.as_str()) {
        world.set_static(cx.recorder(), place, v);
    }
    Ok(Slot::Null)
}
