// Where the values of a run are kept: in a map for the module and in two for each depth of calls,
// so that a call begins with nothing assigned in one step.

ghost use Rattle.std.specs.Prelude.{◌≡◌, ◌+◌, ◌<◌, ◌≤◌, ◌++◌, length, replicate, OnOk, IfOk};
ghost use Rattle.ob_mean.specs.Store.{new_store, read, assigned, begun};
ghost use Rattle.std.specs.Prelude.{ℕ, List, [], cond, Some};
ghost use Rattle.ob_interp.specs.Kept.{store_in, held, is_part, kept_at};

use ob_mean::{Location, Object};
use ob_syntax::Value;
use pra_list::Seq;
use std::alloc::{AllocError, Global};
use std::collections::BTreeMap;
use std::mem::replace;

/// Values by the number of a variable and the path in it.
type Parts = BTreeMap<(u32, Vec<u32>), Value>;

/// What was assigned to the value parameters and the locals of the call at one depth.
#[derive(Drop)]
pub struct Layer {
    pub params: BTreeMap<(u32, Vec<u32>), Value>,
    pub locals: BTreeMap<(u32, Vec<u32>), Value>,
}

/// What was assigned in a run: to the module's variables, and in the calls, by their depth.
#[derive(Drop)]
pub struct Memory {
    pub module: BTreeMap<(u32, Vec<u32>), Value>,
    pub layers: Vec<Layer>,
}

fn empty_layer(alloc: Global) -> Layer
    ensures params { result.params.entries ≡ [] }
    ensures locals { result.locals.entries ≡ [] }
{
    Layer {
        params: BTreeMap::new(alloc),
        locals: BTreeMap::new(alloc),
    }
}

/// A number and a path, as they are looked up.
fn part(n: u32, path: Seq<u32>) -> (u32, Vec<u32>)
    ensures number { result.0 ≡ n }
    ensures path { result.1.items ≡ path }
{
    (n, path.into_vec())
}

/// What a part holds, if something was assigned to it.
fn found(parts: &BTreeMap<(u32, Vec<u32>), Value>, key: (u32, Vec<u32>)) -> Option<Value>
    ensures { result ≡ held parts.now.entries key.0 key.1.items }
{
    match parts.get(&key) {
        Some(value) => Some(*value),
        None => None,
    }
}

fn put(
    parts: &mut BTreeMap<(u32, Vec<u32>), Value>,
    key: (u32, Vec<u32>),
    value: Value,
) -> Result<(), AllocError>
    ensures { OnOk result ((n : ℕ) (path : List ℕ) →
        held parts.new.entries n path ≡
        cond (is_part n path key.0 key.1.items) (Some value) (held parts.old.entries n path)) }
{
    match parts.insert(key, value) {
        Ok(_) => Ok(()),
        Err(_) => Err(AllocError),
    }
}

impl Memory {
    /// Nothing is assigned.
    pub fn new(alloc: Global) -> Memory
        ensures { store_in result ≡ new_store }
    {
        Memory {
            module: BTreeMap::new(alloc),
            layers: Vec::new(alloc),
        }
    }

    // What was assigned to a location, if anything was.
    fn kept(&self, at: Location) -> Option<Value>
        ensures { result ≡ kept_at self.now at.object at.path }
    {
        match at.object {
            Object::Module(n) => found(&self.module, part(n, at.path)),
            Object::Param(depth, n) => match self.layers.get(depth as usize) {
                Some(layer) => found(&layer.params, part(n, at.path)),
                None => None,
            },
            Object::Local(depth, n) => match self.layers.get(depth as usize) {
                Some(layer) => found(&layer.locals, part(n, at.path)),
                None => None,
            },
        }
    }

    /// What a location holds, where start is what it holds until something is assigned to it.
    pub fn content(&self, start: Value, at: Location) -> Value
        ensures { result ≡ read (store_in self.now) start at }
    {
        match self.kept(at) {
            Some(value) => value,
            None => start,
        }
    }

    // There is a layer for this depth.
    fn reach(&mut self, alloc: Global, depth: usize) -> Result<(), AllocError>
        ensures same { store_in self.new ≡ store_in self.old }
        ensures there { OnOk result (depth < length self.new.layers.items) }
    {
        while self.layers.len() <= depth {
            self.layers.push(empty_layer(alloc))?;
        }
        Ok(())
    }

    /// Something is assigned to a location. An error is want of memory; the memory is then
    /// dropped by its caller.
    pub fn assign(&mut self, alloc: Global, at: Location, value: Value) -> Result<(), AllocError>
        ensures { OnOk result (store_in self.new ≡ assigned (store_in self.old) at value) }
    {
        match at.object {
            Object::Module(n) => put(&mut self.module, part(n, at.path), value),
            Object::Param(depth, n) => {
                self.reach(alloc, depth as usize)?;
                let mut layer = replace(&mut self.layers[depth as usize], empty_layer(alloc));
                put(&mut layer.params, part(n, at.path), value)?;
                self.layers[depth as usize] = layer;
                Ok(())
            }
            Object::Local(depth, n) => {
                self.reach(alloc, depth as usize)?;
                let mut layer = replace(&mut self.layers[depth as usize], empty_layer(alloc));
                put(&mut layer.locals, part(n, at.path), value)?;
                self.layers[depth as usize] = layer;
                Ok(())
            }
        }
    }

    /// A call begins at a depth: nothing is assigned to its parameters and locals.
    pub fn begin(&mut self, alloc: Global, depth: u32) -> Result<(), AllocError>
        ensures { OnOk result (store_in self.new ≡ begun (store_in self.old) depth) }
    {
        self.reach(alloc, depth as usize)?;
        self.layers[depth as usize] = empty_layer(alloc);
        Ok(())
    }
}
