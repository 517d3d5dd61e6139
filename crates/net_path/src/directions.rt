// What the steps of a crossbar cost, in the order of the layers and against it.

ghost use Rattle.std.specs.Prelude.{◌≡◌, ℕ};
ghost use Rattle.net_path.specs.Ways.{AreWaysWithin, AreStepsWithin, IsOnward, step_by, step_price};
ghost use Rattle.net_path.specs.Ways.{IsFromAlone, IsFromBoth, IsFromMemory, IsFromConstant};
ghost use Rattle.net_path.specs.Ways.{IsToAlone, IsToBoth, IsToMemory, IsToConstant};

use crate::crossbar::{Onward, Steps, Ways};

fn from_alone(ways: &Ways) -> Onward
    requires { AreWaysWithin ways.now }
    ensures is { IsFromAlone ways.now result }
    ensures within { IsOnward result }
{
    Onward {
        alone: ways.between,
        both: ways.between + ways.store,
        memory: ways.store,
        constant: 0,
    }
}

fn from_both(ways: &Ways) -> Onward
    requires { AreWaysWithin ways.now }
    ensures is { IsFromBoth ways.now result }
    ensures within { IsOnward result }
{
    Onward {
        alone: ways.between,
        both: ways.between,
        memory: 0,
        constant: 0,
    }
}

fn from_memory(ways: &Ways) -> Onward
    requires { AreWaysWithin ways.now }
    ensures is { IsFromMemory ways.now result }
    ensures within { IsOnward result }
{
    Onward {
        alone: ways.load,
        both: ways.load,
        memory: 0,
        constant: 0,
    }
}

fn from_constant(ways: &Ways) -> Onward
    requires { AreWaysWithin ways.now }
    ensures is { IsFromConstant ways.now result }
    ensures within { IsOnward result }
{
    Onward {
        alone: ways.set,
        both: ways.set + ways.store,
        memory: ways.store,
        constant: 0,
    }
}

/// The steps from a layer to the one behind it.
pub(crate) fn forwards(ways: &Ways) -> Steps
    requires { AreWaysWithin ways.now }
    ensures steps { (p q : ℕ) → step_by result p q ≡ step_price ways.now p q }
    ensures within { AreStepsWithin result }
{
    Steps {
        alone: from_alone(ways),
        both: from_both(ways),
        memory: from_memory(ways),
        constant: from_constant(ways),
        kept: ways.store,
        left: 0,
    }
}

// To come to a register alone from each class of places.
fn to_alone(ways: &Ways) -> Onward
    requires { AreWaysWithin ways.now }
    ensures is { IsToAlone ways.now result }
    ensures within { IsOnward result }
{
    Onward {
        alone: ways.between,
        both: ways.between,
        memory: ways.load,
        constant: ways.set,
    }
}

fn to_both(ways: &Ways) -> Onward
    requires { AreWaysWithin ways.now }
    ensures is { IsToBoth ways.now result }
    ensures within { IsOnward result }
{
    Onward {
        alone: ways.between + ways.store,
        both: ways.between,
        memory: ways.load,
        constant: ways.set + ways.store,
    }
}

fn to_memory(ways: &Ways) -> Onward
    requires { AreWaysWithin ways.now }
    ensures is { IsToMemory ways.now result }
    ensures within { IsOnward result }
{
    Onward {
        alone: ways.store,
        both: 0,
        memory: 0,
        constant: ways.store,
    }
}

fn to_constant() -> Onward
    ensures is { IsToConstant result }
    ensures within { IsOnward result }
{
    Onward {
        alone: 0,
        both: 0,
        memory: 0,
        constant: 0,
    }
}

/// The steps from a layer to the one before it: what it costs to have come from there.
pub(crate) fn backwards(ways: &Ways) -> Steps
    requires { AreWaysWithin ways.now }
    ensures steps { (p q : ℕ) → step_by result p q ≡ step_price ways.now q p }
    ensures within { AreStepsWithin result }
{
    Steps {
        alone: to_alone(ways),
        both: to_both(ways),
        memory: to_memory(ways),
        constant: to_constant(),
        kept: 0,
        left: ways.store,
    }
}
