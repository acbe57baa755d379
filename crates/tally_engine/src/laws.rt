// A law of engines, as the contract of a function that does nothing.
ghost use Rattle.std.specs.Prelude.{◌≤◌};
ghost use Rattle.tally_engine.specs.{declared.engine.Engine.Engine, Engine.{held, bound}};

/// No engine keeps more entries than its bound.
pub fn engine_within()
    ensures { (engine : Engine) → held engine ≤ bound engine }
{}
