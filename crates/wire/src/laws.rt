//! States what holds of scripts: a function that does nothing, with a law.
ghost use Rattle.std.specs.Prelude.{◌≡◌, ℕ, List};
ghost use Rattle.reference.specs.Alike.{Alike};
ghost use Rattle.reference.specs.World.{World};
ghost use Rattle.wire.specs.Script.{script};

/// Says that worlds which no call can distinguish answer every text by the same lines. So
/// forgetting, wherever it is done, changes no later reply.
pub fn alike_worlds_have_one_script()
    ensures { (w : World) (v : World) → Alike w v → (text : List ℕ)
        → script w text ≡ script v text }
{}
