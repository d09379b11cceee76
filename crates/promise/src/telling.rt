// That the promise is about more than nothing: a gate whose timing tells something.
ghost use Rattle.std.specs.Prelude.{[], ◌∷◌};
ghost use Rattle.promise.specs.Telling.{Telling};

// Two gates opened alike, over replies with the same asked ticks and classes, that can be told apart: one releases
// at 10, 42, 52 and 192 after 0, 1, 0 and 2 misses, the other at 10, 22, 32 and 60 after none.
pub fn telling()
    ensures { Telling (10 ∷ 42 ∷ 52 ∷ 192 ∷ []) (0 ∷ 1 ∷ 0 ∷ 2 ∷ []) (10 ∷ 22 ∷ 32 ∷ 60 ∷ []) (0 ∷ 0 ∷ 0 ∷ 0 ∷ []) }
{}
