//! What small command lines mean.
ghost use Rattle.std.specs.Prelude.{◌≡◌, ◌∷◌, [], None, Some, codes, false, true};
ghost use Rattle.wy_top_words.specs.CommandLine.{NeverByWorkers, again, big, check, command_of, conds, order_of, probe, run, with_workers};

/// Options stand before, between and behind the operands, as two words or as one, each once at most, and `--` ends them.
pub fn lines_mean()
    ensures plain { command_of (codes "check" ∷ codes "a" ∷ codes "none" ∷ [])
        ≡ Some (check (codes "a") (codes "none") 20000) }
    ensures equals { command_of (codes "check" ∷ codes "a" ∷ codes "none" ∷ codes "--budget=5" ∷ [])
        ≡ Some (check (codes "a") (codes "none") 5) }
    ensures between { command_of (codes "check" ∷ codes "a" ∷ codes "--budget" ∷ codes "5" ∷ codes "none" ∷ [])
        ≡ Some (check (codes "a") (codes "none") 5) }
    ensures ended { command_of (codes "check" ∷ codes "--" ∷ codes "-a" ∷ codes "none" ∷ [])
        ≡ Some (check (codes "-a") (codes "none") 20000) }
    ensures twice { command_of (codes "check" ∷ codes "--budget" ∷ codes "5" ∷ codes "a" ∷ codes "none" ∷ codes "--budget" ∷ codes "6" ∷ []) ≡ None }
    ensures missing { command_of (codes "check" ∷ codes "a" ∷ codes "none" ∷ codes "--budget" ∷ []) ≡ None }
    ensures unknown { command_of (codes "check" ∷ codes "a" ∷ codes "none" ∷ codes "--threads" ∷ codes "2" ∷ []) ≡ None }
    ensures alone { order_of (codes "check" ∷ codes "a" ∷ codes "none" ∷ []) ≡ Some (with_workers (check (codes "a") (codes "none") 20000) 1) }
    ensures eight { order_of (codes "check" ∷ codes "a" ∷ codes "--workers=8" ∷ codes "none" ∷ []) ≡ Some (with_workers (check (codes "a") (codes "none") 20000) 8) }
    ensures crowd { order_of (codes "check" ∷ codes "a" ∷ codes "none" ∷ codes "--workers" ∷ codes "65" ∷ []) ≡ None }
    ensures nobody { order_of (codes "check" ∷ codes "a" ∷ codes "none" ∷ codes "--workers" ∷ codes "0" ∷ []) ≡ None }
    ensures again { order_of (codes "check" ∷ codes "a" ∷ codes "none" ∷ codes "--workers" ∷ codes "2" ∷ codes "--workers=2" ∷ []) ≡ None }
    ensures idle { order_of (codes "fmt" ∷ codes "a" ∷ codes "--workers" ∷ codes "2" ∷ []) ≡ None }
    ensures stray { command_of (codes "conds" ∷ codes "-a" ∷ []) ≡ None }
    ensures single { command_of (codes "conds" ∷ codes "-" ∷ []) ≡ Some (conds (codes "-")) }
    ensures elsewhere { command_of (codes "conds" ∷ codes "a" ∷ codes "--budget" ∷ codes "5" ∷ []) ≡ None }
    ensures whole { command_of (codes "run" ∷ codes "--stats" ∷ codes "a" ∷ codes "b" ∷ codes "--steps=7" ∷ codes "f" ∷ codes "()" ∷ [])
        ≡ Some (run (codes "a") (codes "b") (codes "f") (codes "()") 20000 7 true) }
    ensures short { command_of (codes "run" ∷ codes "a" ∷ codes "none" ∷ codes "f" ∷ []) ≡ None }
    ensures made { command_of (codes "big" ∷ codes "1" ∷ codes "65536" ∷ []) ≡ Some (big 1 65536 20000 10000000) }
    ensures many { command_of (codes "big" ∷ codes "501" ∷ codes "7" ∷ []) ≡ None }
    ensures few { command_of (codes "big" ∷ codes "0" ∷ codes "7" ∷ []) ≡ None }
    ensures digits { command_of (codes "big" ∷ codes "00000000000001" ∷ codes "7" ∷ []) ≡ None }
    ensures probed { command_of (codes "probe" ∷ codes "a" ∷ codes "f" ∷ codes "007" ∷ codes "2000" ∷ []) ≡ Some (probe (codes "a") (codes "f") 7 2000) }
    ensures untried { command_of (codes "probe" ∷ codes "a" ∷ codes "f" ∷ codes "0" ∷ codes "9" ∷ []) ≡ None }
    ensures long { command_of (codes "probe" ∷ codes "a" ∷ codes "f" ∷ codes "9" ∷ codes "2001" ∷ []) ≡ None }
    ensures inquiring { order_of (codes "probe" ∷ codes "a" ∷ codes "f" ∷ codes "9" ∷ codes "9" ∷ codes "--workers" ∷ codes "2" ∷ []) ≡ None }
    ensures renewed { order_of (codes "again" ∷ codes "a" ∷ codes "c" ∷ codes "--workers" ∷ codes "4" ∷ []) ≡ Some (with_workers (again (codes "a") (codes "c") 20000) 4) }
    ensures spent { command_of (codes "again" ∷ codes "--budget=0" ∷ codes "a" ∷ codes "c" ∷ []) ≡ Some (again (codes "a") (codes "c") 0) }
    ensures uncached { command_of (codes "again" ∷ codes "a" ∷ []) ≡ None }
    ensures stepped { command_of (codes "again" ∷ codes "a" ∷ codes "c" ∷ codes "--steps" ∷ codes "5" ∷ []) ≡ None }
    ensures nothing { command_of [] ≡ None }
    ensures other { command_of (codes "help" ∷ []) ≡ None }
{}

/// What words ask for doesn't depend on how many workers they give.
pub fn workers_change_nothing()
    ensures nothing { NeverByWorkers }
{}
