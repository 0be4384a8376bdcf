//! Laws of starts. No function here does anything when it runs.
ghost use Rattle.wy_mach_run.specs.Laws.{HaveOneStart, HaveOneRefusal, StartOrRefuse};

/// Words start a program in one way at most, are refused for one reason at most, and are not refused where they start.
pub fn at_most_one_start()
    ensures start { HaveOneStart }
    ensures refusal { HaveOneRefusal }
    ensures apart { StartOrRefuse }
{}
