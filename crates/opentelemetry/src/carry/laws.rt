//! Laws about the definitions that the contract of a run uses. Each function does nothing: its
//! contract is the law.
ghost use Rattle.opentelemetry.specs.Laws.{RefusalsChangeNothing, SurvivorsAreThose};
ghost use Rattle.opentelemetry.specs.LongRuns.{AttachesInOrder, FilledAndBegunAgain};
ghost use Rattle.opentelemetry.specs.WorkedRuns.{DetachedAgain, DetachedBefore, OldestFirst};
ghost use Rattle.opentelemetry.specs.WorkedRuns.{ThreeAndOne};

/// States that an attach leaves its position and context if and only if it was accepted and no
/// later event detaches it.
pub fn survivors_are_those()
    ensures { SurvivorsAreThose }
{}

/// States that a refused attach, or a detach of a number that doesn't survive, leaves the stack
/// unchanged: the live attachments and both counts.
pub fn refusals_change_nothing()
    ensures { RefusalsChangeNothing }
{}

/// States the live attachments and the legal outcomes of four short runs worked by hand.
pub fn worked_runs()
    ensures three_and_one { ThreeAndOne }
    ensures detached_again { DetachedAgain }
    ensures detached_before { DetachedBefore }
    ensures oldest_first { OldestFirst }
{}

/// States the legal outcomes and the survivors of runs with as many attaches as there are
/// positions.
pub fn long_runs()
    ensures in_order { AttachesInOrder }
    ensures begun_again { FilledAndBegunAgain }
{}
