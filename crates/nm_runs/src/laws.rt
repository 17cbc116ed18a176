//! Laws of the runs of a batch. Each function does nothing, and its contract is the law.

ghost use Rattle.nm_model.specs.definitions.Cut.{EachBatchHasOneCut};
ghost use Rattle.nm_model.specs.definitions.Cut.{CutIsOldCut, EachLimitCuts, RunCountCountsRuns};
ghost use Rattle.nm_runs.specs.LimitRows.{CutRows};

/// The stretches that `cut` returns are the batch when joined, neighbours go to different nodes, and none is empty. No
/// other list of stretches has these properties.
pub fn each_batch_has_one_cut()
    ensures { EachBatchHasOneCut }
{}

/// Under the greatest limit a batch is cut as without one.
pub fn cut_is_old_cut()
    ensures { CutIsOldCut }
{}

/// Under each limit the runs are the batch when joined, none is empty or longer than the limit, and a run followed by
/// another for the same node is as long as the limit. No other list of runs has these properties.
pub fn each_limit_cuts()
    ensures { EachLimitCuts }
{}

/// The number of runs depends on the nodes alone, not on what the requests are for.
pub fn run_count_counts_runs()
    ensures { RunCountCountsRuns }
{}

/// Worked cuts.
pub fn cut_rows()
    ensures { CutRows }
{}
