// Laws over the definitions alone. A law takes nothing, does nothing and answers nothing.

ghost use Rattle.pyr_dsc.specs.Laws.{OpeningKeepsTime, AppendingKeepsTime, RunsKeepTime, OneRun};
ghost use Rattle.pyr_dsc.specs.Time.{TimeIsOfThree, ExitsDecide};

/// A task that opens a cluster, or is appended to one that ends no later than its top level, doesn't
/// raise the parallel time.
pub fn steps_keep_time()
    ensures opening { OpeningKeepsTime }
    ensures appending { AppendingKeepsTime }
{}

/// Along a run of the clustering the parallel time never grows.
pub fn runs_keep_time()
    ensures { RunsKeepTime }
{}

/// A graph has one run: its steps, its clusters and its parallel times are determined.
pub fn a_graph_has_one_run()
    ensures { OneRun }
{}

/// At each moment of a run the parallel time is the greatest of three numbers: the latest finish of an
/// examined task, and the priorities of the next free and of the next partly free task. Of the examined
/// tasks the exits alone count.
pub fn time_is_of_three()
    ensures three { TimeIsOfThree }
    ensures exits { ExitsDecide }
{}
