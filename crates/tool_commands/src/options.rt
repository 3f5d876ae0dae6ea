// What the words of a `perf` say of its runs.

use loss_runs::RunPlan;
use tool_base::Shape;

/// The options of a `perf`: the code, the numbers of source and of encoding symbols of its block,
/// and the runs.
#[derive(Clone, Copy, Debug, PartialEq, Eq)]
pub struct PerfOptions {
    pub shape: Shape,
    pub k: u32,
    pub n: u32,
    pub plan: RunPlan,
}
