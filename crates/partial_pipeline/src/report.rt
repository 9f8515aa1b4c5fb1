//! What is known of a pipeline that has ended.

use crate::stage::StageEnd;

/// What is known of a pipeline that has ended: the scans of its monitor, and how its stages ended. A count
/// says how many items a stage has worked on. Counts are in the order of the stages.
#[derive(Debug, Drop)]
pub struct PipelineReport {
    /// The scans that the monitor made while the stages worked, in order.
    pub scans: Vec<Vec<u64>>,
    /// The scan that the monitor made when all stages had ended. `None` when it was refused since the memory's
    /// epochs are used up.
    pub last: Option<Vec<u64>>,
    /// The counts that the memory held when it was closed.
    pub counts: Vec<u64>,
    /// Why each stage ended.
    pub ends: Vec<StageEnd>,
}
