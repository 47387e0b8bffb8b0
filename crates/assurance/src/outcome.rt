// What planning an arena and driving on its sheet comes to.
use crate::drive::Drive;
use games::verdict::Verdict;

#[derive(Drop)]
pub struct Outcome {
    pub verdict: Verdict,
    // The drive as the calls left it, where the verdict is planned.
    pub drive: Option<Drive>,
}
