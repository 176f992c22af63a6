//! A job that is resumed, and how its input is run.
use sz_attempt::Job;
use sz_types::Frame;

/// A job that is resumed, and how an input is run by it.
pub struct ResumedJob {
    /// What the attempts have in common.
    pub job: Job,
    /// How many workers run a round: 1 to 64.
    pub workers: u32,
    /// How records are told apart.
    pub frame: Frame,
    /// The most records of a shard: at least 1.
    pub shard: u32,
}

impl Drop for ResumedJob {
    fn drop(self) {
        let ResumedJob {
            job: _,
            workers: _,
            frame: _,
            shard: _,
        } = self;
    }
}
