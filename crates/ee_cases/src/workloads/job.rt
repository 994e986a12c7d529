//! The jobs that are timed, their names, and the parts that they begin with.
/// What a user waits for.
#[derive(Clone, Copy)]
pub enum Job {
    Run,
    BrownOuts,
    Crowded,
    Refused,
    Certify,
    Settings,
    Parts,
}

/// Each of them.
pub const JOBS: [Job; 7] = [
    Job::Run,
    Job::BrownOuts,
    Job::Crowded,
    Job::Refused,
    Job::Certify,
    Job::Settings,
    Job::Parts,
];

impl Job {
    /// Its name, and its part: how many pages each set has, how many words a page, and how many
    /// variables have a value.
    pub fn facts(self) -> (&'static str, usize, usize, u32) {
        match self {
            Job::Run => ("run", 8, 512, 1000),
            Job::BrownOuts => ("brown-outs", 2, 256, 100),
            Job::Crowded => ("crowded", 64, 512, 30000),
            // As many as there are slots.
            Job::Refused => ("refused", 16, 512, 8128),
            Job::Certify => ("certify", 4, 512, 500),
            Job::Settings => ("settings", 4, 512, 300),
            Job::Parts => ("parts", 32, 512, 2000),
        }
    }
}

/// The job of this name.
pub fn job_of(name: &str) -> Option<Job> {
    for job in JOBS {
        if job.facts().0 == name {
            return Some(job);
        }
    }
    None
}
