//! The paths that a job names.
use ee_interface::File;
use ee_interface::command_line::Job;

/// The path of the file of this kind that a job names. None where it names none, as of a script
/// that comes on standard input.
///
/// Source: ours.
pub fn path_of<'a>(job: &Job<'a>, file: File) -> Option<&'a str> {
    match file {
        File::Image => image_of(job),
        File::Before => before_of(job),
        File::Script => script_of(job),
        File::Certificate => certificate_of(job),
        File::Settings => settings_of(job),
        File::Dump => dump_of(job),
        File::Values => values_of(job),
    }
}

/// The path of its image.
fn image_of<'a>(job: &Job<'a>) -> Option<&'a str> {
    match *job {
        Job::Format { image, .. }
        | Job::Import { image, .. }
        | Job::Export { image, .. }
        | Job::ImportHex { image, .. }
        | Job::ExportHex { image, .. }
        | Job::Inspect { image }
        | Job::Run { image, .. }
        | Job::Get { image, .. }
        | Job::Set { image, .. }
        | Job::Unset { image, .. }
        | Job::Apply { image, .. }
        | Job::Verify { image, .. } => Some(image),
        _ => image_of_others(job),
    }
}

/// The same of the jobs that are not there.
fn image_of_others<'a>(job: &Job<'a>) -> Option<&'a str> {
    match *job {
        Job::Plan { image, .. }
        | Job::Check { image, .. }
        | Job::Wear { image, .. }
        | Job::States { image }
        | Job::Clean { image }
        | Job::Rescue { image }
        | Job::ForgetAll { image, .. }
        | Job::Stale { image, .. }
        | Job::Tidy { image, .. }
        | Job::List { image, .. }
        | Job::ImportXcube { image, .. } => Some(image),
        _ => None,
    }
}

/// The path of the image that was before it.
fn before_of<'a>(job: &Job<'a>) -> Option<&'a str> {
    match *job {
        Job::Wear { before, .. } => before,
        _ => None,
    }
}

/// The path of its script.
fn script_of<'a>(job: &Job<'a>) -> Option<&'a str> {
    match *job {
        Job::Run { script, .. }
        | Job::Plan { script, .. }
        | Job::Check { script, .. }
        | Job::Size { script, .. } => Some(script),
        _ => None,
    }
}

/// The path of its certificate.
fn certificate_of<'a>(job: &Job<'a>) -> Option<&'a str> {
    match *job {
        Job::Check { certificate, .. } => Some(certificate),
        _ => None,
    }
}

/// The path of its settings.
fn settings_of<'a>(job: &Job<'a>) -> Option<&'a str> {
    match *job {
        Job::Get { settings, .. }
        | Job::Set { settings, .. }
        | Job::Unset { settings, .. }
        | Job::Apply { settings, .. }
        | Job::Verify { settings, .. }
        | Job::Header { settings, .. }
        | Job::Stale { settings, .. }
        | Job::Tidy { settings, .. } => Some(settings),
        Job::List { settings, .. } => settings,
        _ => None,
    }
}

/// The path of its dump.
fn dump_of<'a>(job: &Job<'a>) -> Option<&'a str> {
    match *job {
        Job::Import { dump, .. }
        | Job::Export { dump, .. }
        | Job::ImportHex { dump, .. }
        | Job::ExportHex { dump, .. }
        | Job::ImportXcube { dump, .. } => Some(dump),
        _ => None,
    }
}

/// The path of its values.
fn values_of<'a>(job: &Job<'a>) -> Option<&'a str> {
    match *job {
        Job::Apply { values, .. } | Job::Verify { values, .. } => Some(values),
        _ => None,
    }
}
