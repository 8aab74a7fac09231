// Which options a job takes.
//
// Rules: `job_rules`, Options.
ghost use Rattle.std.specs.Prelude.{◌≡◌, map};
ghost use Rattle.clap.specs.Words.{found_of, rows_of};
ghost use Rattle.command_line.specs.Rules.{takes};
ghost use Rattle.command_line.specs.Choices.{allows, takes_each, takes_given};

use crate::simple::value;
use clap::ArgMatches;
use job_rules::{OPTION_COUNT, OPTIONS};

// Whether the job takes each option that is given.
#[tactic(auto, unfolding(crate::specs::Choices::takes_given))]
pub(crate) fn takes_given(found: &ArgMatches<'_>, job: &str) -> bool
    ensures { result ≡ takes_given (rows_of (found_of found.now)) job.now }
{
    let options: [&str; OPTION_COUNT] = OPTIONS;
    takes_each(found, job, options.as_slice())
}

// Whether the job takes each of these options that is given.
fn takes_each(found: &ArgMatches<'_>, job: &str, options: &[&str]) -> bool
    ensures { result ≡ takes_each (rows_of (found_of found.now)) job.now
        (map (λ w. w.now) options.now) }
{
    for option in options {
        if !allows(found, job, option) {
            return false;
        }
    }
    true
}

// Whether an option is not given, or the job takes it.
#[tactic(auto, unfolding(crate::specs::Choices::allows))]
fn allows(found: &ArgMatches<'_>, job: &str, option: &str) -> bool
    ensures { result ≡ allows (rows_of (found_of found.now)) job.now option.now }
{
    value(found, option).is_none() || takes(job, option)
}

// Whether a job takes an option.
#[tactic(auto, unfolding(job_rules::specs::Options::takes))]
fn takes(job: &str, option: &str) -> bool
    ensures { result ≡ takes job.now option.now }
{
    if job == "flat" || job == "make" {
        false
    } else if job == "exercise" {
        option == "zone" || option == "format"
    } else if job == "render" {
        true
    } else if job == "trace" || job == "list" {
        option != "format"
    } else {
        !(option == "format" || option == "spans")
    }
}
