// The options of a job by their values: numbers within a range, and the format.

ghost use Rattle.std.specs.Prelude.{◌≡◌, ◌%◌, IfSome, option_map};
ghost use Rattle.clap.specs.Words.{found_of, rows_of};
ghost use Rattle.command_line.specs.Rules.{AreSettings, IsWithin, IsZone, Settings};
ghost use Rattle.command_line.specs.Choices.{format_in, multiple_of_step, number_option, number_within, settings_in, spans_in, zone_in};

use crate::simple::value;
use clap::ArgMatches;
use job_rules::{
    Format, MAX_PLANES, MAX_SIZE, MAX_SKILL, MAX_ZONE, MIN_OPENINGS, MIN_PLANES, MIN_SIZE,
    MIN_SKILL, MIN_ZONE, MOST_OPENINGS, Settings, ZONE_STEP,
};
use numerals::numeral;
use view_rules::Spans;

/// The size of a zone in bytes where none is asked for.
pub const DEFAULT_ZONE: u32 = 6_291_456;

/// The skill where none is asked for.
pub const DEFAULT_SKILL: u32 = 3;

/// The size of the view where none is asked for.
pub const DEFAULT_SIZE: u32 = MAX_SIZE;

/// The most planes of a view where no number is asked for.
pub const DEFAULT_PLANES: u32 = MIN_PLANES;

/// The most openings of a view where no number is asked for.
pub const DEFAULT_OPENINGS: u32 = MIN_OPENINGS;

// The number that a word writes, where it is from `low` to `high`.
#[tactic(auto, unfolding(crate::specs::Choices::number_within))]
pub(crate) fn number_within(low: u32, high: u32, text: &str) -> Option<u32>
    ensures value { result ≡ number_within low high text.now }
    ensures within { IfSome result (λ n. IsWithin low high n) }
{
    match numeral(text.as_bytes()) {
        None => None,
        Some(n) => {
            if low as u64 <= n && n <= high as u64 {
                Some(n as u32)
            } else {
                None
            }
        }
    }
}

// The number of an option, or the default of one that is not given.
#[tactic(auto, unfolding(crate::specs::Choices::number_option))]
fn number_option(low: u32, high: u32, default: u32, given: Option<&str>) -> Option<u32>
    requires { IsWithin low high default }
    ensures value { result ≡ number_option low high default (option_map (λ s. s.now) given.entry) }
    ensures within { IfSome result (λ n. IsWithin low high n) }
{
    match given {
        None => Some(default),
        Some(text) => number_within(low, high, text),
    }
}

// A size that is a multiple of the step.
#[tactic(auto, unfolding(crate::specs::Choices::multiple_of_step))]
fn multiple_of_step(size: u32) -> Option<u32>
    ensures value { result ≡ multiple_of_step size }
    ensures step { IfSome result (λ n. n % ZONE_STEP ≡ 0) }
    ensures same { IfSome result (λ n. n ≡ size) }
{
    if size % ZONE_STEP == 0 {
        Some(size)
    } else {
        None
    }
}

// The size of the zone.
#[tactic(auto, unfolding(crate::specs::Choices::zone_in))]
pub(crate) fn zone_in(found: &ArgMatches<'_>) -> Option<u32>
    ensures value { result ≡ zone_in (rows_of (found_of found.now)) }
    ensures zone { IfSome result (λ n. IsZone n) }
{
    let size = number_option(MIN_ZONE, MAX_ZONE, DEFAULT_ZONE, value(found, "zone"))?;
    multiple_of_step(size)
}

// The numbers of a job over a level.
#[tactic(auto, unfolding(crate::specs::Choices::settings_in))]
pub(crate) fn settings_in(found: &ArgMatches<'_>) -> Option<Settings>
    ensures value { result ≡ settings_in (rows_of (found_of found.now)) }
    ensures within { IfSome result (λ numbers. AreSettings numbers) }
{
    let zone = zone_in(found)?;
    let skill = number_option(MIN_SKILL, MAX_SKILL, DEFAULT_SKILL, value(found, "skill"))?;
    let size = number_option(MIN_SIZE, MAX_SIZE, DEFAULT_SIZE, value(found, "size"))?;
    let planes = number_option(
        MIN_PLANES,
        MAX_PLANES,
        DEFAULT_PLANES,
        value(found, "planes"),
    )?;
    let openings = number_option(
        MIN_OPENINGS,
        MOST_OPENINGS,
        DEFAULT_OPENINGS,
        value(found, "openings"),
    )?;
    let spans = spans_in(found)?;
    Some(Settings {
        zone,
        skill: skill as u8,
        size: size as u8,
        planes,
        openings,
        spans,
    })
}

// How spans are stepped, in full where it is not given.
#[tactic(auto, unfolding(crate::specs::Choices::spans_in, crate::specs::Choices::spans_named))]
fn spans_in(found: &ArgMatches<'_>) -> Option<Spans>
    ensures { result ≡ spans_in (rows_of (found_of found.now)) }
{
    match value(found, "spans") {
        None => Some(Spans::Full),
        Some("full") => Some(Spans::Full),
        Some("packed") => Some(Spans::Packed),
        Some(_) => None,
    }
}

// The format, index where none is given.
#[tactic(auto, unfolding(crate::specs::Choices::format_in, crate::specs::Choices::format_named))]
pub(crate) fn format_in(found: &ArgMatches<'_>) -> Option<Format>
    ensures { result ≡ format_in (rows_of (found_of found.now)) }
{
    match value(found, "format") {
        None => Some(Format::Index),
        Some("index") => Some(Format::Index),
        Some("ppm") => Some(Format::Ppm),
        Some(_) => None,
    }
}
