// Words and the commands that they are, with the least and the greatest value of each option.

use command_line::{CommandFault, command_of};
use job_rules::{Command, Format, LevelTask, MakeJob, Settings};
use scene_rules::{Name8, Spans};
use std::alloc::{AllocError, Global};
use std::test::Fail;

// An audit of one WAD with no option but its files.
const AUDIT: &str = "audit MAP01 a.wad --tables t --things o --path p";

// Its numbers.
const DEFAULTS: Settings = Settings {
    zone: 6_291_456,
    skill: 3,
    size: 11,
    planes: 128,
    openings: 20_480,
    spans: Spans::Full,
};

const USAGE: Told = Told::Fault(CommandFault::Usage);

// What words come to: a flat with the length of its file's name, a job with its numbers and the
// count of its WADs, or why there is no command.
#[derive(Clone, Copy, Debug, PartialEq, Eq)]
enum Told {
    Flat(Name8, usize),
    Level(LevelTask, Settings, usize),
    Make(MakeJob),
    Exercise(u8, u32, Format),
    Fault(CommandFault),
}

fn told_of(command: &Command<'_>) -> Told {
    match command {
        Command::Flat { name, file } => Told::Flat(*name, file.len()),
        Command::Level { task, level, wads } => Told::Level(*task, level.settings, wads.len()),
        Command::Make(job) => Told::Make(*job),
        Command::Exercise {
            count,
            zone,
            format,
        } => Told::Exercise(*count, *zone, *format),
    }
}

// What a list of words comes to.
fn told_by(alloc: Global, words: &[String]) -> Told {
    match command_of(alloc, words) {
        Ok(command) => told_of(&command),
        Err(fault) => Told::Fault(fault),
    }
}

// What the words of a text come to.
fn told_in(alloc: Global, text: &str) -> Result<Told, AllocError> {
    let mut words = Vec::new(alloc);
    for word in text.split_whitespace() {
        words.push(word.to_string(alloc)?)?;
    }
    Ok(told_by(alloc, &words))
}

#[test]
fn words_are_jobs_with_their_numbers(rt: HostRuntime) -> Result<(), Fail> {
    let tile = Name8::from_bytes(*b"TILE\0\0\0\0");
    let small = Settings {
        zone: 4096,
        ..DEFAULTS
    };
    let two = "audit MAP01 a.wad b.wad --tables t --things o --path p --zone 4096";
    for (text, expected) in [
        ("flat tile -- -tiny.wad", Told::Flat(tile, 9)),
        ("make wad 10", Told::Make(MakeJob::Wad(10))),
        ("exercise 32", Told::Exercise(32, 6_291_456, Format::Index)),
        (AUDIT, Told::Level(LevelTask::Audit, DEFAULTS, 1)),
        (two, Told::Level(LevelTask::Audit, small, 2)),
    ] {
        assert_eq!(rt; told_in(rt.alloc(), text)?, expected, "{text}");
    }
    Ok(())
}

#[test]
fn words_that_are_no_command(rt: HostRuntime) -> Result<(), Fail> {
    for text in [
        "",
        "paint MAP01 a.wad",
        "render MAP01",
        "audit MAP01 a.wad",
        "flat TILE",
        "flat --help",
        "--zone 4098 make tables",
        "make wad 0",
        "make path 33",
        "exercise 0",
        "exercise 33",
    ] {
        assert_eq!(rt; told_in(rt.alloc(), text)?, USAGE, "{text}");
    }
    Ok(())
}

// Whether these words are a command.
fn is_command(alloc: Global, text: &str) -> Result<bool, AllocError> {
    Ok(!matches!(told_in(alloc, text)?, Told::Fault(_)))
}

#[test]
fn words_that_are_commands(rt: HostRuntime) -> Result<(), Fail> {
    let alloc = rt.alloc();
    for job in ["render", "limits", "list", "trace", "trim"] {
        let text = format!(in alloc; "{job} MAP01 a.wad --tables t --things o --path p")?;
        assert!(rt; is_command(alloc, &text)?, "{job}");
    }
    for text in ["make wad 1", "make path 32", "exercise 1", "make tables"] {
        assert!(rt; is_command(alloc, text)?, "{text}");
    }
    Ok(())
}

// Whether an audit with an option more is a command.
fn is_taken(alloc: Global, option: &str, value: &str) -> Result<bool, AllocError> {
    let text = format!(in alloc; "{AUDIT} {option} {value}")?;
    is_command(alloc, &text)
}

// Which of four values an option takes.
fn taken(alloc: Global, option: &str, values: [&str; 4]) -> Result<[bool; 4], AllocError> {
    Ok([
        is_taken(alloc, option, values[0])?,
        is_taken(alloc, option, values[1])?,
        is_taken(alloc, option, values[2])?,
        is_taken(alloc, option, values[3])?,
    ])
}

#[test]
fn options_take_their_least_and_greatest_values_alone(rt: HostRuntime) -> Result<(), Fail> {
    for (option, values) in [
        ("--zone", ["60", "64", "536870912", "536870916"]),
        ("--zone", ["66", "68", "4096", "4098"]),
        ("--skill", ["0", "1", "5", "6"]),
        ("--size", ["2", "3", "11", "12"]),
        ("--planes", ["127", "128", "1024", "1025"]),
        ("--openings", ["20479", "20480", "245760", "245761"]),
    ] {
        let within = [false, true, true, false];
        assert_eq!(rt; taken(rt.alloc(), option, values)?, within, "{option}");
    }
    Ok(())
}

// What an audit of so many WADs comes to.
fn told_audit(alloc: Global, wads: usize) -> Result<Told, AllocError> {
    let mut text = AUDIT.to_string(alloc)?;
    for _ in 1..wads {
        text.push_str(" b.wad")?;
    }
    told_in(alloc, &text)
}

#[test]
fn a_job_takes_16_wads_and_no_more(rt: HostRuntime) -> Result<(), Fail> {
    let told = [told_audit(rt.alloc(), 16)?, told_audit(rt.alloc(), 17)?];
    let most = Told::Level(LevelTask::Audit, DEFAULTS, 16);
    assert_eq!(rt; told, [most, USAGE]);
    Ok(())
}
