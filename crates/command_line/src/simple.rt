// The simple command as `clap` reads it: a job, options with one value each, and the rest.

ghost use Rattle.std.specs.Prelude.{◌≡◌, ◌≢◌, true, false, [], IfOk, option_map, map, codes, string_bytes};
ghost use Rattle.clap.specs.Words.{all_of, app_of, fault_of, first_of, found_of, kind_of, matches_of, rows_of, rule_of, with_rule};
ghost use Rattle.command_line.specs.Simple.{bare_command, option_rule, simple_command, with_option, with_options};

use crate::fault::CommandFault;
use clap::error::ErrorKind;
use clap::{Arg, ArgAction, ArgMatches, Command, Error};
use job_rules::{OPTION_COUNT, OPTIONS};
use std::alloc::{AllocError, Global};

// What clap finds in the words, or what stops it.
#[tactic(auto, using(crate::proofs::SimpleLemmas::simple_rules))]
pub(crate) fn matches<'a>(
    alloc: Global,
    words: &'a [String],
) -> Result<ArgMatches<'a>, CommandFault>
    ensures taken { IfOk result (λ m. fault_of simple_command (map string_bytes words.now) ≡ []) }
    ensures rows { IfOk result (λ m.
        rows_of (found_of m) ≡ matches_of simple_command (map string_bytes words.now)) }
    ensures usage { result ≡ Err CommandFault.Usage →
        fault_of simple_command (map string_bytes words.now) ≢ [] }
{
    match simple_command(alloc) {
        Err(_) => Err(CommandFault::OutOfMemory),
        Ok(command) => match command.try_get_matches_from(words) {
            Ok(matches) => Ok(matches),
            Err(error) => Err(fault_of(&error)),
        },
    }
}

// Why clap stopped.
fn fault_of(error: &Error) -> CommandFault
    ensures { result ≡ CommandFault.Usage → kind_of error.now ≢ ErrorKind.OutOfMemory }
{
    match error.kind() {
        ErrorKind::OutOfMemory => CommandFault::OutOfMemory,
        _ => CommandFault::Usage,
    }
}

// The value of an option or of the job.
#[tactic(auto, using(crate::proofs::SimpleLemmas::found_rows))]
pub(crate) fn value<'a>(found: &ArgMatches<'a>, id: &str) -> Option<&'a str>
    ensures { option_map (λ s. s.now) result ≡ first_of id.now (rows_of (found_of found.now)) }
{
    found.get_str(id)
}

// The words after the job.
#[tactic(auto, using(crate::proofs::SimpleLemmas::found_rows))]
pub(crate) fn rest<'m, 'a>(found: &'m ArgMatches<'a>) -> Option<&'m [&'a str]>
    ensures { option_map (λ s. map (λ w. w.now) s.now) result ≡ all_of (codes "rest")
        (rows_of (found_of found.now)) }
{
    found.get_strs("rest")
}

// The command while its arguments are added. clap's own is large; this one's drop is by hand, so that
// a step that fails drops it by one call.
struct Parser<'a> {
    command: Command<'a>,
}

impl Drop for Parser<'_> {
    fn drop(self) {
        let Parser { command: _ } = self;
    }
}

// The command: a job, options, and then words of any number.
#[tactic(auto, unfolding(crate::specs::Simple::simple_command))]
fn simple_command<'a>(alloc: Global) -> Result<Command<'a>, AllocError>
    ensures { IfOk result (λ c. app_of c ≡ simple_command) }
{
    let parser = bare_parser(alloc).with(Arg::new(alloc, "job"))?;
    let options: [&'static str; OPTION_COUNT] = OPTIONS;
    let parser = parser.with_options(alloc, options.as_slice())?;
    let parser = parser.with(Arg::new(alloc, "rest").action(ArgAction::Append))?;
    Ok(parser.command())
}

// The command without its arguments.
fn bare_parser<'a>(alloc: Global) -> Parser<'a>
    ensures { app_of result.command ≡ bare_command }
{
    let command = Command::new(alloc, "doomview")
        .no_binary_name(true)
        .disable_help_flag(true)
        .disable_version_flag(true);
    Parser { command }
}

impl<'a> Parser<'a> {
    // The command, to which nothing more is added.
    fn command(self) -> Command<'a>
        ensures { result ≡ self.entry.command }
    {
        let Parser { command } = self;
        command
    }

    // The command with one more argument.
    fn with(self, arg: Arg<'a>) -> Result<Parser<'a>, AllocError>
        requires { arg.global ≡ false }
        ensures { IfOk result (λ p. app_of p.command
            ≡ with_rule (app_of self.entry.command) (rule_of arg.entry)) }
    {
        match self.command().arg(arg) {
            Ok(command) => Ok(Parser { command }),
            Err(fault) => Err(fault),
        }
    }

    // The command with these options.
    fn with_options(self, alloc: Global, names: &[&'static str]) -> Result<Parser<'a>, AllocError>
        ensures { IfOk result (λ p. app_of p.command
            ≡ with_options (app_of self.entry.command) (map (λ w. w.now) names.entry.now)) }
    {
        let mut parser = self;
        for name in names {
            parser = parser.with_option(alloc, name)?;
        }
        Ok(parser)
    }

    // The command with one more option.
    #[tactic(auto, unfolding(crate::specs::Simple::with_option))]
    fn with_option(self, alloc: Global, name: &'a str) -> Result<Parser<'a>, AllocError>
        ensures { IfOk result (λ p. app_of p.command
            ≡ with_option (app_of self.entry.command) name.entry.now) }
    {
        self.with(option(alloc, name))
    }
}

// An option that takes one value.
fn option<'a>(alloc: Global, name: &'a str) -> Arg<'a>
    ensures rule { rule_of result ≡ option_rule name.entry.now }
    ensures local { result.global ≡ false }
{
    Arg::new(alloc, name).long(name)
}
