//! The command line: a command, a file and options, read by `clap` as a simple command.

ghost use Rattle.std.specs.Prelude.{◌≡◌, ◌≢◌, ◌∷◌, List, [], None, IfOk, IfSome, ◌≤◌, true, map, option_and_then};
ghost use Rattle.std.specs.Prelude.{option_map};
ghost use Rattle.std.specs.Prelude.{string_bytes, unwrap_or};
ghost use Rattle.std.specs.Option.{option_map_or};
ghost use Rattle.clap.specs.Words.{app_of, found_of, kind_of, with_rule};
ghost use Rattle.cs_model.specs.CommandLine as model;
ghost use Rattle.cs_model.specs.CommandLine.{Part, is_short_name, line_in as line_in_parts, run_pages};
ghost use Rattle.cs_model.specs.Text.{number_between};
ghost use Rattle.cs_cli.specs.LineApp.{flag_rule, line_app, option_rule, place_rule};
ghost use Rattle.cs_cli.specs.Meaning.{command_by, line_by, name_by, options_by};
ghost use Rattle.cs_cli.specs.Possible.{HasRanges, IsInRange, IsPageChoice, can_do, has_known_options, is_possible};
ghost use Rattle.cs_cli.specs.Possible.{line_of, possible};
ghost use Rattle.cs_cli.specs.Told.{IsTold};

use crate::number::{MOST, number_from};
use clap::error::ErrorKind;
use clap::{Arg, ArgAction, ArgMatches, Command as Clap, Error};
use std::alloc::{AllocError, Global};

/// The longest name, in bytes.
const LONGEST_NAME: usize = 4096;

/// What the machine is to do.
#[derive(Clone, Copy, Debug)]
pub(crate) enum Command {
    /// Run the image of a file.
    Run,
    /// Build the image of a builder's text.
    Build,
    /// Print an image.
    Inspect,
    /// Compare two images.
    Same,
    /// Run the generated image of this number.
    Gen(u32),
}

/// The options of a line, each at its value or else at what it is without it.
#[derive(Clone, Copy, Debug)]
pub(crate) struct Options<'a> {
    /// The name of a script of events.
    pub(crate) events: Option<&'a str>,
    /// The stack pages, 2 to 64, or 0 for a machine without pages.
    pub(crate) pages: Option<u32>,
    /// How many bytecodes to run at most, from 0 to 1,000,000,000,000.
    pub(crate) steps: u64,
    /// The heap limit, 4,096 to 67,108,864 words of 4 bytes.
    pub(crate) heap: u32,
    /// The name under which an image is saved.
    pub(crate) save: Option<&'a str>,
    /// The name under which snapshots are saved.
    pub(crate) snapshot: Option<&'a str>,
    /// The name of another image.
    pub(crate) other: Option<&'a str>,
    /// Whether a line of counts follows the report.
    pub(crate) stats: bool,
}

/// What a line says.
#[derive(Clone, Copy, Debug)]
pub(crate) struct Line<'a> {
    /// The command.
    pub(crate) command: Command,
    /// The file, of at most 4,096 bytes.
    pub(crate) file: &'a str,
    /// The options.
    pub(crate) options: Options<'a>,
}

/// What the words behind the program's name say, or `None` where the line is refused: also one that asks for what can't
/// be done yet.
///
/// # Errors
///
/// Memory is refused.
pub(crate) fn parse<'a>(alloc: Global, words: &'a [String]) -> Result<Option<Line<'a>>, AllocError>
    ensures value { IfOk result (λ line. option_map line_by line ≡ line_of (map string_bytes words.now)) }
    ensures possible { IfOk result (λ line. IfSome line (λ l. is_possible (line_by l) ≡ true)) }
    ensures range { IfOk result (λ line. IfSome line (λ l. IsInRange (line_by l))) }
{
    let command = line_command(alloc)?;
    match command.try_get_matches_from(words) {
        Ok(matches) => Ok(line_in(&matches)),
        Err(error) => refused(&error),
    }
}

/// No line, or that memory is refused.
fn refused<'a>(error: &Error) -> Result<Option<Line<'a>>, AllocError>
    ensures none { IfOk result (λ line. line ≡ None) }
    ensures fault { IfOk result (λ _. kind_of error.now ≢ ErrorKind.OutOfMemory) }
{
    match error.kind() {
        ErrorKind::OutOfMemory => Err(AllocError),
        _ => Ok(None),
    }
}

/// The command of the line: two words by place, options with a value, and a flag.
#[tactic(auto, unfolding(crate::specs::LineApp::line_app))]
fn line_command<'a>(alloc: Global) -> Result<Clap<'a>, AllocError>
    ensures { IfOk result (λ command. app_of command ≡ line_app) }
{
    let command = Clap::new(alloc, "cogstack")
        .no_binary_name(true)
        .disable_help_flag(true)
        .disable_version_flag(true);
    let command = with_place(alloc, command, "COMMAND")?;
    let command = with_place(alloc, command, "FILE")?;
    let command = with_option(alloc, command, "--events", "events")?;
    let command = with_option(alloc, command, "--pages", "pages")?;
    let command = with_option(alloc, command, "--steps", "steps")?;
    let command = with_option(alloc, command, "--heap", "heap")?;
    let command = with_option(alloc, command, "--save", "save")?;
    let command = with_option(alloc, command, "--snapshot", "snapshot")?;
    let command = with_option(alloc, command, "--other", "other")?;
    with_flag(alloc, command, "--stats", "stats")
}

/// Adds a word by its place, which is required.
fn with_place<'a>(alloc: Global, command: Clap<'a>, id: &'a str) -> Result<Clap<'a>, AllocError>
    ensures { IfOk result (λ c. app_of c ≡ with_rule (app_of command.entry) (place_rule id.entry.now)) }
{
    command.arg(Arg::new(alloc, id).required(true))
}

/// Adds an option with a value; its id is its word.
fn with_option<'a>(
    alloc: Global,
    command: Clap<'a>,
    id: &'a str,
    name: &'a str,
) -> Result<Clap<'a>, AllocError>
    ensures { IfOk result (λ c. app_of c
        ≡ with_rule (app_of command.entry) (option_rule id.entry.now name.entry.now)) }
{
    command.arg(Arg::new(alloc, id).long(name))
}

/// Adds a flag; its id is its word.
fn with_flag<'a>(
    alloc: Global,
    command: Clap<'a>,
    id: &'a str,
    name: &'a str,
) -> Result<Clap<'a>, AllocError>
    ensures { IfOk result (λ c. app_of c
        ≡ with_rule (app_of command.entry) (flag_rule id.entry.now name.entry.now)) }
{
    let flag = Arg::new(alloc, id).long(name).action(ArgAction::SetTrue);
    command.arg(flag)
}

/// The line of the matches, or `None` where a word or a value is refused.
fn line_in<'a>(matches: &ArgMatches<'a>) -> Option<Line<'a>>
    ensures value { (parts : List Part) → IsTold (found_of matches.now) parts
        → option_map line_by result ≡ option_and_then possible (line_in_parts parts) }
    ensures possible { IfSome result (λ l. is_possible (line_by l) ≡ true) }
    ensures range { IfSome result (λ l. IsInRange (line_by l)) }
{
    let options = options_in(matches)?;
    let word = matches.get_str("COMMAND")?;
    let file = matches.get_str("FILE")?;
    line_with(word, file, options)
}

/// The line of a command's word, a file and the options.
fn line_with<'a>(word: &str, file: &'a str, options: Options<'a>) -> Option<Line<'a>>
    requires range { HasRanges (options_by options) }
    ensures value { option_map line_by result
        ≡ option_and_then possible (model.line_with (word.now ∷ file.entry.now ∷ []) (options_by options.entry)) }
    ensures possible { IfSome result (λ l. is_possible (line_by l) ≡ true) }
    ensures range { IfSome result (λ l. IsInRange (line_by l)) }
{
    if !is_short(file) {
        return None;
    }
    let command = command_in(word, file, &options)?;
    let line = Line {
        command,
        file,
        options,
    };
    if line.is_possible() { Some(line) } else { None }
}

/// The command of a word, where the options have what it needs.
fn command_in(word: &str, file: &str, options: &Options) -> Option<Command>
    ensures { option_map command_by result ≡ model.command_in word.now file.now (options_by options.now) }
{
    match word {
        "run" => Some(Command::Run),
        "build" => options.save.map(|_| Command::Build),
        "inspect" => Some(Command::Inspect),
        "same" => options.other.map(|_| Command::Same),
        "gen" => number_of_image(file),
        _ => None,
    }
}

/// The command to run the generated image of a number.
fn number_of_image(file: &str) -> Option<Command>
    ensures { option_map command_by result ≡ option_map (λ k. model.Gen k) (number_between 0 4294967295 file.now) }
{
    let number = number_from(file, 0, 4_294_967_295)?;
    Some(Command::Gen(number as u32))
}

/// The options of the matches, each of which must be in range.
fn options_in<'a>(matches: &ArgMatches<'a>) -> Option<Options<'a>>
    ensures value { (parts : List Part) → IsTold (found_of matches.now) parts
        → option_map options_by result ≡ model.options_in parts }
    ensures range { IfSome result (λ o. HasRanges (options_by o)) }
{
    let pages = pages_in(matches.get_str("--pages"))?;
    let steps = steps_in(matches.get_str("--steps"))?;
    let heap = heap_in(matches.get_str("--heap"))?;
    let options = Options {
        events: matches.get_str("--events"),
        pages,
        steps,
        heap,
        save: matches.get_str("--save"),
        snapshot: matches.get_str("--snapshot"),
        other: matches.get_str("--other"),
        stats: matches.get_str("--stats") == Some("true"),
    };
    if options.has_short_names() {
        Some(options)
    } else {
        None
    }
}

/// The pages that are given, where they are in range.
fn pages_in(word: Option<&str>) -> Option<Option<u32>>
    ensures value { result ≡ model.pages_given (name_by word.entry) }
    ensures range { IfSome result (λ pages. IsPageChoice (unwrap_or pages 8)) }
{
    let Some(word) = word else {
        return Some(None);
    };
    let pages = number_from(word, 0, 64)?;
    if pages == 1 {
        None
    } else {
        Some(Some(pages as u32))
    }
}

/// The steps of a run, where they are in range.
fn steps_in(word: Option<&str>) -> Option<u64>
    ensures { result ≡ model.steps_given (name_by word.entry) }
{
    match word {
        Some(word) => number_from(word, 0, MOST),
        None => Some(1_000_000),
    }
}

/// The heap limit in words, where it is in range.
fn heap_in(word: Option<&str>) -> Option<u32>
    ensures value { result ≡ model.heap_given (name_by word.entry) }
    ensures range { IfSome result (λ words. (4096 ≤ words) × (words ≤ 67108864)) }
{
    match word {
        Some(word) => {
            let words = number_from(word, 4096, 67_108_864)?;
            Some(words as u32)
        }
        None => Some(16_777_216),
    }
}

/// Whether a name isn't too long.
fn is_short(name: &str) -> bool
    ensures { result ≡ is_short_name name.now }
{
    name.len() <= LONGEST_NAME
}

/// Whether a name is missing or isn't too long.
fn is_short_if(name: Option<&str>) -> bool
    ensures { result ≡ option_map_or is_short_name (name_by name.entry) true }
{
    match name {
        Some(name) => is_short(name),
        None => true,
    }
}

impl Options<'_> {
    /// Whether no name is too long.
    fn has_short_names(&self) -> bool
        ensures { result ≡ model.has_short_names (options_by self.now) }
    {
        is_short_if(self.events)
            && is_short_if(self.save)
            && is_short_if(self.snapshot)
            && is_short_if(self.other)
    }

    /// Whether no option is given that no command has yet.
    fn are_known(&self) -> bool
        ensures { result ≡ has_known_options (options_by self.now) }
    {
        self.events.is_none() && self.snapshot.is_none() && !self.stats && self.page_count() != 0
    }

    /// The stack pages of a run.
    pub(crate) fn page_count(&self) -> u32
        ensures { result ≡ run_pages (options_by self.now) }
    {
        self.pages.unwrap_or(8)
    }
}

impl Line<'_> {
    /// Whether the program can do it by now.
    fn is_possible(&self) -> bool
        ensures { result ≡ is_possible (line_by self.now) }
    {
        self.options.are_known() && self.is_command_possible()
    }

    /// Whether the program has the command by now.
    fn is_command_possible(&self) -> bool
        ensures { result ≡ can_do (command_by self.now.command) (options_by self.now.options) }
    {
        match self.command {
            Command::Run | Command::Gen(_) => self.options.save.is_none(),
            Command::Build => self.options.save.is_some(),
            Command::Inspect => true,
            Command::Same => self.options.other.is_some(),
        }
    }
}
