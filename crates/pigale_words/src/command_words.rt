//! The words of the command line parsed by clap, and the job and options that they name.
ghost use Rattle.std.specs.Prelude.{◌≡◌, ◌≢◌, ◌<◌, map, is_some, option_map, IfOk, IfSome, MatchResult, Some, codes, string_bytes};
ghost use Rattle.clap.specs.Matches.{found_of};
ghost use Rattle.clap.specs.Values.{kind_of};
ghost use Rattle.clap.specs.Walk.{first_of, rows_of};
ghost use Rattle.clap.specs.Simple.{app_of};
ghost use Rattle.pigale_words.specs.Words.{command as the_command, given, given_in, has_option as gives_option, has_number as gives_number, form_of as form_by, form_given as form_from, number_given as number_by, gen_of, gen_given as gen_by, Takes, job_with as job_by_options, job_named as job_by_word, job_given as job_by, job_of};
ghost use Rattle.pigale_words.specs.Spelling.{JobWords};
ghost use Rattle.pigale_words.specs.Status.{RefusesWords};
ghost use Rattle.pigale_words.specs.Jobs.{HasSize};

use super::decimal_numbers::number_in;
use super::job::{Job, WordFault};
use super::output_form::Form;
use clap::error::ErrorKind;
use clap::{Arg, ArgMatches, Command, Error};
use std::alloc::{AllocError, Global};

// Returns the clap command: the job's word, and all jobs' options, each with one text. Fails only when out of memory.
fn command<'a>(alloc: Global) -> Result<Command<'a>, AllocError>
    ensures { IfOk result (λ r. app_of r ≡ the_command) }
{
    let job = Arg::new(alloc, "job");
    let form = Arg::new(alloc, "form").long("form");
    let size = Arg::new(alloc, "size").long("size");
    let number = Arg::new(alloc, "number").long("number");
    Command::new(alloc, "pigale")
        .no_binary_name(true)
        .disable_help_flag(true)
        .arg(job)?
        .arg(form)?
        .arg(size)?
        .arg(number)
}

// Converts an `error` of clap: out of memory to `NoMemory`, any other to `BadWords`.
fn fault_of(error: &Error) -> WordFault
    ensures { result ≡ WordFault.BadWords → kind_of error.now ≢ ErrorKind.OutOfMemory }
{
    if error.kind() == ErrorKind::OutOfMemory {
        WordFault::NoMemory
    } else {
        WordFault::BadWords
    }
}

// Parses `words` by the clap command, or returns the fault of the words.
fn matches_of<'a>(alloc: Global, words: &'a [String]) -> Result<ArgMatches<'a>, WordFault>
    ensures { MatchResult result
        (λ matches. given (map string_bytes words.entry.now) ≡ Some (given_in (rows_of (found_of matches))))
        (RefusesWords (given (map string_bytes words.entry.now))) }
{
    let Ok(command) = command(alloc) else {
        return Err(WordFault::NoMemory);
    };
    match command.try_get_matches_from(words) {
        Ok(matches) => Ok(matches),
        Err(error) => Err(fault_of(&error)),
    }
}

// Returns the text that the words give for the argument `id`, or None if they give none.
fn text_of<'a>(matches: &ArgMatches<'a>, id: &str) -> Option<&'a str>
    ensures { option_map (λ text. text.now) result ≡ first_of id.now (rows_of (found_of matches.now)) }
{
    matches.get_str(id)
}

// Says whether the words give the argument `id`.
fn is_given(matches: &ArgMatches, id: &str) -> bool
    ensures { result ≡ is_some (first_of id.now (rows_of (found_of matches.now))) }
{
    match text_of(matches, id) {
        Some(_) => true,
        None => false,
    }
}

// Says whether the words give any option.
fn has_option(matches: &ArgMatches) -> bool
    ensures { result ≡ gives_option (given_in (rows_of (found_of matches.now))) }
{
    is_given(matches, "form") || is_given(matches, "size") || is_given(matches, "number")
}

// Says whether the words give `--size` or `--number`, which no job that draws its input takes.
fn has_number(matches: &ArgMatches) -> bool
    ensures { result ≡ gives_number (given_in (rows_of (found_of matches.now))) }
{
    is_given(matches, "size") || is_given(matches, "number")
}

// Returns the form with this `name`, `text` or `svg`, or None for another name.
fn form_named(name: &str) -> Option<Form>
    ensures { result ≡ form_by (Some name.now) }
{
    if name == "text" {
        Some(Form::Text)
    } else if name == "svg" {
        Some(Form::Svg)
    } else {
        None
    }
}

// Returns the form that the words name, or text where they name none. It is None for a wrong name.
fn form_of(matches: &ArgMatches) -> Option<Form>
    ensures { result ≡ form_by (first_of (codes "form") (rows_of (found_of matches.now))) }
{
    match text_of(matches, "form") {
        Some(name) => form_named(name),
        None => Some(Form::Text),
    }
}

// Returns the form of a job that draws, or None where the words give an option that it does not have or a wrong form.
fn form_given(matches: &ArgMatches) -> Option<Form>
    ensures { result ≡ form_from (given_in (rows_of (found_of matches.now))) }
{
    if has_number(matches) {
        None
    } else {
        form_of(matches)
    }
}

// Returns the number from `least` to `most` that the option `id` gives, or None.
fn number_given(matches: &ArgMatches, id: &str, least: u32, most: u32) -> Option<u32>
    ensures { result ≡ number_by least most (first_of id.now (rows_of (found_of matches.now))) }
{
    match text_of(matches, id) {
        Some(text) => number_in(text.as_bytes(), least, most),
        None => None,
    }
}

// Returns the job `gen` with this `size`, below 4096, and `number`, or None if one of them is None.
fn gen_job(size: Option<u32>, number: Option<u32>) -> Option<Job>
    requires { IfSome size (λ size. size < 4096) }
    ensures { result ≡ gen_of size number }
{
    match size {
        Some(size) => match number {
            Some(number) => Some(Job::Gen(size as u16, number)),
            None => None,
        },
        None => None,
    }
}

// Returns the job `gen` by its options, or None where one is missing, wrong or not its own.
fn gen_given(matches: &ArgMatches) -> Option<Job>
    ensures { result ≡ gen_by (given_in (rows_of (found_of matches.now))) }
{
    if is_given(matches, "form") {
        return None;
    }
    let size = number_given(matches, "size", 3, 4095);
    let number = number_given(matches, "number", 0, u32::MAX);
    gen_job(size, number)
}

// Returns `job`, which takes no option, or None where an option is given.
fn bare_job(matches: &ArgMatches, job: Job) -> Option<Job>
    ensures { result ≡ job_by_options (given_in (rows_of (found_of matches.now))) (Takes.no_option job) }
{
    if has_option(matches) { None } else { Some(job) }
}

// Returns the job of `word`, or None if there is none or it takes other options. It has a case for each job.
fn job_named(matches: &ArgMatches, word: &str) -> Option<Job>
    ensures { result ≡ job_by_word (given_in (rows_of (found_of matches.now))) word.now }
{
    let form = form_given(matches);
    match word {
        "count" => bare_job(matches, Job::Count),
        "shift" => form.map(Job::Shift),
        "schnyder" => form.map(Job::Schnyder),
        "bars" => form.map(Job::Bars),
        "convex" => form.map(Job::Convex),
        "rect" => form.map(Job::Rect),
        "embed" => form.map(Job::Embed),
        "verify" => bare_job(matches, Job::Verify),
        "gen" => gen_given(matches),
        _ => None,
    }
}

// Returns the job that the words name, with its options. It is None where there is no such job or an option is wrong.
fn job_given(matches: &ArgMatches) -> Option<Job>
    ensures { result ≡ job_by (given_in (rows_of (found_of matches.now))) }
{
    match text_of(matches, "job") {
        Some(word) => job_named(matches, word),
        None => None,
    }
}

/// Returns the job that `words` name, those after the program's name.
///
/// clap reads them as a command with one positional, the job's word, and the options `--form`, `--size` and `--number`.
/// Each option has one text, which may follow as the next word or after a `=`. The word is the job's name in lower
/// case. A job that draws what it reads has the first option, whose text is `text` or `svg`. `gen` has the other two,
/// which it requires: a size from 3 to 4095 and a number from 0 to 4294967295, both in decimal. The others have none.
/// `BadWords` comes exactly where the words name no job: where clap refuses them, there is no such job, or an option is
/// given that the job does not have.
pub fn words_to_job(alloc: Global, words: &[String]) -> Result<Job, WordFault>
    ensures job { MatchResult result
        (λ job. job_of (map string_bytes words.now) ≡ Some job)
        (RefusesWords (job_of (map string_bytes words.now))) }
    ensures sized { IfOk result HasSize }
{
    let matches = matches_of(alloc, words)?;
    match job_given(&matches) {
        Some(job) => Ok(job),
        None => Err(WordFault::BadWords),
    }
}

/// States the law that the words of each job are its word and its options, and no others.
///
/// The options stand before or after the word, each as the two words `--name text` or as the one word `--name=text`.
/// `--` may stand once; after it comes no option, and so nothing but the job's word where that has not come before. A
/// job that draws has the form at most, and `gen` the size and the number, in either order.
pub fn job_words()
    ensures { JobWords }
{}
