//! What the matches of the command say.
ghost use Rattle.std.specs.Prelude.{◌≡◌, ◌≤◌, None, Some, IfOk, IfSome, codes};
ghost use Rattle.std.specs.Option.{option_map};
ghost use Rattle.clap.specs.Words.{rows_of, found_of, first_of, all_of};
ghost use Rattle.spec_input.specs.Words.{most_workers, most_flows, most_made, number_of, workers_of, flow_limit_of, name_in, name_of, given_name, has_flag, ports_of, given_steps, files_in, is_alone, input_by, command_in, command_of};
ghost use Rattle.command_words.specs.PortViews.{lent, ports_view, ArePorts};
ghost use Rattle.command_words.specs.CommandViews.{texts, text_view, input_view, command_view, IfFiles, IfSteps, HasWorkers};

use crate::parsing::{
    EDITS, FLOW_LIMIT, GENERATE, MIRRORS, NETFLOW, OUT, STEPS, TRACE, WORKERS, matches,
};
use crate::ports::{PortWord, read_port_words};
use clap::ArgMatches;
use std::alloc::{AllocError, Global};
use text_numbers::read_decimal;

/// The most ports of a switch.
const MOST_PORTS: usize = 32;

const MOST_WORKERS: u128 = 16;

const MOST_FLOWS: u128 = 65_536;

const DEFAULT_FLOW_LIMIT: u128 = 8192;

// The greatest number that makes an input.
const MOST_MADE: u128 = 4_294_967_295;

/// The files of a run, by their names.
#[derive(Drop)]
pub struct FilesNamed<'a> {
    pub edits: &'a str,
    /// The steps file, where there is one.
    pub steps: Option<&'a str>,
    /// The mirrors file, where there is one.
    pub mirrors: Option<&'a str>,
    /// The begin of the names of what is written.
    pub out: &'a str,
    /// Whether the flows are written too.
    pub netflow: bool,
    /// The ports, each with its trace.
    pub ports: Vec<PortWord<'a>>,
}

/// What is run.
#[derive(Drop)]
pub enum Input<'a> {
    Files(FilesNamed<'a>),
    /// What a number makes.
    Made { number: u32 },
}

/// What the words of the command line ask for.
#[derive(Drop)]
pub struct Command<'a> {
    /// How many workers there are, at most 16; 0 for a run without threads.
    pub workers: u8,
    /// The most megaflows of a port, from 1 to 65,536.
    pub flow_limit: u32,
    pub input: Input<'a>,
}

// The first value of an argument.
#[tactic(auto, using(crate::proofs::Rows::first_in_rows))]
fn first<'a>(found: &ArgMatches<'a>, name: &str) -> Option<&'a str>
    ensures { text_view result ≡ first_of name.now (rows_of (found_of found.now)) }
{
    found.get_str(name)
}

// All values of an argument.
#[tactic(auto, using(crate::proofs::Rows::all_in_rows))]
fn all<'a, 'm>(found: &'m ArgMatches<'a>, name: &str) -> Option<&'m [&'a str]>
    ensures { option_map (λ values. lent values.now) result
        ≡ all_of name.now (rows_of (found_of found.now)) }
{
    found.get_raw(name)
}

// ---- numbers

// The number of an option, where it stands.
fn number_of(found: &ArgMatches<'_>, name: &str, most: u128) -> Option<Option<u128>>
    ensures value { result ≡ number_of most name.now (rows_of (found_of found.now)) }
    ensures fits { IfSome result (λ number. IfSome number (λ n. n ≤ most)) }
{
    match first(found, name) {
        None => Some(None),
        Some(text) => match read_decimal(text.as_bytes(), most) {
            None => None,
            Some(number) => Some(Some(number)),
        },
    }
}

fn workers_of(found: &ArgMatches<'_>) -> Option<u8>
    ensures value { result ≡ workers_of (rows_of (found_of found.now)) }
    ensures few { IfSome result (λ n. n ≤ most_workers) }
{
    let number = number_of(found, WORKERS, MOST_WORKERS)?;
    Some(number.unwrap_or(0) as u8)
}

fn flow_limit_of(found: &ArgMatches<'_>) -> Option<u32>
    ensures { result ≡ flow_limit_of (rows_of (found_of found.now)) }
{
    let number = number_of(found, FLOW_LIMIT, MOST_FLOWS)?;
    let limit = number.unwrap_or(DEFAULT_FLOW_LIMIT) as u32;
    if limit == 0 { None } else { Some(limit) }
}

// ---- names

fn name_in(text: &str) -> Option<&str>
    ensures { text_view result ≡ name_in text.now }
{
    if text.is_empty() { None } else { Some(text) }
}

fn name_of<'a>(found: &ArgMatches<'a>, id: &str) -> Option<&'a str>
    ensures { text_view result ≡ name_of id.now (rows_of (found_of found.now)) }
{
    let text = first(found, id)?;
    name_in(text)
}

// The name of a file that may be left out.
fn given_name<'a>(found: &ArgMatches<'a>, id: &str) -> Option<Option<&'a str>>
    ensures { option_map text_view result ≡ given_name id.now (rows_of (found_of found.now)) }
{
    match first(found, id) {
        None => Some(None),
        Some(text) => match name_in(text) {
            None => None,
            Some(name) => Some(Some(name)),
        },
    }
}

// Whether a flag stands.
fn has_flag(found: &ArgMatches<'_>, id: &str) -> bool
    ensures { result ≡ has_flag id.now (rows_of (found_of found.now)) }
{
    match first(found, id) {
        None => false,
        Some(text) => text == "true",
    }
}

fn given_steps<'a>(found: &ArgMatches<'a>, workers: u8) -> Option<Option<&'a str>>
    ensures value { option_map text_view result ≡ given_steps workers (rows_of (found_of found.now)) }
    ensures alone { IfSome result (λ steps. IfSome steps (λ _. workers ≡ 0)) }
{
    let steps = given_name(found, STEPS)?;
    if steps.is_none() || workers == 0 {
        Some(steps)
    } else {
        None
    }
}

// ---- what is run

fn ports_of<'a>(
    alloc: Global,
    found: &ArgMatches<'a>,
) -> Result<Option<Vec<PortWord<'a>>>, AllocError>
    ensures value { IfOk result (λ ports.
        option_map (λ v. ports_view v.items) ports ≡ ports_of (rows_of (found_of found.now))) }
    ensures ports { IfOk result (λ ports. IfSome ports (λ v. ArePorts v.items)) }
{
    match all(found, TRACE) {
        None => Ok(None),
        Some(words) => {
            if words.is_empty() || words.len() > MOST_PORTS {
                return Ok(None);
            }
            read_port_words(alloc, words)
        }
    }
}

#[tactic(auto, unfolding(spec_input::specs::Words::files_in))]
fn files_in<'a>(
    alloc: Global,
    found: &ArgMatches<'a>,
    workers: u8,
) -> Result<Option<Input<'a>>, AllocError>
    ensures value { IfOk result
        (λ input. option_map input_view input ≡ files_in workers (rows_of (found_of found.now))) }
    ensures ports { IfOk result (λ input. IfSome input (λ i. IfFiles i ArePorts)) }
    ensures alone { IfOk result (λ input. IfSome input (λ i. IfSteps i (workers ≡ 0))) }
{
    let Some(edits) = name_of(found, EDITS) else {
        return Ok(None);
    };
    let Some(out) = name_of(found, OUT) else {
        return Ok(None);
    };
    let Some(steps) = given_steps(found, workers) else {
        return Ok(None);
    };
    let Some(mirrors) = given_name(found, MIRRORS) else {
        return Ok(None);
    };
    match ports_of(alloc, found)? {
        None => Ok(None),
        Some(ports) => Ok(Some(Input::Files(FilesNamed {
            edits,
            steps,
            mirrors,
            out,
            netflow: has_flag(found, NETFLOW),
            ports,
        }))),
    }
}

// Whether nothing but a number says what is run and written.
fn is_alone(found: &ArgMatches<'_>) -> bool
    ensures { result ≡ is_alone (rows_of (found_of found.now)) }
{
    first(found, EDITS).is_none()
        && first(found, OUT).is_none()
        && all(found, TRACE).is_none()
        && first(found, STEPS).is_none()
        && first(found, MIRRORS).is_none()
        && !has_flag(found, NETFLOW)
}

// What is run, where no number makes it, or by that number.
fn input_by<'a>(
    alloc: Global,
    found: &ArgMatches<'a>,
    workers: u8,
    number: Option<u128>,
) -> Result<Option<Input<'a>>, AllocError>
    requires { IfSome number (λ n. n ≤ most_made) }
    ensures value { IfOk result (λ input.
        option_map input_view input ≡ input_by workers (rows_of (found_of found.now)) number) }
    ensures ports { IfOk result (λ input. IfSome input (λ i. IfFiles i ArePorts)) }
    ensures alone { IfOk result (λ input. IfSome input (λ i. IfSteps i (workers ≡ 0))) }
{
    match number {
        None => files_in(alloc, found, workers),
        Some(number) => {
            if is_alone(found) {
                Ok(Some(Input::Made {
                    number: number as u32,
                }))
            } else {
                Ok(None)
            }
        }
    }
}

// What matches say.
#[tactic(auto, unfolding(spec_input::specs::Words::command_in))]
fn command_in<'a>(alloc: Global, found: &ArgMatches<'a>) -> Result<Option<Command<'a>>, AllocError>
    ensures value { IfOk result
        (λ said. option_map command_view said ≡ command_in (rows_of (found_of found.now))) }
    ensures ports { IfOk result (λ said. IfSome said (λ c. IfFiles c.input ArePorts)) }
    ensures workers { IfOk result (λ said. IfSome said HasWorkers) }
{
    let Some(workers) = workers_of(found) else {
        return Ok(None);
    };
    let Some(flow_limit) = flow_limit_of(found) else {
        return Ok(None);
    };
    let Some(number) = number_of(found, GENERATE, MOST_MADE) else {
        return Ok(None);
    };
    match input_by(alloc, found, workers, number)? {
        None => Ok(None),
        Some(input) => Ok(Some(Command {
            workers,
            flow_limit,
            input,
        })),
    }
}

/// What the words after the program's name ask for; none where the program doesn't take them. Files have one port at least,
/// and no two of one number; there are no workers where steps are given.
///
/// It takes memory for what `clap` makes of the words, and for the list of ports.
#[tactic(auto, unfolding(spec_input::specs::Words::command_of))]
pub fn read_command(alloc: Global, words: &[String]) -> Result<Option<Command<'_>>, AllocError>
    ensures value { IfOk result
        (λ said. option_map command_view said ≡ command_of (texts words.now)) }
    ensures ports { IfOk result (λ said. IfSome said (λ c. IfFiles c.input ArePorts)) }
    ensures workers { IfOk result (λ said. IfSome said HasWorkers) }
{
    match matches(alloc, words)? {
        None => Ok(None),
        Some(found) => command_in(alloc, &found),
    }
}
