//! The commands by which the words after the first are read.

ghost use Rattle.std.specs.Prelude.{◌≡◌, IfOk, Some, true, is_some, map, string_bytes};
ghost use Rattle.clap.specs.Words.{app_of, first_of, found_of, matches_of, rows_of, takes};
ghost use Rattle.am_words.specs.Commands.{drill, drill_reads, serve, serve_reads};

use crate::asked::Serving;
use crate::table::{clients_of, rounds_of};
use am_text::NoMemory;
use clap::error::ErrorKind;
use clap::{Arg, ArgMatches, Command};
use std::alloc::Global;

fn drill_command<'a>(alloc: Global) -> Result<Command<'a>, NoMemory>
    ensures { IfOk result (λ c. app_of c ≡ drill) }
{
    let rounds = Arg::new(alloc, "rounds").required(true);
    let command = Command::new(alloc, "drill")
        .no_binary_name(true)
        .disable_help_flag(true)
        .disable_version_flag(true)
        .arg(rounds)?;
    Ok(command)
}

fn serve_command<'a>(alloc: Global) -> Result<Command<'a>, NoMemory>
    ensures { IfOk result (λ c. app_of c ≡ serve) }
{
    let clients = Arg::new(alloc, "clients").long("clients").required(true);
    let path = Arg::new(alloc, "path").required(true);
    let command = Command::new(alloc, "serve")
        .no_binary_name(true)
        .disable_help_flag(true)
        .disable_version_flag(true)
        .arg(clients)?
        .arg(path)?;
    Ok(command)
}

// What the command makes of words that it takes: it refuses them only for want of memory.
fn matches_of<'a>(command: Command<'a>, words: &'a [&'a str]) -> Result<ArgMatches<'a>, NoMemory>
    requires { takes (app_of command) (map (λ word. word.now) words.now) ≡ true }
    ensures { IfOk result (λ m. rows_of (found_of m)
        ≡ matches_of (app_of command.entry) (map (λ word. word.now) words.entry.now)) }
{
    match command.try_get_matches_from(words) {
        Ok(matches) => Ok(matches),
        Err(error) => match error.kind() {
            ErrorKind::OutOfMemory => Err(NoMemory),
            _ => unreachable!(),
        },
    }
}

// The value of an argument that has one.
#[tactic(auto, using(crate::proofs::Rows::values))]
fn value_of<'a>(matches: &ArgMatches<'a>, id: &str) -> &'a str
    requires { is_some (first_of id.now (rows_of (found_of matches.now))) ≡ true }
    ensures { first_of id.now (rows_of (found_of matches.now)) ≡ Some result.now }
{
    match matches.get_str(id) {
        Some(text) => text,
        None => unreachable!(),
    }
}

/// How many rounds the word after `drill` asks for.
pub(crate) fn parse_drill(alloc: Global, words: &[&str]) -> Result<u64, NoMemory>
    requires { is_some (drill_reads (map (λ word. word.now) words.now)) ≡ true }
    ensures { IfOk result (λ n. drill_reads (map (λ word. word.now) words.now) ≡ Some n) }
{
    let matches = matches_of(drill_command(alloc)?, words)?;
    match rounds_of(value_of(&matches, "rounds").as_bytes()) {
        Some(rounds) => Ok(rounds),
        None => unreachable!(),
    }
}

/// The path and the number of clients that the words after `serve` ask for.
pub(crate) fn parse_serve(alloc: Global, words: &[&str]) -> Result<Serving, NoMemory>
    requires { is_some (serve_reads (map (λ word. word.now) words.now)) ≡ true }
    ensures { IfOk result (λ s. serve_reads (map (λ word. word.now) words.now)
        ≡ Some (string_bytes s.path, s.clients)) }
{
    let matches = matches_of(serve_command(alloc)?, words)?;
    let path = value_of(&matches, "path");
    match clients_of(value_of(&matches, "clients").as_bytes()) {
        Some(clients) => Ok(Serving {
            path: String::from_str(alloc, path)?,
            clients,
        }),
        None => unreachable!(),
    }
}
