ghost use Rattle.std.specs.Prelude.{◌≡◌, IfOk, IfErr, Some, false};
ghost use Rattle.clap.specs.Words.{app_of, kind_of, new_rule, rule_of};
ghost use Rattle.clap.specs.declared.builder.ArgAction.TheVariants.{Set};
ghost use Rattle.clap.specs.declared.error.ErrorKind.TheVariants.{OutOfMemory};
ghost use Rattle.themis_calls.specs.Commands.{AreWords, Names};
ghost use Rattle.themis_calls.specs.Grammar.{grammar, positional_rule};

use crate::command::{Command, command_from};
use clap::{Arg, ArgAction, Command as Parser, Error};
use std::alloc::{AllocError, Global};

/// Parses the arguments as one simple command with the positional arguments COMMAND, SEED and COUNT, the last two
/// optional. It accepts every list of arguments that names a command.
pub(crate) fn taken_apart(alloc: Global, words: &[String]) -> Result<Command, Error>
    requires { AreWords words.now }
    ensures named { IfOk result (Names words.now) }
    ensures refused { IfErr result (λ error. kind_of error ≡ OutOfMemory) }
{
    let matches = parser(alloc)?.try_get_matches_from(words)?;
    let word = matches.get_str("COMMAND").unwrap();
    let numbers = matches.get_str("SEED").zip(matches.get_str("COUNT"));
    Ok(command_from(word, numbers).unwrap())
}

fn parser<'a>(alloc: Global) -> Result<Parser<'a>, AllocError>
    ensures { IfOk result (λ parser. app_of parser ≡ grammar) }
{
    let parser = Parser::new(alloc, "themis").no_binary_name(true);
    let parser = parser.arg(positional(alloc, "COMMAND"))?;
    let parser = parser.arg(positional(alloc, "SEED"))?;
    parser.arg(positional(alloc, "COUNT"))
}

fn positional<'a>(alloc: Global, id: &'a str) -> Arg<'a>
    ensures rule { rule_of result ≡ positional_rule id.entry.now }
    ensures local { result.global ≡ false }
{
    Arg::new(alloc, id).action(ArgAction::Set)
}
