//! The commands as the library is told of them.
ghost use Rattle.std.specs.Prelude.{◌≡◌, false, fold, IfOk};
ghost use Rattle.clap.specs.Words.{app_of, new_app, rule_of};
ghost use Rattle.clap.specs.declared.builder.command.Command.TheViews.{out-Command};
ghost use Rattle.rds_words.specs.Commands.{named_app, node_app};
ghost use Rattle.rds_words.specs.Described.{described_app, described_rule, with_described};

use crate::help;
use crate::table::{COMMANDS, Described, Kind, Word};
use clap::{Arg, ArgAction, Command};
use std::alloc::{AllocError, Global};

/// The program and its commands.
#[tactic(auto, unfolding(crate::specs::Commands::node_app))]
pub fn node_command<'a>(alloc: Global) -> Result<Command<'a>, AllocError>
    ensures { IfOk result (λ c. app_of c ≡ node_app) }
{
    described_program(alloc, &COMMANDS)
}

// The program with these commands.
fn described_program<'a>(alloc: Global, commands: &[Described]) -> Result<Command<'a>, AllocError>
    ensures { IfOk result (λ c. app_of c ≡ fold with_described named_app commands.now) }
{
    let mut program = Command::new(alloc, "rds_node")
        .about(help::ABOUT)
        .version(help::VERSION)
        .after_help(help::AFTER_HELP)
        .subcommand_required(true);
    for command in commands {
        program = program.subcommand(described_command(alloc, command)?)?;
    }
    Ok(program)
}

// A command with its words.
fn described_command<'a>(alloc: Global, described: &Described) -> Result<Command<'a>, AllocError>
    ensures app { IfOk result (λ c. app_of c ≡ described_app described.now) }
    ensures local { IfOk result (λ c. (out-Command c).has_globals ≡ false) }
{
    let mut command = titled_command(alloc, described);
    for word in described.words {
        command = command.arg(described_arg(alloc, word))?;
    }
    Ok(command)
}

// A command without its words. A topic is in no list.
fn titled_command<'a>(alloc: Global, described: &Described) -> Command<'a>
    ensures app { app_of result ≡ new_app described.now.name.now }
    ensures local { (out-Command result).has_globals ≡ false }
{
    let command = Command::new(alloc, described.name).about(described.page.about());
    let text = described.page.text();
    if described.page.is_topic() {
        return command.hide(true).override_help(text);
    }
    command
        .before_help(described.page.example())
        .after_help(text)
}

// A word of a command.
fn described_arg<'a>(alloc: Global, word: &Word) -> Arg<'a>
    ensures rule { rule_of result ≡ described_rule word.now }
    ensures local { result.global ≡ false }
{
    let arg = Arg::new(alloc, word.id).help(word.help);
    match word.kind {
        Kind::Required => arg.required(true),
        Kind::Optional => arg,
        Kind::Repeated => arg.required(true).action(ArgAction::Append),
        Kind::Several => arg.action(ArgAction::Append),
        Kind::Valued { long, value_name } => arg.long(long).value_name(value_name),
        Kind::Listed { long, value_name } => arg
            .long(long)
            .value_name(value_name)
            .action(ArgAction::Append),
        Kind::Defaulted {
            long,
            value_name,
            default,
        } => arg.long(long).value_name(value_name).default_value(default),
        Kind::Flag { long } => arg.long(long).action(ArgAction::SetTrue),
    }
}
