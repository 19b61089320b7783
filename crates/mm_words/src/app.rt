//! The command line as `clap` is told of it.

ghost use Rattle.std.specs.Prelude.{◌≡◌, false, IfOk};
ghost use Rattle.clap.specs.Words.{app_of, rule_of};
ghost use Rattle.mm_words.specs.Commands.{IsForm, form_app, has_globals, the_app, top_app, wanted_rule, with_forms};

use clap::{Arg, ArgAction, Command};
use std::alloc::{AllocError, Global};

/// A form of words: its subcommand, and the words behind it.
struct Form(&'static str, &'static [&'static str]);

/// All forms of words but `--help`: a form is added here, with its subcommand.
const FORMS: [Form; 11] = [
    Form("init", &["VARIANT", "MODULE"]),
    Form("run", &[]),
    Form("checkpoint", &[]),
    Form("power", &[]),
    Form("replay", &[]),
    Form("check", &[]),
    Form("gen", &["NUMBER", "COUNT", "VARIANT", "MODULE"]),
    Form("bulk", &["NUMBER", "COUNT", "VARIANT", "MODULE"]),
    Form("slots", &[]),
    Form("receipts", &["KEY"]),
    Form("transfer", &[]),
];

/// The command with a subcommand for each form of words.
pub fn command_line<'a>(alloc: Global) -> Result<Command<'a>, AllocError>
    ensures { IfOk result (λ line. app_of line ≡ the_app) }
{
    with_forms(alloc, top(alloc), &FORMS)
}

/// A command with a subcommand more for each of these forms.
fn with_forms<'a>(
    alloc: Global,
    line: Command<'a>,
    forms: &[Form],
) -> Result<Command<'a>, AllocError>
    ensures { IfOk result (λ whole. app_of whole ≡ with_forms (app_of line.entry) forms.now) }
{
    let mut whole = line;
    'forms: for form in forms {
        whole = whole.subcommand(subcommand(alloc, form)?)?;
    }
    Ok(whole)
}

/// The command that the subcommands are added to. It answers no call for help.
fn top<'a>(alloc: Global) -> Command<'a>
    ensures { app_of result ≡ top_app }
{
    Command::new(alloc, "memoir")
        .no_binary_name(true)
        .subcommand_required(true)
        .disable_help_flag(true)
        .disable_help_subcommand(true)
        .disable_version_flag(true)
}

/// The subcommand of a form, with its words.
fn subcommand<'a>(alloc: Global, form: &Form) -> Result<Command<'a>, AllocError>
    ensures { IfOk result (IsForm (form_app form.now)) }
{
    let mut command = Command::new(alloc, form.0);
    'words: for id in form.1 {
        command = command.arg(wanted(alloc, id))?;
    }
    Ok(command)
}

/// A word that has to stand there.
fn wanted<'a>(alloc: Global, id: &'a str) -> Arg<'a>
    ensures rule { rule_of result ≡ wanted_rule id.entry.now }
    ensures local { result.global ≡ false }
{
    Arg::new(alloc, id).required(true).action(ArgAction::Set)
}
