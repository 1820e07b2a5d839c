//! The command line as clap reads it: one command with a subcommand for each form.
ghost use Rattle.std.specs.Prelude.{◌≡◌, [], codes, false, IfOk, IfSome, None, option_and_then};
ghost use Rattle.clap.specs.Words.{app_of, found_of, new_app, rows_of, rule_of, subcommand_rows_of};
ghost use Rattle.fp_app_words.specs.Commands.{IsLocal, app, entered_order, flag_rule, free_place_rule, option_rule, place_rule, with_options, with_places};
ghost use Rattle.fp_app_words.specs.Settings.{IsWithinLimits, bound_options, budget_options, budget_settings, fleet_options, names_of, plan_options, quote_options, trial_settings, yard_settings};

use crate::settings::{
    bound_by, fleet_by, improve_by, plan_by, quote_by, replan_by, trial_by, yard_by,
};
use crate::{NoMemory, Order};
use clap::{Arg, ArgAction, ArgMatches, Command};
use std::alloc::Global;

// An option with a value.
fn option<'a>(alloc: Global, name: &'a str) -> Arg<'a>
    ensures rule { rule_of result ≡ option_rule name.entry.now }
    ensures local { result.global ≡ false }
{
    Arg::new(alloc, name).long(name).action(ArgAction::Set)
}

// An option without a value.
fn flag<'a>(alloc: Global, name: &'a str) -> Arg<'a>
    ensures rule { rule_of result ≡ flag_rule name.entry.now }
    ensures local { result.global ≡ false }
{
    Arg::new(alloc, name).long(name).action(ArgAction::SetTrue)
}

// A place that a word must fill.
fn place<'a>(alloc: Global, name: &'a str) -> Arg<'a>
    ensures rule { rule_of result ≡ place_rule name.entry.now }
    ensures local { result.global ≡ false }
{
    Arg::new(alloc, name).required(true).action(ArgAction::Set)
}

// A place that a word may fill.
fn free_place<'a>(alloc: Global, name: &'a str) -> Arg<'a>
    ensures rule { rule_of result ≡ free_place_rule name.entry.now }
    ensures local { result.global ≡ false }
{
    Arg::new(alloc, name).action(ArgAction::Set)
}

// The subcommand `bound`, with its options.
fn bound_command<'a>(alloc: Global) -> Result<Command<'a>, NoMemory>
    ensures shape { IfOk result (λ command. (app_of command).top ≡ with_options (codes "bound") bound_options) }
    ensures local { IfOk result IsLocal }
{
    let command = Command::new(alloc, "bound")
        .arg(option(alloc, "seconds"))?
        .arg(flag(alloc, "spans"))?;
    Ok(command)
}

// A subcommand with the numbers of a budget and of seconds, and no flag yet: those come after all
// options with a value.
fn budget_command<'a>(alloc: Global, name: &'a str) -> Result<Command<'a>, NoMemory>
    ensures shape { IfOk result (λ command. app_of command ≡ record (new_app name.entry.now) { top = with_options name.entry.now (record { settings = budget_settings; flags = []; place = None }) }) }
    ensures local { IfOk result IsLocal }
{
    let command = Command::new(alloc, name)
        .arg(option(alloc, "rounds"))?
        .arg(option(alloc, "branches"))?
        .arg(option(alloc, "seconds"))?;
    Ok(command)
}

// The subcommand `replan`, with the options of a budget.
fn replan_command<'a>(alloc: Global) -> Result<Command<'a>, NoMemory>
    ensures shape { IfOk result (λ command. (app_of command).top ≡ with_options (codes "replan") budget_options) }
    ensures local { IfOk result IsLocal }
{
    let command = budget_command(alloc, "replan")?
        .arg(flag(alloc, "spans"))?
        .arg(flag(alloc, "notes"))?;
    Ok(command)
}

// The subcommand `quote`, with the same and the place for a name, which comes first.
fn quote_command<'a>(alloc: Global) -> Result<Command<'a>, NoMemory>
    ensures shape { IfOk result (λ command. (app_of command).top ≡ with_options (codes "quote") quote_options) }
    ensures local { IfOk result IsLocal }
{
    let command = Command::new(alloc, "quote")
        .arg(free_place(alloc, "name"))?
        .arg(option(alloc, "rounds"))?
        .arg(option(alloc, "branches"))?
        .arg(option(alloc, "seconds"))?
        .arg(flag(alloc, "spans"))?
        .arg(flag(alloc, "notes"))?;
    Ok(command)
}

// A subcommand with the options of `plan`: `plan` or `improve`.
fn plan_command<'a>(alloc: Global, name: &'a str) -> Result<Command<'a>, NoMemory>
    ensures shape { IfOk result (λ command. (app_of command).top ≡ with_options name.entry.now plan_options) }
    ensures local { IfOk result IsLocal }
{
    let command = budget_command(alloc, name)?
        .arg(option(alloc, "scale"))?
        .arg(flag(alloc, "spans"))?
        .arg(flag(alloc, "notes"))?;
    Ok(command)
}

// The subcommand `fleet`, with its flag.
fn fleet_command<'a>(alloc: Global) -> Result<Command<'a>, NoMemory>
    ensures shape { IfOk result (λ command. (app_of command).top ≡ with_options (codes "fleet") fleet_options) }
    ensures local { IfOk result IsLocal }
{
    let command = Command::new(alloc, "fleet").arg(flag(alloc, "trucks"))?;
    Ok(command)
}

// The subcommand `trial`, with its places.
fn trial_command<'a>(alloc: Global) -> Result<Command<'a>, NoMemory>
    ensures shape { IfOk result (λ command. (app_of command).top ≡ with_places (codes "trial") (names_of trial_settings)) }
    ensures local { IfOk result IsLocal }
{
    let command = Command::new(alloc, "trial")
        .arg(place(alloc, "seed"))?
        .arg(place(alloc, "terminals"))?
        .arg(place(alloc, "shipments"))?;
    Ok(command)
}

// The subcommand `yard`, with its place.
fn yard_command<'a>(alloc: Global) -> Result<Command<'a>, NoMemory>
    ensures shape { IfOk result (λ command. (app_of command).top ≡ with_places (codes "yard") (names_of yard_settings)) }
    ensures local { IfOk result IsLocal }
{
    let command = Command::new(alloc, "yard").arg(place(alloc, "seed"))?;
    Ok(command)
}

/// The command whose parse reads the words. It has no help and no version of its own.
pub fn command<'a>(alloc: Global) -> Result<Command<'a>, NoMemory>
    ensures { IfOk result (λ command. app_of command ≡ app) }
{
    let command = Command::new(alloc, "freight")
        .no_binary_name(true)
        .disable_help_flag(true)
        .disable_help_subcommand(true)
        .disable_version_flag(true)
        .subcommand_required(true)
        .subcommand(Command::new(alloc, "direct"))?
        .subcommand(Command::new(alloc, "check"))?
        .subcommand(bound_command(alloc)?)?
        .subcommand(plan_command(alloc, "plan")?)?
        .subcommand(plan_command(alloc, "improve")?)?
        .subcommand(trial_command(alloc)?)?
        .subcommand(yard_command(alloc)?)?
        .subcommand(fleet_command(alloc)?)?
        .subcommand(replan_command(alloc)?)?
        .subcommand(quote_command(alloc)?)?;
    Ok(command)
}

// What the subcommand of this name orders, by what a parse found in it. `NoMemory` only where no memory is
// found.
fn order_by(alloc: Global, name: &str, matches: &ArgMatches) -> Result<Option<Order>, NoMemory>
    ensures order { IfOk result (λ order. order ≡ entered_order (name.now, rows_of (found_of matches.now))) }
    ensures range { IfOk result (λ order. IfSome order IsWithinLimits) }
{
    if name == "direct" {
        Ok(Some(Order::Direct))
    } else if name == "check" {
        Ok(Some(Order::Check))
    } else if name == "bound" {
        Ok(bound_by(matches))
    } else if name == "plan" {
        Ok(plan_by(matches))
    } else if name == "improve" {
        Ok(improve_by(matches))
    } else if name == "trial" {
        Ok(trial_by(matches))
    } else if name == "yard" {
        Ok(yard_by(matches))
    } else if name == "fleet" {
        Ok(Some(fleet_by(matches)))
    } else if name == "replan" {
        Ok(replan_by(matches))
    } else if name == "quote" {
        quote_by(alloc, matches)
    } else {
        Ok(None)
    }
}

/// What the subcommand orders that a parse entered. `NoMemory` only where no memory is found.
pub fn order_in(alloc: Global, matches: &ArgMatches) -> Result<Option<Order>, NoMemory>
    ensures order { IfOk result (λ order. order ≡ option_and_then entered_order (subcommand_rows_of matches.now)) }
    ensures range { IfOk result (λ order. IfSome order IsWithinLimits) }
{
    match matches.subcommand() {
        Some((name, entered)) => order_by(alloc, name, entered),
        None => Ok(None),
    }
}
