//! What is written to the plumber's files `rules` and `send`.

ghost use Rattle.std.specs.Prelude.{◌≡◌, None, Some, IfOk, OnOk};
ghost use Rattle.core_rules.specs.Writing.{rules_outcome, rest_outcome, held_after};
ghost use Rattle.core_rules.specs.Sending.{send_outcome};
ghost use Rattle.core_scene.specs.Scenes.{scene_of, kept_of, Did};
ghost use Rattle.core_tasks.specs.Plumbing.{of_rules, of_plumb, of_send, rules_if_any, send_if_any};

use crate::ended::Ended;
use am_text::NoMemory;
use core_fids::Refusal;
use core_plumb::PlumbRefusal;
use core_rules::{RulesRefusal, SendRefusal, Sent, held_after, send, write_rules};
use core_scene::{Entry, Scene};
use fid_table::Held;
use std::alloc::Global;

fn of_rules(refusal: RulesRefusal) -> Refusal
    ensures { result ≡ of_rules refusal }
{
    match refusal {
        RulesRefusal::BadRule => Refusal::BadRule,
        RulesRefusal::BadExpressionSize => Refusal::BadExpressionSize,
        RulesRefusal::TooManyRules => Refusal::TooManyRules,
    }
}

fn of_plumb(refusal: PlumbRefusal) -> Refusal
    ensures { result ≡ of_plumb refusal }
{
    match refusal {
        PlumbRefusal::NoMatchingRule => Refusal::NoMatchingRule,
        PlumbRefusal::PortNotOpen => Refusal::PortNotOpen,
        PlumbRefusal::PortQueueFull => Refusal::PortQueueFull,
    }
}

fn of_send(refusal: SendRefusal) -> Refusal
    ensures { result ≡ of_send refusal }
{
    match refusal {
        SendRefusal::BadPlumbMessage => Refusal::BadPlumbMessage,
        SendRefusal::Plumb(refusal) => of_plumb(refusal),
    }
}

fn rules_if_any(refusal: Option<RulesRefusal>) -> Option<Refusal>
    ensures { result ≡ rules_if_any refusal }
{
    match refusal {
        Some(refusal) => Some(of_rules(refusal)),
        None => None,
    }
}

fn send_if_any(refusal: Option<SendRefusal>) -> Option<Refusal>
    ensures { result ≡ send_if_any refusal }
{
    match refusal {
        Some(refusal) => Some(of_send(refusal)),
        None => None,
    }
}

// What becomes of a text of rules that is refused, if it is.
fn rules_held(alloc: Global, text: Held, refusal: Option<RulesRefusal>) -> Result<Ended, NoMemory>
    ensures { IfOk result (λ ended. ended ≡ record {
      refusal = rules_if_any refusal;
      held =
          Some (held_after text refusal);
    }) }
{
    let held = held_after(alloc, text, refusal)?;
    Ok(Ended::holding(rules_if_any(refusal), held))
}

/// Adds the whole sets of rules of a text: what a fid of `rules` held, with what is written to it. What follows them is
/// held.
pub(crate) fn add_rules(
    alloc: Global,
    scene: &mut Scene,
    entry: Entry,
    text: Held,
) -> Result<Ended, NoMemory>
    ensures ok { OnOk result (Did entry (scene_of scene.old) (scene_of scene.new)
        (rules_outcome text (scene_of scene.old)).deeds) }
    ensures ended { IfOk result (λ ended. ended ≡ record {
      refusal =
          rules_if_any (rules_outcome text (scene_of scene.old)).refusal;
      held =
          Some (held_after text (rules_outcome text (scene_of scene.old)).refusal);
    }) }
    ensures kept { kept_of scene.new ≡ kept_of scene.old }
{
    let mut text = text;
    let refusal = write_rules(alloc, scene, entry, &mut text)?;
    rules_held(alloc, text, refusal)
}

/// Adds what a fid of `rules` still holds when it is freed.
pub(crate) fn add_rest(
    alloc: Global,
    scene: &mut Scene,
    entry: Entry,
    text: &[u8],
) -> Result<Ended, NoMemory>
    ensures ok { OnOk result (Did entry (scene_of scene.old) (scene_of scene.new)
        (rest_outcome text.now (scene_of scene.old)).deeds) }
    ensures ended { IfOk result (λ ended. ended ≡ record {
      refusal =
          rules_if_any (rest_outcome text.now (scene_of scene.old)).refusal;
      held = None;
    }) }
    ensures kept { kept_of scene.new ≡ kept_of scene.old }
{
    let refusal = core_rules::add_rest(alloc, scene, entry, text)?;
    Ok(Ended::by(rules_if_any(refusal)))
}

// What becomes of a text of plumb messages.
fn sent_held(sent: Sent) -> Ended
    ensures { result ≡ record { refusal = send_if_any sent.refusal; held = Some sent.held } }
{
    let Sent { refusal, held } = sent;
    Ended::holding(send_if_any(refusal), held)
}

/// Plumbs the whole messages of a text: what a fid of `send` held, with what is written to it. A message that is begun
/// behind them is held.
pub(crate) fn plumb_all(
    alloc: Global,
    scene: &mut Scene,
    entry: Entry,
    text: Held,
) -> Result<Ended, NoMemory>
    ensures ok { OnOk result (Did entry (scene_of scene.old) (scene_of scene.new)
        (send_outcome entry text (scene_of scene.old)).deeds) }
    ensures ended { IfOk result (λ ended. ended ≡ record {
      refusal =
          send_if_any (send_outcome entry text (scene_of scene.old)).refusal;
      held =
          Some (send_outcome entry text (scene_of scene.old)).held;
    }) }
    ensures kept { kept_of scene.new ≡ kept_of scene.old }
{
    Ok(sent_held(send(alloc, scene, entry, text)?))
}
