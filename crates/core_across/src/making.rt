//! Plans of bodies, done to the scene.

ghost use Rattle.std.specs.Prelude.{◌≡◌, ◌++◌, IfOk, OnOk};
ghost use Rattle.core_windows.specs.Windows.{window_at};
ghost use Rattle.core_scene.specs.Scenes.{scene_of, kept_of, Did};
ghost use Rattle.core_actions.specs.Seen.{dir_of};
ghost use Rattle.core_across.specs.Plans.{AreSound};
ghost use Rattle.core_across.specs.Editing.{body_deeds, all_bodies, all_jobs, all_prints, request_deeds, plan_deeds};

use crate::planning::{WindowPlan, WindowPlans};
use am_text::{Items, Jobs, NoMemory, Runes};
use core_actions::{append_errors, dir_at};
use core_scene::{Change, Deed, Deeds, Entry, Scene, Setting};
use edit_run::EditPlan;
use std::alloc::Global;

/// What plans ask for: the deeds that change bodies, requests, and what is printed.
#[derive(Drop)]
struct Work {
    deeds: Deeds,
    jobs: Jobs,
    prints: Runes,
}

// Requests behind others.
#[tactic(auto, using(crate::proofs::Joined::words))]
fn put_jobs(all: &mut Jobs, jobs: Jobs) -> Result<(), NoMemory>
    ensures { OnOk result (all.new ≡ all.old ++ jobs) }
{
    for job in jobs.into_vec() {
        all.push(job)?;
    }
    Ok(())
}

// What one plan asks for, behind what others do.
#[tactic(auto, using(crate::proofs::Joined::words))]
fn put_plan(work: &mut Work, plan: WindowPlan) -> Result<(), NoMemory>
    ensures deeds { OnOk result (work.new.deeds ≡ work.old.deeds ++ body_deeds plan) }
    ensures jobs { OnOk result (work.new.jobs ≡ work.old.jobs ++ plan.plan.jobs) }
    ensures prints { OnOk result (work.new.prints ≡ work.old.prints ++ plan.plan.prints) }
{
    let WindowPlan { window, plan } = plan;
    let EditPlan {
        edits,
        dot,
        prints,
        jobs,
    } = plan;
    let setting = Setting::Dot(dot);
    work.deeds
        .push(Deed::Windows(Change::Edits { window, edits }))?;
    work.deeds
        .push(Deed::Windows(Change::Sets { window, setting }))?;
    put_jobs(&mut work.jobs, jobs)?;
    work.prints.append(prints.as_slice())?;
    Ok(())
}

// What all plans ask for.
#[tactic(auto, using(crate::proofs::Joined::words))]
fn work_of(alloc: Global, plans: WindowPlans) -> Result<Work, NoMemory>
    ensures deeds { IfOk result (λ work. work.deeds ≡ all_bodies plans) }
    ensures jobs { IfOk result (λ work. work.jobs ≡ all_jobs plans) }
    ensures prints { IfOk result (λ work. work.prints ≡ all_prints plans) }
{
    let mut work = Work {
        deeds: Items::new(alloc),
        jobs: Items::new(alloc),
        prints: Runes::new(alloc),
    };
    for plan in plans.into_vec() {
        put_plan(&mut work, plan)?;
    }
    Ok(work)
}

// Programs are requested behind these deeds.
#[tactic(auto, using(crate::proofs::Joined::words))]
fn put_requests(deeds: &mut Deeds, jobs: Jobs) -> Result<(), NoMemory>
    ensures { OnOk result (deeds.new ≡ deeds.old ++ request_deeds jobs) }
{
    for job in jobs.into_vec() {
        deeds.push(Deed::Requests(job))?;
    }
    Ok(())
}

/// Does plans of bodies: all are edited by number of their windows, and then programs are requested in that order, and
/// then all that was printed is put at the end of the errors window of the directory of this window.
pub(crate) fn make(
    alloc: Global,
    scene: &mut Scene,
    entry: Entry,
    window: u32,
    plans: WindowPlans,
) -> Result<(), NoMemory>
    requires { AreSound scene.old.windows.present plans }
    ensures ok { OnOk result (Did entry (scene_of scene.old) (scene_of scene.new)
        (plan_deeds entry (dir_of (window_at scene.old.windows.present window)) plans (scene_of scene.old))) }
    ensures kept { kept_of scene.new ≡ kept_of scene.old }
{
    let dir = dir_at(alloc, &scene.windows, window)?;
    let Work {
        mut deeds,
        jobs,
        prints,
    } = work_of(alloc, plans)?;
    put_requests(&mut deeds, jobs)?;
    scene.act_all(alloc, entry, deeds)?;
    append_errors(alloc, scene, entry, dir.as_slice(), prints)
}
