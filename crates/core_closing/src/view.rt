//! What the report tells of the editor.

ghost use Rattle.std.specs.Prelude.{◌≡◌, ◌<◌, ◌+◌, ◌^◌, IfOk, length};
ghost use Rattle.core_windows.specs.Panes.{windows_of, window_of};
ghost use Rattle.core_parts.specs.Parts.{present_of, AreSteady};
ghost use Rattle.am_journal.specs.Limits.{connection_count};
ghost use Rattle.acme_watch.specs.Jobs.{life_of};
ghost use Rattle.core_closing.specs.Views.{user_at, conn_view, conn_views, window_views, window_view, or_waiting};
ghost use Rattle.core_closing.specs.Views.{lives_from, view_at};

use am_journal::{ConnView, ConnViews, Ending, ItemViews, View, WindowView, WindowViews};
use am_text::{Bytes, Items, Job, JobLife, JobLives, Jobs, NoMemory};
use core_parts::{Connection, Parts};
use core_watch::Watch;
use core_windows::Pane;
use std::alloc::Global;

fn conn_view(
    alloc: Global,
    users: &[Bytes],
    conn: u32,
    ending: Option<Ending>,
) -> Result<ConnView, NoMemory>
    ensures { IfOk result (λ view. view ≡ conn_view users.now conn ending) }
{
    let user = match users.get(conn as usize) {
        Some(user) => Items::copied(alloc, user.as_slice())?,
        None => Items::new(alloc),
    };
    Ok(ConnView { conn, ending, user })
}

#[tactic(auto, using(crate::proofs::Viewed::viewing), unfolding(crate::specs::Views::conn_views))]
fn conn_views(
    alloc: Global,
    users: &[Bytes],
    connections: &[Connection],
) -> Result<ConnViews, NoMemory>
    requires { length connections.now < 2 ^ 32 }
    ensures { IfOk result (λ views. views ≡ conn_views users.now 0 connections.now) }
{
    let mut views = Items::new(alloc);
    let mut rest = connections;
    let mut conn: u32 = 0;
    while let [connection, after @ ..] = rest {
        match connection {
            Connection::Undialed => {}
            Connection::Live => views.push(conn_view(alloc, users, conn, None)?)?,
            Connection::Ended(why) => views.push(conn_view(alloc, users, conn, Some(*why))?)?,
        }
        rest = after;
        conn += 1;
    }
    Ok(views)
}

fn window_view(alloc: Global, id: u32, pane: &Pane) -> Result<WindowView, NoMemory>
    ensures { IfOk result (λ view. view ≡ window_view id (window_of pane.now)) }
{
    Ok(WindowView {
        id,
        modified: pane.modified,
        dot: pane.body.dot(),
        name: Items::copied(alloc, pane.name.as_slice())?,
        body: pane.body.text()?,
    })
}

#[tactic(auto, using(crate::proofs::Viewed::viewing), unfolding(crate::specs::Views::window_views))]
fn window_views(alloc: Global, panes: &[Option<Pane>], next: u32) -> Result<WindowViews, NoMemory>
    requires { next ≡ length (windows_of panes.now) + 1 }
    ensures { IfOk result (λ views. views ≡ window_views 1 (windows_of panes.now)) }
{
    let mut views = Items::new(alloc);
    let mut rest = panes;
    let mut id: u32 = 1;
    while let [pane, after @ ..] = rest {
        if let Some(pane) = pane {
            views.push(window_view(alloc, id, pane)?)?;
        }
        rest = after;
        id += 1;
    }
    Ok(views)
}

fn copied(alloc: Global, job: &Job) -> Result<Job, NoMemory>
    ensures { IfOk result (λ copy. copy ≡ job.now) }
{
    Ok(Job {
        kind: job.kind,
        window: job.window,
        dir: Items::copied(alloc, job.dir.as_slice())?,
        command: Items::copied(alloc, job.command.as_slice())?,
        input: Items::copied(alloc, job.input.as_slice())?,
    })
}

#[tactic(auto, using(crate::proofs::Viewed::viewing))]
fn jobs_of(alloc: Global, jobs: &[Job]) -> Result<Jobs, NoMemory>
    ensures { IfOk result (λ views. views ≡ jobs.now) }
{
    let mut views = Items::new(alloc);
    let mut rest = jobs;
    while let [job, after @ ..] = rest {
        views.push(copied(alloc, job)?)?;
        rest = after;
    }
    Ok(views)
}

// The life of the request with this number; one that has no other waits.
fn life_at(watch: &Watch, number: u64) -> JobLife
    ensures { result ≡ or_waiting (life_of watch.now.kept.jobs number) }
{
    match watch.kept_life(number) {
        Some(life) => life,
        None => JobLife::Waiting,
    }
}

#[tactic(auto, using(crate::proofs::Viewed::viewing), unfolding(crate::specs::Views::lives_from))]
fn lives_of(alloc: Global, watch: &Watch, jobs: &[Job]) -> Result<JobLives, NoMemory>
    ensures { IfOk result (λ lives. lives ≡ lives_from watch.now.kept.jobs 0 jobs.now) }
{
    let mut lives = Items::new(alloc);
    let mut rest = jobs;
    let mut before: u64 = 0;
    while let [_, after @ ..] = rest {
        lives.push(life_at(watch, before + 1))?;
        rest = after;
        before += 1;
    }
    Ok(lives)
}

/// The view of the tables after so many entries, with these items.
pub fn view_of(
    alloc: Global,
    entries: u64,
    items: ItemViews,
    parts: &Parts,
) -> Result<View, NoMemory>
    requires conns { length parts.now.connections.items ≡ connection_count }
    requires steady { AreSteady parts.now }
    ensures { IfOk result (λ view. view ≡ record (view_at entries (present_of parts.now)) { items = items }) }
{
    Ok(View {
        format: parts.sessions.format(),
        entries,
        conns: conn_views(alloc, &parts.users, &parts.connections)?,
        windows: window_views(
            alloc,
            parts.scene.windows.panes(),
            parts.scene.windows.world().next,
        )?,
        items,
        jobs: jobs_of(alloc, parts.scene.jobs.all().as_slice())?,
        lives: lives_of(alloc, &parts.scene.watch, parts.scene.jobs.all().as_slice())?,
    })
}
