//! The lines of the file `log` that deeds note.

ghost use Rattle.std.specs.Prelude.{◌≡◌, OnOk};
ghost use Rattle.core_windows.specs.Windows.{window_at};
ghost use Rattle.core_scene.specs.Noted.{line_of, line_of_set, line_of_change, with_line_if_any};

use acme_watch::{Op, Watch};
use am_text::NoMemory;
use core_windows::{Change, Setting, Windows};

/// Notes what happens to a window, with the name that it has. One that doesn't live has no line.
pub(crate) fn note_window(
    watch: &mut Watch,
    windows: &Windows,
    window: u32,
    op: Op,
) -> Result<(), NoMemory>
    ensures ok { OnOk result (watch.new ≡ record watch.old
        { present = with_line_if_any watch.old.present (line_of window op (window_at windows.now.present window)) }) }
    ensures kept { watch.new.kept ≡ watch.old.kept }
{
    match windows.get(window) {
        Some(pane) => watch.note(window, op, pane.name.as_slice()),
        None => Ok(()),
    }
}

// Notes a new name.
fn note_setting(watch: &mut Watch, window: u32, setting: &Setting) -> Result<(), NoMemory>
    ensures ok { OnOk result (watch.new ≡ record watch.old
        { present = with_line_if_any watch.old.present (line_of_set window setting.now) }) }
    ensures kept { watch.new.kept ≡ watch.old.kept }
{
    match setting {
        Setting::Name(name) => watch.note(window, Op::Name, name.as_slice()),
        _ => Ok(()),
    }
}

/// Notes a change that makes, deletes or names a window. The windows are those before it.
pub(crate) fn note_change(
    watch: &mut Watch,
    windows: &Windows,
    change: &Change,
) -> Result<(), NoMemory>
    ensures ok { OnOk result (watch.new ≡ record watch.old
        { present = with_line_if_any watch.old.present (line_of_change windows.now.present change.now) }) }
    ensures kept { watch.new.kept ≡ watch.old.kept }
{
    match change {
        Change::Makes { name } => watch.note(windows.world().next, Op::New, name.as_slice()),
        Change::Deletes { window } => note_window(watch, windows, *window, Op::Del),
        Change::Edits { .. } => Ok(()),
        Change::Adds { .. } => Ok(()),
        Change::Sets { window, setting } => note_setting(watch, *window, setting),
        Change::Undoes { .. } => Ok(()),
        Change::Redoes { .. } => Ok(()),
    }
}
