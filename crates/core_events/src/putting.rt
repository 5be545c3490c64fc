//! The items of a step in the event files.

ghost use Rattle.std.specs.Prelude.{◌≡◌, ◌++◌, ◌∷◌, [], ℕ, IfOk, OnOk};
ghost use Rattle.core_events.specs.Putting.{put_one, put_all, is_ending, put_if_lives, put_living, ending};
ghost use Rattle.core_events.specs.Sound.{IsSound};

use am_text::{Items, NoMemory};
use core_scene::{WindowItem, WindowItems};
use event_book::Book;
use std::alloc::Global;

fn put_one(book: &mut Book, item: WindowItem) -> Result<(), NoMemory>
    ensures kept { book.new.kept ≡ book.old.kept }
    ensures ok { OnOk result (book.new.present ≡ put_one book.old.present item) }
{
    let WindowItem { window, item } = item;
    if book.is_open(window) {
        book.put(window, item)?;
    }
    Ok(())
}

/// Puts each item at the end of its window's, one after another, while the event file is open.
pub fn put_all(book: &mut Book, items: WindowItems) -> Result<(), NoMemory>
    ensures kept { book.new.kept ≡ book.old.kept }
    ensures ok { OnOk result (book.new.present ≡ put_all book.old.present items) }
    ensures sound { (at : ℕ) → IsSound at book.old.present → OnOk result (IsSound at book.new.present) }
{
    for item in items.into_vec() {
        put_one(book, item)?;
    }
    Ok(())
}

// Whether the item is one of such a window.
fn is_ending(deleted: &[u32], item: &WindowItem) -> bool
    ensures { result ≡ is_ending deleted.now item.now }
{
    let window = item.window;
    deleted.iter().any(|w| window == *w)
}

// Puts an item, where its window lives on. Those of the others are put aside.
fn put_or_leave(
    book: &mut Book,
    aside: &mut WindowItems,
    deleted: &[u32],
    item: WindowItem,
) -> Result<(), NoMemory>
    ensures kept { book.new.kept ≡ book.old.kept }
    ensures ok { OnOk result (book.new.present ≡ put_if_lives deleted.now book.old.present item) }
    ensures aside { OnOk result (aside.new ≡ aside.old ++ ending deleted.now (item ∷ [])) }
{
    if is_ending(deleted, &item) {
        aside.push(item)
    } else {
        put_one(book, item)
    }
}

/// Puts each item of the windows that live on. The answer are the items of the others, which the step deletes.
#[tactic(auto, using(crate::proofs::Endings::endings))]
pub fn put_living(
    alloc: Global,
    book: &mut Book,
    items: WindowItems,
    deleted: &[u32],
) -> Result<WindowItems, NoMemory>
    ensures kept { book.new.kept ≡ book.old.kept }
    ensures ok { OnOk result (book.new.present ≡ put_living deleted.now book.old.present items) }
    ensures ending { IfOk result (λ aside. aside ≡ ending deleted.now items) }
    ensures sound { (at : ℕ) → IsSound at book.old.present → OnOk result (IsSound at book.new.present) }
{
    let mut aside = Items::new(alloc);
    for item in items.into_vec() {
        put_or_leave(book, &mut aside, deleted, item)?;
    }
    Ok(aside)
}
