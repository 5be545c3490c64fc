//! The event files of all windows.

ghost use Rattle.std.specs.Prelude.{◌≡◌, ◌<◌, ◌+◌, true, false, [], ◌++◌, length, IfOk, IfSome, IfNone, OnOk, OnErr};
ghost use Rattle.std.specs.Prelude.{option_map, option_copied, IsTrue};
ghost use Rattle.am_text.specs.Twice.{Twice, both, IsSteady};
ghost use Rattle.wait_queue.specs.WaitState.{must_wait, piece_of};
ghost use Rattle.event_book.specs.Lives.{numbered, has_taken};
ghost use Rattle.event_book.specs.Finding.{found_in};
ghost use Rattle.event_book.specs.WindowFiles.{queue_of, has_opening, is_enlisted, enlisted, with_item, given};
ghost use Rattle.event_book.specs.WindowFiles.{with_written, left, deleted, file_of, with_file, ledger_of};
ghost use Rattle.event_book.specs.Table.{present_of, kept_of, files_in, Rises, place_of, is_at, has_window, changed_in};
ghost use Rattle.event_book.specs.Table.{with_present, with_kept, IsTable, IsReplaced, shown_file};

use crate::event_file::EventFile;
use crate::finding::BackFault;
use am_journal::ItemViews;
use am_text::NoMemory;
use std::alloc::Global;
use std::marker::Model;
use wait_queue::{Asker, Piece};
use win_events::{BackMsg, Item};

/// A window's event file, and whether its present state may differ from the kept one.
#[derive(Drop)]
pub struct FileAt {
    window: u32,
    changed: bool,
    file: EventFile,
}

/// The event files by window, in two states. The windows of all files that changed since the last
/// `keep` are listed beside them.
#[derive(Drop)]
pub struct FileTable {
    alloc: Global,
    all: Vec<FileAt>,
    touched: Vec<u32>,
}

impl Model for FileTable {
    ghost use Rattle.std.specs.Prelude.{List};
    ghost use Rattle.am_text.specs.Twice.{Twice};
    ghost use Rattle.event_book.specs.WindowFiles.{WindowFile};

    ghost Value = { Twice (List WindowFile) };

    ghost use Rattle.event_book.specs.Table.{files_in, present_of, kept_of, IsTable};

    ghost view = { λ t. record { present = files_in present_of t.all.items; kept = files_in kept_of t.all.items } };

    ghost invariant = { λ t. IsTable t.touched.items t.all.items };
}

// The place of the window's file, or the one where it belongs.
fn place_of(all: &[FileAt], window: u32) -> usize
    requires { Rises 0 all.now }
    ensures { result ≡ place_of window all.now }
{
    let mut low = 0;
    let mut high = all.len();
    'halving: while low < high {
        let middle = low + (high - low) / 2;
        if all[middle].window < window {
            low = middle + 1;
        } else {
            high = middle;
        }
    }
    low
}

// Whether the file at this place is the window's.
fn is_at(all: &[FileAt], place: usize, window: u32) -> bool
    ensures { result ≡ is_at window place all.now }
{
    if place >= all.len() {
        return false;
    }
    all[place].window == window
}

fn place_in(all: &[FileAt], window: u32) -> Option<usize>
    requires { Rises 0 all.now }
    ensures within { IfSome result (λ place. place < length all.now) }
    ensures some { IfSome result (λ place. is_at window place all.now ≡ true) }
    ensures none { IfNone result (has_window window all.now ≡ false) }
{
    let place = place_of(all, window);
    if is_at(all, place, window) {
        return Some(place);
    }
    None
}

// The place of the window's file, which is put there where it's missing.
fn place_or_insert(
    alloc: Global,
    all: &mut Vec<FileAt>,
    touched: &[u32],
    window: u32,
) -> Result<usize, NoMemory>
    requires { IsTable touched.now all.old.items }
    ensures table { IsTable touched.now all.new.items }
    ensures present { files_in present_of all.new.items ≡ files_in present_of all.old.items }
    ensures kept { files_in kept_of all.new.items ≡ files_in kept_of all.old.items }
    ensures within { IfOk result (λ place. place < length all.new.items) }
    ensures place { IfOk result (λ place. is_at window place all.new.items ≡ true) }
{
    if let Some(place) = place_in(all.as_slice(), window) {
        return Ok(place);
    }
    let place = place_of(all.as_slice(), window);
    all.insert(
        place,
        FileAt {
            window,
            changed: false,
            file: EventFile::new(alloc),
        },
    )?;
    Ok(place)
}

fn enlist(
    alloc: Global,
    all: &mut Vec<FileAt>,
    touched: &mut Vec<u32>,
    window: u32,
    opening: u32,
) -> Result<(), NoMemory>
    requires { IsTable touched.old.items all.old.items }
    ensures table { IsTable touched.new.items all.new.items }
    ensures ok { OnOk result
        (files_in present_of all.new.items ≡ with_file window (enlisted (file_of (files_in present_of all.old.items) window) opening) (files_in present_of all.old.items)) }
    ensures kept { files_in kept_of all.new.items ≡ files_in kept_of all.old.items }
{
    touched.push(window)?;
    let place = place_or_insert(alloc, all, touched.as_slice(), window)?;
    let at = &mut all[place];
    at.changed = true;
    at.file.enlist(opening)
}

fn put(
    all: &mut Vec<FileAt>,
    touched: &mut Vec<u32>,
    window: u32,
    item: Item,
) -> Result<u64, NoMemory>
    requires table { IsTable touched.old.items all.old.items }
    requires is_open { IsTrue (has_opening (file_of (files_in present_of all.old.items) window)) }
    ensures table { IsTable touched.new.items all.new.items }
    ensures number { IfOk result (λ number. number ≡ length (file_of (files_in present_of all.old.items) window).items
        + 1) }
    ensures ok { OnOk result
        (files_in present_of all.new.items ≡ with_file window (with_item (file_of (files_in present_of all.old.items) window) item) (files_in present_of all.old.items)) }
    ensures kept { files_in kept_of all.new.items ≡ files_in kept_of all.old.items }
{
    touched.push(window)?;
    let Some(place) = place_in(all.as_slice(), window) else {
        unreachable!()
    };
    let at = &mut all[place];
    at.changed = true;
    at.file.put(item)
}

fn give(
    all: &mut Vec<FileAt>,
    touched: &mut Vec<u32>,
    window: u32,
    asker: Asker,
    at: u64,
) -> Result<Piece, NoMemory>
    requires table { IsTable touched.old.items all.old.items }
    requires living { IsTrue (is_enlisted (file_of (files_in present_of all.old.items) window) asker.opening) }
    requires ready { must_wait (queue_of (file_of (files_in present_of all.old.items) window)) asker ≡ false }
    ensures table { IsTable touched.new.items all.new.items }
    ensures piece { IfOk result (λ piece. piece ≡ piece_of (queue_of
        (file_of (files_in present_of all.old.items) window)) asker) }
    ensures ok { OnOk result
        (files_in present_of all.new.items ≡ with_file window (given (file_of (files_in present_of all.old.items) window) asker at) (files_in present_of all.old.items)) }
    ensures kept { files_in kept_of all.new.items ≡ files_in kept_of all.old.items }
{
    touched.push(window)?;
    let Some(place) = place_in(all.as_slice(), window) else {
        unreachable!()
    };
    let found = &mut all[place];
    found.changed = true;
    found.file.give(asker, at)
}

fn written(all: &mut Vec<FileAt>, window: u32, number: u64, at: u64)
    requires rises { Rises 0 all.old.items }
    requires steady { files_in present_of all.old.items ≡ files_in kept_of all.old.items }
    ensures { IsReplaced window (with_written (file_of (files_in present_of all.old.items) window) number at)
        all.old.items all.new.items }
{
    if let Some(place) = place_in(all.as_slice(), window) {
        let found = &mut all[place];
        found.file.written(number, at);
    }
}

fn leave(all: &mut Vec<FileAt>, window: u32, opening: u32, at: u64)
    requires rises { Rises 0 all.old.items }
    requires steady { files_in present_of all.old.items ≡ files_in kept_of all.old.items }
    ensures { IsReplaced window (left (file_of (files_in present_of all.old.items) window) opening at) all.old.items
        all.new.items }
{
    if let Some(place) = place_in(all.as_slice(), window) {
        let found = &mut all[place];
        found.file.leave(opening, at);
    }
}

fn delete(all: &mut Vec<FileAt>, window: u32, at: u64)
    requires rises { Rises 0 all.old.items }
    requires steady { files_in present_of all.old.items ≡ files_in kept_of all.old.items }
    ensures { IsReplaced window (deleted (file_of (files_in present_of all.old.items) window) at) all.old.items
        all.new.items }
{
    if let Some(place) = place_in(all.as_slice(), window) {
        let found = &mut all[place];
        found.file.delete(at);
    }
}

fn keep_at(all: &mut Vec<FileAt>, window: u32)
    requires { Rises 0 all.old.items }
    ensures { all.new.items ≡ changed_in window with_present all.old.items }
{
    if let Some(place) = place_in(all.as_slice(), window) {
        let at = &mut all[place];
        at.changed = false;
        at.file.keep();
    }
}

fn back_at(all: &mut Vec<FileAt>, window: u32)
    requires { Rises 0 all.old.items }
    ensures { all.new.items ≡ changed_in window with_kept all.old.items }
{
    if let Some(place) = place_in(all.as_slice(), window) {
        let at = &mut all[place];
        at.changed = false;
        at.file.back();
    }
}

fn keep_touched(all: &mut Vec<FileAt>, touched: &mut Vec<u32>)
    requires { IsTable touched.old.items all.old.items }
    ensures table { IsTable [] all.new.items }
    ensures touched { touched.new.items ≡ [] }
    ensures present { files_in present_of all.new.items ≡ files_in present_of all.old.items }
{
    while let Some(window) = touched.pop() {
        keep_at(all, window);
    }
}

fn back_touched(all: &mut Vec<FileAt>, touched: &mut Vec<u32>)
    requires { IsTable touched.old.items all.old.items }
    ensures table { IsTable [] all.new.items }
    ensures touched { touched.new.items ≡ [] }
    ensures kept { files_in kept_of all.new.items ≡ files_in kept_of all.old.items }
{
    while let Some(window) = touched.pop() {
        back_at(all, window);
    }
}

fn append_ledger(alloc: Global, all: &[FileAt], views: &mut ItemViews) -> Result<(), NoMemory>
    ensures { OnOk result (views.new ≡ views.old ++ ledger_of (files_in present_of all.now)) }
{
    for at in all {
        at.file.append_views(alloc, at.window, views)?;
    }
    Ok(())
}

fn append_kept_ledger(alloc: Global, all: &[FileAt], views: &mut ItemViews) -> Result<(), NoMemory>
    ensures { OnOk result (views.new ≡ views.old ++ ledger_of (files_in kept_of all.now)) }
{
    for at in all {
        at.file.append_kept_views(alloc, at.window, views)?;
    }
    Ok(())
}

impl FileTable {
    /// No files. It takes no memory.
    pub fn new(alloc: Global) -> Self
        ensures { result ≡ both [] }
    {
        FileTable {
            alloc,
            all: Vec::new(alloc),
            touched: Vec::new(alloc),
        }
    }

    // The file of this window, if it is there.
    fn file(&self, window: u32) -> Option<&EventFile>
        ensures { shown_file (option_copied result) ≡ file_of self.now.present window }
    {
        match place_in(self.all.as_slice(), window) {
            Some(place) => Some(&self.all[place].file),
            None => None,
        }
    }

    /// Whether the window's event file has an opening.
    pub fn is_open(&self, window: u32) -> bool
        ensures { result ≡ has_opening (file_of self.now.present window) }
    {
        match self.file(window) {
            Some(file) => file.is_open(),
            None => false,
        }
    }

    /// Whether this opening is one of the window's.
    pub fn is_enlisted(&self, window: u32, opening: u32) -> bool
        ensures { result ≡ is_enlisted (file_of self.now.present window) opening }
    {
        match self.file(window) {
            Some(file) => file.is_enlisted(opening),
            None => false,
        }
    }

    /// Whether a read on an opening of the window has to wait.
    pub fn must_wait(&self, window: u32, asker: Asker) -> bool
        ensures { result ≡ must_wait (queue_of (file_of self.now.present window)) asker }
    {
        match self.file(window) {
            Some(file) => file.must_wait(asker),
            None => asker.count != 0,
        }
    }

    /// The number of the window's item that a message written back names.
    pub fn find(&self, window: u32, message: &BackMsg) -> Result<u64, BackFault>
        ensures { result ≡ found_in message.now (file_of self.now.present window).items }
    {
        match self.file(window) {
            Some(file) => file.find(message),
            None => Err(BackFault::NoSuch),
        }
    }

    /// The window's item with this number, if there is one.
    pub fn item(&self, window: u32, number: u64) -> Option<&Item>
        ensures { option_copied result ≡ option_map (λ e. e.item) (numbered (file_of self.now.present window).items
            number) }
    {
        match self.file(window) {
            Some(file) => file.item(number),
            None => None,
        }
    }

    /// Whether the window's item with this number was taken, and not written back.
    pub fn is_taken(&self, window: u32, number: u64) -> bool
        ensures { result ≡ has_taken (numbered (file_of self.now.present window).items number) }
    {
        match self.file(window) {
            Some(file) => file.is_taken(number),
            None => false,
        }
    }

    /// All items with their lives and spellings, by window and number.
    pub fn ledger(&self) -> Result<ItemViews, NoMemory>
        ensures { IfOk result (λ views. views ≡ ledger_of self.now.present) }
    {
        let mut views = ItemViews::new(self.alloc);
        append_ledger(self.alloc, self.all.as_slice(), &mut views)?;
        Ok(views)
    }

    /// The same of the kept state.
    pub fn kept_ledger(&self) -> Result<ItemViews, NoMemory>
        ensures { IfOk result (λ views. views ≡ ledger_of self.now.kept) }
    {
        let mut views = ItemViews::new(self.alloc);
        append_kept_ledger(self.alloc, self.all.as_slice(), &mut views)?;
        Ok(views)
    }

    /// The present state becomes the kept one. It takes no memory, and time for the files that
    /// changed since the last time alone, each with all its openings.
    pub fn keep(&mut self)
        ensures { self.new ≡ both self.old.present }
    {
        keep_touched(&mut self.all, &mut self.touched);
    }

    /// The kept state becomes the present one again. It takes no memory, and time for the files
    /// that changed since the last time alone, each with all its openings.
    pub fn back(&mut self)
        ensures { self.new ≡ both self.old.kept }
    {
        back_touched(&mut self.all, &mut self.touched);
    }

    /// Adds an opening to the window's event file.
    pub fn enlist(&mut self, window: u32, opening: u32) -> Result<(), NoMemory>
        ensures ok { OnOk result
            (self.new ≡ record self.old { present = with_file window (enlisted (file_of self.old.present window) opening) self.old.present }) }
        ensures err { OnErr result (self.new ≡ both self.old.kept) }
    {
        if let Err(error) = enlist(
            self.alloc,
            &mut self.all,
            &mut self.touched,
            window,
            opening,
        ) {
            self.back();
            return Err(error);
        }
        Ok(())
    }

    /// Puts an item at the end of the window's, and answers its number.
    pub fn put(&mut self, window: u32, item: Item) -> Result<u64, NoMemory>
        requires { IsTrue (has_opening (file_of self.old.present window)) }
        ensures number { IfOk result (λ number. number ≡ length (file_of self.old.present window).items + 1) }
        ensures ok { OnOk result
            (self.new ≡ record self.old { present = with_file window (with_item (file_of self.old.present window) item) self.old.present }) }
        ensures err { OnErr result (self.new ≡ both self.old.kept) }
    {
        match put(&mut self.all, &mut self.touched, window, item) {
            Ok(number) => Ok(number),
            Err(error) => {
                self.back();
                Err(error)
            }
        }
    }

    /// Answers a read on an opening of the window that doesn't have to wait.
    pub fn give(&mut self, window: u32, asker: Asker, at: u64) -> Result<Piece, NoMemory>
        requires living { IsTrue (is_enlisted (file_of self.old.present window) asker.opening) }
        requires ready { must_wait (queue_of (file_of self.old.present window)) asker ≡ false }
        ensures piece { IfOk result (λ piece. piece ≡ piece_of (queue_of (file_of self.old.present window)) asker) }
        ensures ok { OnOk result
            (self.new ≡ record self.old { present = with_file window (given (file_of self.old.present window) asker at) self.old.present }) }
        ensures err { OnErr result (self.new ≡ both self.old.kept) }
    {
        match give(&mut self.all, &mut self.touched, window, asker, at) {
            Ok(piece) => Ok(piece),
            Err(error) => {
                self.back();
                Err(error)
            }
        }
    }

    /// The window's taken item with this number is written back. It takes no memory.
    pub fn written(&mut self, window: u32, number: u64, at: u64)
        requires { IsSteady self.old }
        ensures { self.new ≡ both (with_file window (with_written (file_of self.old.present window) number at)
            self.old.present) }
    {
        written(&mut self.all, window, number, at);
    }

    /// An opening of the window closes. It takes no memory.
    pub fn leave(&mut self, window: u32, opening: u32, at: u64)
        requires { IsSteady self.old }
        ensures { self.new ≡ both (with_file window (left (file_of self.old.present window) opening at)
            self.old.present) }
    {
        leave(&mut self.all, window, opening, at);
    }

    /// All openings of the window close. It takes no memory.
    pub fn delete(&mut self, window: u32, at: u64)
        requires { IsSteady self.old }
        ensures { self.new ≡ both (with_file window (deleted (file_of self.old.present window) at) self.old.present) }
    {
        delete(&mut self.all, window, at);
    }
}
