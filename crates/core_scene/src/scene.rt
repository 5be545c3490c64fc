//! The scene that a step plays on.

ghost use Rattle.std.specs.Prelude.{◌≡◌, ◌∷◌, [], true, false, None, OnOk, IfOk};
ghost use Rattle.name_tree.specs.Kinds.{file_clashes, directory_clashes};
ghost use Rattle.plumb_ports.specs.PortsState.{refusal};
ghost use Rattle.core_windows.specs.Possible.{CanChange};
ghost use Rattle.core_scene.specs.Scenes.{can_add, no_scene, scene_in, scene_of, kept_of, done, CanDo, CanDoAll, Did};
ghost use Rattle.core_scene.specs.declared.deed.Deed.TheVariants as deed;

use crate::deed::{Deed, Deeds, Entry, WindowItems};
use crate::noted::{note_change, note_window};
use crate::told::{tell_change, tell_deletion, tell_item};
use acme_watch::{Op, Watch};
use am_text::{Bytes, Ids, Items, Job, NoMemory, Runes};
use core_stores::{Requests, RuleStore, Snarf};
use core_windows::{Change, Windows};
use event_book::Book;
use name_tree::{Tree, TreeFault};
use plumb_ports::{PortFault, Ports};
use std::alloc::Global;
use win_events::Item;

/// What deeds are done to: the windows, the event files, the tree of files, the snarfed text, the requests, the rules
/// and ports of the plumber, and the files `log` and `jobs`, each in two states, and the items that the step has made
/// so far, and the windows that it has deleted.
pub struct Scene {
    pub windows: Windows,
    pub book: Book,
    pub files: Tree,
    pub snarf: Snarf,
    pub jobs: Requests,
    pub rules: RuleStore,
    pub ports: Ports,
    pub watch: Watch,
    pub items: WindowItems,
    pub deleted: Ids,
}

// By hand, so that a crate that drops a scene goes by this drop, and has not to prove those of all that is in it.
impl Drop for Scene {
    fn drop(self) {
        let Scene {
            windows: _,
            book: _,
            files: _,
            snarf: _,
            jobs: _,
            rules: _,
            ports: _,
            watch: _,
            items: _,
            deleted: _,
        } = self;
    }
}

impl Scene {
    /// Nothing was ever made. `watched` says whether the files `log` and `jobs` are served.
    pub fn new(alloc: Global, watched: bool) -> Result<Scene, NoMemory>
        ensures { IfOk result (λ scene. scene ≡ scene_in (no_scene watched)) }
    {
        Ok(Scene {
            windows: Windows::new(alloc, watched),
            book: Book::new(alloc),
            files: Tree::new(alloc),
            snarf: Snarf::new(alloc),
            jobs: Requests::new(alloc),
            rules: RuleStore::new(alloc),
            ports: Ports::new(alloc)?,
            watch: Watch::new(alloc),
            items: Items::new(alloc),
            deleted: Items::new(alloc),
        })
    }

    /// Does a deed, in the present state alone.
    pub fn act(&mut self, alloc: Global, entry: Entry, deed: Deed) -> Result<(), NoMemory>
        requires { CanDo (scene_of self.old) deed }
        ensures ok { OnOk result (Did entry (scene_of self.old) (scene_of self.new) (deed ∷ [])) }
        ensures kept { kept_of self.new ≡ kept_of self.old }
        ensures book { self.new.book ≡ self.old.book }
    {
        match deed {
            Deed::Windows(change) => self.change(alloc, entry, change),
            Deed::Item { window, item } => self.tell(entry, window, item),
            Deed::Snarfs(text) => {
                self.snarf.put(text);
                Ok(())
            }
            Deed::Stores { path, bytes } => self.store(entry, path, bytes),
            Deed::MakesDir { path } => self.make_dir(entry, path),
            Deed::Requests(job) => self.request(entry, job),
            Deed::Notes { window, op } => self.note(entry, window, op),
            Deed::AddsRules { sets, vars, text } => self.rules.add(sets, vars, text.as_slice()),
            Deed::ClearsRules => {
                self.rules.clear();
                Ok(())
            }
            Deed::AddsPort(name) => self.add_port(entry, name),
            Deed::Delivers {
                port,
                message,
                keep,
            } => self.deliver(entry, port, message, keep),
        }
    }

    fn change(&mut self, alloc: Global, entry: Entry, change: Change) -> Result<(), NoMemory>
        requires { CanChange self.old.windows.present change }
        ensures ok { OnOk result (scene_of self.new ≡ done entry (scene_of self.old) (deed.Windows change)) }
        ensures kept { kept_of self.new ≡ kept_of self.old }
        ensures book { self.new.book ≡ self.old.book }
    {
        tell_change(
            alloc,
            &self.windows,
            &self.book,
            &mut self.items,
            entry.origin,
            &change,
        )?;
        tell_deletion(&mut self.deleted, &change)?;
        note_change(&mut self.watch, &self.windows, &change)?;
        self.windows.change(change, entry.at)
    }

    fn tell(&mut self, entry: Entry, window: u32, item: Item) -> Result<(), NoMemory>
        ensures ok { OnOk result (scene_of self.new ≡ done entry (scene_of self.old) (deed.Item window item)) }
        ensures kept { kept_of self.new ≡ kept_of self.old }
        ensures book { self.new.book ≡ self.old.book }
    {
        tell_item(&self.book, &mut self.items, window, item)
    }

    fn store(&mut self, entry: Entry, path: Bytes, bytes: Bytes) -> Result<(), NoMemory>
        requires { file_clashes self.old.files.present path ≡ false }
        ensures ok { OnOk result (scene_of self.new ≡ done entry (scene_of self.old) (deed.Stores path bytes)) }
        ensures kept { kept_of self.new ≡ kept_of self.old }
        ensures book { self.new.book ≡ self.old.book }
    {
        match self.files.file(path.as_slice(), bytes.as_slice()) {
            Ok(()) => Ok(()),
            Err(TreeFault::NoMemory) => Err(NoMemory),
            Err(TreeFault::Clash) => unreachable!(),
        }
    }

    fn make_dir(&mut self, entry: Entry, path: Bytes) -> Result<(), NoMemory>
        requires { directory_clashes self.old.files.present path ≡ false }
        ensures ok { OnOk result (scene_of self.new ≡ done entry (scene_of self.old) (deed.MakesDir path)) }
        ensures kept { kept_of self.new ≡ kept_of self.old }
        ensures book { self.new.book ≡ self.old.book }
    {
        match self.files.dir(path.as_slice()) {
            Ok(()) => Ok(()),
            Err(TreeFault::NoMemory) => Err(NoMemory),
            Err(TreeFault::Clash) => unreachable!(),
        }
    }

    fn request(&mut self, entry: Entry, job: Job) -> Result<(), NoMemory>
        ensures ok { OnOk result (scene_of self.new ≡ done entry (scene_of self.old) (deed.Requests job)) }
        ensures kept { kept_of self.new ≡ kept_of self.old }
        ensures book { self.new.book ≡ self.old.book }
    {
        self.watch.job(&job)?;
        self.jobs.add(job)
    }

    fn note(&mut self, entry: Entry, window: u32, op: Op) -> Result<(), NoMemory>
        ensures ok { OnOk result (scene_of self.new ≡ done entry (scene_of self.old) (deed.Notes window op)) }
        ensures kept { kept_of self.new ≡ kept_of self.old }
        ensures book { self.new.book ≡ self.old.book }
    {
        note_window(&mut self.watch, &self.windows, window, op)
    }

    fn add_port(&mut self, entry: Entry, name: Bytes) -> Result<(), NoMemory>
        requires { can_add self.old.ports.present name ≡ true }
        ensures ok { OnOk result (scene_of self.new ≡ done entry (scene_of self.old) (deed.AddsPort name)) }
        ensures kept { kept_of self.new ≡ kept_of self.old }
        ensures book { self.new.book ≡ self.old.book }
    {
        self.ports.add(name.as_slice())?;
        Ok(())
    }

    fn deliver(
        &mut self,
        entry: Entry,
        port: Bytes,
        message: Bytes,
        keep: bool,
    ) -> Result<(), NoMemory>
        requires { refusal self.old.ports.present port keep ≡ None }
        ensures ok { OnOk result (scene_of self.new
            ≡ done entry (scene_of self.old) (deed.Delivers port message keep)) }
        ensures kept { kept_of self.new ≡ kept_of self.old }
        ensures book { self.new.book ≡ self.old.book }
    {
        match self
            .ports
            .deliver(port.as_slice(), message.as_slice(), keep)
        {
            Ok(()) => Ok(()),
            Err(PortFault::NoMemory) => Err(NoMemory),
            Err(_) => unreachable!(),
        }
    }

    /// Does deeds from first to last, in the present state alone.
    #[tactic(auto, using(crate::proofs::Dids::joins))]
    pub fn act_all(&mut self, alloc: Global, entry: Entry, deeds: Deeds) -> Result<(), NoMemory>
        requires { CanDoAll entry (scene_of self.old) deeds }
        ensures ok { OnOk result (Did entry (scene_of self.old) (scene_of self.new) deeds) }
        ensures kept { kept_of self.new ≡ kept_of self.old }
        ensures book { self.new.book ≡ self.old.book }
    {
        for deed in deeds.into_vec() {
            self.act(alloc, entry, deed)?;
        }
        Ok(())
    }

    /// The present state becomes the kept one, and the items and the deleted windows are let go. It takes no memory.
    pub fn keep(&mut self, alloc: Global)
        ensures { self.new ≡ scene_in (scene_of self.old) }
    {
        self.windows.keep();
        self.book.keep();
        self.files.keep();
        self.snarf.keep();
        self.jobs.keep();
        self.rules.keep();
        self.ports.keep();
        self.watch.keep();
        self.items = Items::new(alloc);
        self.deleted = Items::new(alloc);
    }

    /// The kept state becomes the present one again, and the items and the deleted windows are
    /// let go. It takes no memory.
    pub fn back(&mut self, alloc: Global)
        ensures { self.new ≡ scene_in (kept_of self.old) }
    {
        self.windows.back();
        self.book.back();
        self.files.back();
        self.snarf.back();
        self.jobs.back();
        self.rules.back();
        self.ports.back();
        self.watch.back();
        self.items = Items::new(alloc);
        self.deleted = Items::new(alloc);
    }

    /// The items that the step has made so far, which are here no more. It takes no memory.
    pub fn take_items(&mut self, alloc: Global) -> WindowItems
        ensures taken { result ≡ self.old.items }
        ensures scene { self.new ≡ record self.old { items = [] } }
    {
        std::mem::replace(&mut self.items, Items::new(alloc))
    }

    /// The windows that the step has deleted so far, in order, which are here no more. It takes no memory.
    pub fn take_deleted(&mut self, alloc: Global) -> Ids
        ensures taken { result ≡ self.old.deleted }
        ensures scene { self.new ≡ record self.old { deleted = [] } }
    {
        std::mem::replace(&mut self.deleted, Items::new(alloc))
    }
}
