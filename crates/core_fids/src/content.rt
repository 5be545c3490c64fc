//! What a node holds.

ghost use Rattle.std.specs.Prelude.{◌≡◌};
ghost use Rattle.core_fids.specs.Contents.{content_of, file_content};

use acme_tree::{Node, WinFile};
use acme_watch::WatchFile;

/// What a node holds.
#[derive(Clone, Copy, Debug, PartialEq, Eq)]
pub enum Content {
    /// The records of its files.
    Directory,
    /// The text of the body of this window.
    BodyText(u32),
    /// The text of the tag of this window.
    TagText(u32),
    /// The numbers of this window, and its control messages.
    CtlText(u32),
    /// The address of this window, as text.
    AddrText(u32),
    /// The text of the body of this window, from its address on.
    DataOf(u32),
    /// The text of the body of this window that its address names.
    XdataOf(u32),
    /// A line for each live window.
    IndexText,
    /// What is written goes to the errors window of this window's directory.
    ErrorsOf(u32),
    /// What is written goes to the errors window of the directory `/`.
    ConsErrors,
    /// The items of this window, one after another.
    EventsOf(u32),
    /// No bytes; what is written is dropped.
    Empty,
    /// Plumb messages, which are written one after another.
    SendText,
    /// The accepted rules of the plumber; what is written is added to them.
    RulesText,
    /// The messages of this port, one after another.
    PortOf(u32),
    /// What programs may follow in this file: the lines of `log`, or the requests of `jobs`, which are answered there.
    WatchOf(WatchFile),
}

fn file_content(window: u32, file: WinFile) -> Content
    ensures { result ≡ file_content window file }
{
    match file {
        WinFile::Body => Content::BodyText(window),
        WinFile::Tag => Content::TagText(window),
        WinFile::Ctl => Content::CtlText(window),
        WinFile::Errors => Content::ErrorsOf(window),
        WinFile::Addr => Content::AddrText(window),
        WinFile::Data => Content::DataOf(window),
        WinFile::Event => Content::EventsOf(window),
        WinFile::Xdata => Content::XdataOf(window),
    }
}

/// What a node holds.
pub fn content_of(node: Node) -> Content
    ensures { result ≡ content_of node }
{
    match node {
        Node::Root => Content::Directory,
        Node::NewDir => Content::Directory,
        Node::Window(_) => Content::Directory,
        Node::PlumbRoot => Content::Directory,
        Node::ConsCtl => Content::Empty,
        Node::Label => Content::Empty,
        Node::Cons => Content::ConsErrors,
        Node::Index => Content::IndexText,
        Node::File(window, file) => file_content(window, file),
        Node::Send => Content::SendText,
        Node::Rules => Content::RulesText,
        Node::Port(port) => Content::PortOf(port),
        Node::Log => Content::WatchOf(WatchFile::Log),
        Node::Jobs => Content::WatchOf(WatchFile::Jobs),
    }
}
