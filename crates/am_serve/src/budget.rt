//! What one connection may send.

ghost use Rattle.std.specs.Prelude.{◌≡◌};
ghost use Rattle.am_serve.specs.Budget.{whole, has_message, after_message};

/// The most messages that a connection may send.
const MESSAGES: u32 = 1000000;

/// The most bytes that its messages may have in all.
const BYTES: usize = 67108864;

/// How many messages a connection may still send, and how many bytes.
#[derive(Clone, Copy, Debug, PartialEq, Eq)]
pub(crate) struct Budget {
    pub messages: u32,
    pub bytes: usize,
}

impl Budget {
    /// That of a connection that has sent nothing.
    pub(crate) fn new() -> Budget
        ensures { result ≡ whole }
    {
        Budget {
            messages: MESSAGES,
            bytes: BYTES,
        }
    }

    /// Takes a message of so many bytes off, and answers whether it may come. If not, nothing is taken off.
    pub(crate) fn spend(&mut self, len: usize) -> bool
        ensures answer { result ≡ has_message self.old len }
        ensures left { self.new ≡ after_message self.old len }
    {
        if self.messages == 0 || self.bytes < len {
            return false;
        }
        self.messages -= 1;
        self.bytes -= len;
        true
    }
}
