//! A client of a session.
ghost use Rattle.std.specs.Prelude.{◌≡◌};
ghost use Rattle.session_table.specs.Seats.{forgetting, noting};

/// The number of a client's tracker, and the number of the entry of the first failure on its pages
/// since the session's last call began.
#[derive(Clone, Copy, Debug, PartialEq, Eq)]
pub struct Member {
    pub tracker: u32,
    pub failed: Option<u64>,
}

impl Member {
    // Notes a failure of the client with that tracker, unless one is noted already.
    #[inline]
    pub(crate) fn note(&mut self, tracker: u32, entry: u64)
        ensures { self.new ≡ noting tracker entry self.old }
    {
        if self.tracker == tracker {
            self.failed = Some(self.failed.unwrap_or(entry));
        }
    }

    #[inline]
    pub(crate) fn forget(&mut self)
        ensures { self.new ≡ forgetting self.old }
    {
        self.failed = None;
    }
}
