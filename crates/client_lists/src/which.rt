//! The three lists of a client, and their numbers in the table.
ghost use Rattle.std.specs.Prelude.{◌≡◌, ◌+◌, ◌*◌, ◌<◌, ◌^◌};
ghost use Rattle.client_lists.specs.Clients.{place};

/// Which of the lists of its client a page stands on.
#[derive(Clone, Copy, Debug, PartialEq, Eq, Drop)]
pub enum Which {
    /// Pages that are pinned, and pages that are being loaded.
    Pinned,
    /// Pages whose content isn't on scratch yet.
    Dirty,
    /// Pages that are being written to scratch.
    Flying,
}

/// The number of the list in the table.
#[inline]
pub(crate) fn place(client: u32, which: Which) -> u32
    requires { 3 * client + 2 < 2 ^ 32 }
    ensures { result ≡ place client which }
{
    match which {
        Which::Pinned => 3 * client,
        Which::Dirty => 3 * client + 1,
        Which::Flying => 3 * client + 2,
    }
}
