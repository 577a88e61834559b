//! What a store gives its callers for clients, pages and loans.
//!
//! None can be copied, and none can be let go: each goes back to its store. Only stores make and end them.
ghost use Rattle.std.specs.Prelude.{◌≡◌};
ghost use Rattle.std.specs.Borrow.{Lends, sem};
ghost use Rattle.store_api.specs.contracts.tokens.Loan.{the_row};
ghost use Rattle.block_arena.specs.contracts.buffer.Buf.{the_row as buf_row};
ghost use Rattle.store_api.specs.Tokens.{with_buf};

use block_arena::Buf;
use reservation_tree::TrackerId;
use std::marker::Model;

/// A client of a store: its pages and loans are charged to its tracker.
pub struct Client {
    session: u32,
    tracker: TrackerId,
}

/// A live page of a store.
pub struct Page {
    name: u64,
    key: u32,
    client: TrackerId,
}

/// A buffer that is no page's, charged to a client.
pub struct Loan {
    number: u32,
    client: TrackerId,
    buf: Buf,
}

impl Model for Client {
    ghost use Rattle.store_api.specs.Tokens.{ClientToken};

    ghost Value = { ClientToken };

    ghost view = { λ c. record { session = c.session; tracker = c.tracker } };
}

impl Model for Page {
    ghost use Rattle.store_api.specs.Tokens.{PageToken};

    ghost Value = { PageToken };

    ghost view = { λ p. record { name = p.name; key = p.key; client = p.client } };
}

impl Model for Loan {
    ghost use Rattle.store_api.specs.Tokens.{LoanToken};

    ghost Value = { LoanToken };

    ghost view = { λ l. record { number = l.number; client = l.client; buf = l.buf } };
}

impl Client {
    /// The client of this session with this tracker. For stores.
    #[inline]
    pub fn of(session: u32, tracker: TrackerId) -> Client
        ensures { result ≡ record { session = session; tracker = tracker } }
    {
        Client { session, tracker }
    }

    /// The session whose client it is.
    #[inline]
    pub fn session(&self) -> u32
        ensures { result ≡ self.now.session }
    {
        self.session
    }

    /// The client's tracker.
    #[inline]
    pub fn tracker(&self) -> TrackerId
        ensures { result ≡ self.now.tracker }
    {
        self.tracker
    }

    /// Ends the client's token, and gives its tracker. For stores.
    #[inline]
    pub fn into_tracker(self) -> TrackerId
        ensures { result ≡ self.tracker }
    {
        let Client {
            session: _,
            tracker,
        } = self;
        tracker
    }
}

impl Page {
    /// The page of this name and key, and of this client. For stores.
    #[inline]
    pub fn of(name: u64, key: u32, client: TrackerId) -> Page
        ensures { result ≡ record { name = name; key = key; client = client } }
    {
        Page { name, key, client }
    }

    /// The page's name.
    #[inline]
    pub fn name(&self) -> u64
        ensures { result ≡ self.now.name }
    {
        self.name
    }

    /// Where the store finds the page.
    #[inline]
    pub fn key(&self) -> u32
        ensures { result ≡ self.now.key }
    {
        self.key
    }

    /// The tracker of the page's client.
    #[inline]
    pub fn client(&self) -> TrackerId
        ensures { result ≡ self.now.client }
    {
        self.client
    }

    /// Ends the page's token, and gives its name. For stores.
    #[inline]
    pub fn into_name(self) -> u64
        ensures { result ≡ self.name }
    {
        let Page {
            name,
            key: _,
            client: _,
        } = self;
        name
    }
}

impl Loan {
    /// The loan of this number, of this client, with this buffer. For stores.
    #[inline]
    pub fn of(number: u32, client: TrackerId, buf: Buf) -> Loan
        ensures { result ≡ record { number = number; client = client; buf = buf } }
    {
        Loan {
            number,
            client,
            buf,
        }
    }

    /// The loan's number.
    #[inline]
    pub fn number(&self) -> u32
        ensures { result ≡ self.now.number }
    {
        self.number
    }

    /// The tracker of the loan's client.
    #[inline]
    pub fn client(&self) -> TrackerId
        ensures { result ≡ self.now.client }
    {
        self.client
    }

    /// The loan's buffer.
    #[inline]
    pub fn buf(&self) -> &Buf
        ensures { result.now ≡ self.now.buf }
    {
        &self.buf
    }

    /// The loan's buffer, to be written. What is left there is the loan's.
    #[inline]
    pub fn buf_mut(&mut self) -> &mut Buf
        ensures* writes_back { sem 𝓛 (Lends the_row buf_row self.entry result (with_buf self.entry.now)) }
        ensures value { result.now ≡ self.old.buf }
    {
        &mut self.buf
    }

    /// Ends the loan's token, and gives its buffer. For stores.
    #[inline]
    pub fn into_buf(self) -> Buf
        ensures { result ≡ self.buf }
    {
        let Loan {
            number: _,
            client: _,
            buf,
        } = self;
        buf
    }
}
