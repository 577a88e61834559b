// A store's one client, and its one page.
ghost use Rattle.std.specs.Prelude.{◌≡◌};
ghost use Rattle.store_api.specs.Conditions.{IsLiveClient};
ghost use Rattle.tests_sessions.specs.Owning.{IsBare, Rests};

use std::alloc::Global;
use std::process::Abort;
use store_api::{Client, Page, Store};

// A client with a page of one block of 64 bytes, which were left in it.
pub struct Owner {
    client: Client,
    page: Page,
    byte: u8,
}

impl Owner {
    // A client comes that has so many bytes, and leaves a page full of this byte.
    pub fn come<St: Store, R: Abort>(
        rt: &R,
        alloc: Global,
        store: &mut St,
        bytes: u64,
        byte: u8,
    ) -> Owner
        requires bare { IsBare 0 (St.holds store.old) }
        ensures { Rests result.client result.page (St.holds store.new) }
    {
        let client = client_with(rt, store, bytes);
        let page = page_full_of(rt, alloc, store, &client, byte);
        Owner { client, page, byte }
    }

    // A client comes and goes.
    pub fn pass_by<St: Store, R: Abort>(rt: &R, store: &mut St)
        requires none { (St.holds store.old).live_clients ≡ 0 }
        ensures none { (St.holds store.new).live_clients ≡ 0 }
    {
        let Ok(client) = store.add_client(64) else {
            panic!(rt; "no client came");
        };
        store.end_client(client);
    }

    // The name of the page.
    pub fn name(&self) -> u64 {
        self.page.name()
    }

    // The page is pinned, shows its bytes, and rests again with them.
    pub fn look<St: Store, R: Abort>(&self, rt: &R, store: &mut St)
        requires rests { Rests self.now.client self.now.page (St.holds store.old) }
        ensures { Rests self.now.client self.now.page (St.holds store.new) }
    {
        assert!(rt; u64::from(store.block_len()) <= store.unused(&self.client));
        let Ok(buf) = store.pin(&self.page) else {
            panic!(rt; "the page could not be pinned");
        };
        let mut shown = [0; 64];
        buf.read_at(0, &mut shown);
        assert_eq!(rt; shown, [self.byte; 64]);
        if let Err((_buf, _)) = store.unpin(&self.page, buf) {
            panic!(rt; "the page had its slot");
        }
    }

    // The client creates a second page, and destroys it.
    pub fn make_and_destroy<St: Store, R: Abort>(&self, rt: &R, alloc: Global, store: &mut St)
        requires rests { Rests self.now.client self.now.page (St.holds store.old) }
        ensures { Rests self.now.client self.now.page (St.holds store.new) }
    {
        assert!(rt; u64::from(store.block_len()) <= store.unused(&self.client));
        let Ok((page, buf)) = store.create(alloc, &self.client, 1) else {
            panic!(rt; "no second page came");
        };
        store.destroy(page, Some(buf));
    }

    // The client takes eight blocks as a loan, and gives them back.
    pub fn borrow_eight<St: Store, R: Abort>(&self, rt: &R, alloc: Global, store: &mut St)
        requires rests { Rests self.now.client self.now.page (St.holds store.old) }
        ensures { Rests self.now.client self.now.page (St.holds store.new) }
    {
        assert!(rt; 8 * u64::from(store.block_len()) <= store.unused(&self.client));
        let Ok(loan) = store.alloc(alloc, &self.client, 8) else {
            panic!(rt; "no loan came");
        };
        store.free(loan);
    }

    // The page and its client go.
    pub fn go<St: Store>(self, store: &mut St)
        requires rests { Rests self.client self.page (St.holds store.old) }
        ensures { (St.holds store.new).live_clients ≡ 0 }
    {
        let Owner {
            client,
            page,
            byte: _,
        } = self;
        store.destroy(page, None);
        store.end_client(client);
    }
}

fn client_with<St: Store, R: Abort>(rt: &R, store: &mut St, bytes: u64) -> Client
    requires bare { IsBare 0 (St.holds store.old) }
    ensures bare { IsBare 1 (St.holds store.new) }
    ensures client { IsLiveClient result (St.holds store.new) }
{
    let Ok(client) = store.add_client(bytes) else {
        panic!(rt; "no client came");
    };
    if store.reserve(&client, bytes).is_err() {
        panic!(rt; "there was no room");
    }
    client
}

fn page_full_of<St: Store, R: Abort>(
    rt: &R,
    alloc: Global,
    store: &mut St,
    client: &Client,
    byte: u8,
) -> Page
    requires bare { IsBare 1 (St.holds store.old) }
    requires client { IsLiveClient client.now (St.holds store.old) }
    ensures { Rests client.now result (St.holds store.new) }
{
    assert!(rt; u64::from(store.block_len()) <= store.unused(client));
    let Ok((page, mut buf)) = store.create(alloc, client, 1) else {
        panic!(rt; "no page came");
    };
    buf.write_at(0, &[byte; 64]);
    if let Err((_buf, _)) = store.unpin(&page, buf) {
        panic!(rt; "there was no slot");
    }
    page
}
