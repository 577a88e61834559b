//! Calls of sessions.
ghost use Rattle.std.specs.Prelude.{◌≡◌, ◌<◌, OnOk};
ghost use Rattle.std.specs.FinMap.{get, insert, remove, empty};

use super::Follower;
use crate::rows::Asked;
use std::alloc::AllocError;

impl Follower {
    ghost use Rattle.pool_model.specs.declared.bare.Bare.TheVariants as bare;
    ghost use Rattle.trace_follow.specs.Judging.{made, Answers};

    // What failed before is forgotten.
    pub(super) fn ask(&mut self, maker: u32) -> Result<bool, AllocError>
        requires { maker < 240 }
        ensures { Answers self.old self.new (made maker bare.Ask) result }
    {
        self.call(maker)?;
        self.enter()
    }

    fn call(&mut self, maker: u32) -> Result<(), AllocError>
        ensures { OnOk result (self.new ≡ record self.old { asked = insert self.old.asked maker (record { failures = empty; reads = empty }) }) }
    {
        let since = Asked::new(self.alloc);
        self.put_asked(maker, since)
    }

    pub(super) fn put_asked(&mut self, maker: u32, since: Asked) -> Result<(), AllocError>
        ensures ok { OnOk result (self.new ≡ record self.old { asked = insert self.old.asked maker since }) }
        ensures rest { self.new ≡ record self.old { asked = self.new.asked } }
    {
        self.asked.put(u64::from(maker), since)
    }

    pub(super) fn take_asked(&mut self, maker: u32) -> Option<Asked>
        ensures since { result ≡ get self.old.asked maker }
        ensures gone { self.new ≡ record self.old { asked = remove self.old.asked maker } }
    {
        self.asked.take(u64::from(maker))
    }
}
