ghost use Rattle.std.specs.Prelude.{◌≡◌};
ghost use Rattle.sd_base.specs.Lawful.{Lawful};

use firing::{Firing, know_laws};
use sd_base::Role;
use std::sync::atomic::Ordering::SeqCst;
use std::sync::atomic::{AtomicBool, AtomicU64};

/// Notes whether two calls ran at once.
#[derive(Drop)]
pub(crate) struct Watch {
    begun: AtomicBool,
    running: AtomicU64,
    turns: AtomicU64,
    most: u64,
    two: AtomicBool,
}

impl Watch {
    /// A watch that hasn't begun, and looks so often at most.
    pub(crate) fn new(most: u64) -> Watch {
        Watch {
            begun: AtomicBool::new(false),
            running: AtomicU64::new(0),
            turns: AtomicU64::new(0),
            most,
            two: AtomicBool::new(false),
        }
    }

    pub(crate) fn begin(&self) {
        self.begun.store(true, SeqCst);
    }

    pub(crate) fn saw_two(&self) -> bool {
        self.two.load(SeqCst)
    }

    /// A call runs: it counts itself and looks for a second one meanwhile.
    fn call(&self) {
        if self.begun.load(SeqCst) && !self.saw_two() {
            self.running.fetch_add(1, SeqCst);
            self.look();
            self.running.fetch_sub(1, SeqCst);
        }
    }

    /// Looks for a second call, until the turns of all calls together are used.
    fn look(&self) {
        for _turn in 0..self.most {
            if self.running.load(SeqCst) >= 2 {
                self.two.store(true, SeqCst);
                return;
            }
            if self.turns.fetch_add(1, SeqCst) >= self.most {
                return;
            }
        }
    }
}

/// A net whose calls are watched.
#[derive(Drop)]
pub(crate) struct Watched<'a, F: Firing> {
    net: &'a F,
    watch: &'a Watch,
    ghost laws: { Lawful (F.net net.now) },
}

impl<'a, F: Firing> Watched<'a, F> {
    pub(crate) fn new(net: &'a F, watch: &'a Watch) -> Watched<'a, F> {
        know_laws(net);
        Watched { net, watch }
    }
}

impl<'a, F: Firing> Firing for Watched<'a, F> {
    ghost net = { λ w. F.net w.net.now };

    ghost lawful = { λ w. w.laws };

    fn actors(&self) -> u32 {
        self.watch.call();
        self.net.actors()
    }

    fn channels(&self) -> u32 {
        self.watch.call();
        self.net.channels()
    }

    fn source(&self, channel: u32) -> u32 {
        self.watch.call();
        self.net.source(channel)
    }

    fn target(&self, channel: u32) -> u32 {
        self.watch.call();
        self.net.target(channel)
    }

    fn tokens(&self, channel: u32) -> u64 {
        self.watch.call();
        self.net.tokens(channel)
    }

    fn size(&self, channel: u32) -> u64 {
        self.watch.call();
        self.net.size(channel)
    }

    fn phases(&self, actor: u32) -> u32 {
        self.watch.call();
        self.net.phases(actor)
    }

    fn time(&self, actor: u32, phase: u32) -> u64 {
        self.watch.call();
        self.net.time(actor, phase)
    }

    fn made(&self, channel: u32, phase: u32) -> u64 {
        self.watch.call();
        self.net.made(channel, phase)
    }

    fn taken(&self, channel: u32, phase: u32) -> u64 {
        self.watch.call();
        self.net.taken(channel, phase)
    }

    fn round(&self, actor: u32) -> u64 {
        self.watch.call();
        self.net.round(actor)
    }

    fn role(&self, channel: u32) -> Role {
        self.watch.call();
        self.net.role(channel)
    }
}
