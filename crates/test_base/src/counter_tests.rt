ghost use Rattle.std.specs.Prelude.{◌≡◌, false};
ghost use Rattle.std.specs.Thread.{IsSend};

use sd_base::{Ledger, Steps};

#[derive(Debug, PartialEq, Drop)]
struct Visits(u8);

impl Ledger for Visits {}

// Two steps of its own, and one of a share.
fn three_steps<L: Ledger>(ledger: L) -> Steps<L>
    ensures count { result.count ≡ 3 }
    ensures share { result.share ≡ false }
{
    let mut counter = Steps::new(ledger);
    counter.tick();
    counter.tick();
    let mut share = counter.share();
    share.tick();
    counter.absorb(share);
    counter
}

fn sent<T: Send>(value: T) -> T
    requires { IsSend T.row }
    ensures { result ≡ value }
{
    value
}

fn sent_counter<L: Ledger + Send>(counter: Steps<L>) -> Steps<L>
    ensures { result ≡ counter }
{
    sent(counter)
}

#[test]
fn steps_of_a_share_count_too(rt: HostRuntime) {
    let counter = sent_counter(three_steps(Visits(7)));
    assert_eq!(rt; counter.finish(), Visits(7));
}
